// Pop, over the window: 01, "Window". A crate of its own, so that its check stays short.
#![tactic(auto)]

pub mod pop;
