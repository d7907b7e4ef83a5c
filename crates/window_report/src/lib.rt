// The loss report and the drop request, over the window: 01, "Window". A crate of its own, so that its check stays
// short.
#![tactic(auto)]

pub mod drop_request;
pub mod report;
