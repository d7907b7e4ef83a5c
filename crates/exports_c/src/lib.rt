// What C links: each function of exports once more, under its C name and with the same promise. A crate of its own,
// since one crate is a library for other crates or a static library for C, not both.
#![tactic(auto)]

pub mod acking;
pub mod counted;
pub mod data;
pub mod loss;
pub mod making;
pub mod message;
pub mod request;
pub mod show;
pub mod sync;
