// The C boundary: each call of the receiver on words, `pt_` and its name. A call returns the number of its refusal, or
// 0, and fills ten cells with its answer. 01, "Refused, in order of test": a refusal leaves the head's words as they
// are.
#![tactic(auto)]

pub mod acking;
pub mod counted;
pub mod data;
mod keep;
pub mod loss;
pub mod making;
pub mod message;
pub mod request;
pub mod show;
pub mod sync;
