// The head as 79 words, one value each, and back: what crosses the C boundary. 01, "Head and lent areas", in the order
// of its fields.
#![tactic(auto)]

pub mod pack;
pub mod tally;
pub mod unpack;
pub mod words;
