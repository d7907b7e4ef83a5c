// The two calls that every packet makes, on the words of a head where they lie: nothing is unpacked that the call does
// not use, and only the words that change are written. Each is proved to be the receiver's call on the head that the
// words say.
#![tactic(auto)]

mod clear;
pub mod data;
pub mod message;
