// Packets in and messages out, arq.rs: each call takes any arguments and any lent contents. 01, "Refused, in order of
// test" and "Window".
#![tactic(auto)]

pub mod data;
pub mod message;
