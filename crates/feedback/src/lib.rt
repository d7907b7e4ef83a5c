// What the sender is told, and what it tells of itself, arq.rs: loss reports, ACKs, round trips, the clock. Each call
// takes any arguments and any lent contents. 01, "Refused, in order of test", "Window", "ACKs, RTT, rates" and
// "Clock".
#![tactic(auto)]

pub mod acking;
pub mod loss;
pub mod sync;
