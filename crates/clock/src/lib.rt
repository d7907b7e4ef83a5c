// The synchronized clock: 01, "Clock". base.rs, receiver/time.rs and the statistics that the Rust takes from
// OnlineStats.
#![tactic(auto)]

pub mod base;
pub mod root;
pub mod stats;
pub mod time;
