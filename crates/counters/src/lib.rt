// The counters of receiver/mod.rs over the receiver's calls: 01, "Counters follow 003, mod 2^64". Every call of the
// receiver stands here once more, with the counters in and out.
#![tactic(auto, using(crate::proofs::Layers::layers))]

pub mod acking;
pub mod data;
pub mod loss;
pub mod message;
pub mod request;
pub mod show;
pub mod sync;

use counts::Counters;

// What a call of the receiver leaves, and the counters after it.
#[derive(Clone, Copy)]
pub struct Counted<T> {
    pub counters: Counters,
    pub left: T,
}
