// The lent areas: 01, "Head and lent areas". The three words of an entry, the ring of slots, the place of a payload.
#![tactic(auto)]

pub mod entry;
pub mod ring;
