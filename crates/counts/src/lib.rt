// The ten counters of receiver/mod.rs and what each answer raises: 01, "Counters follow 003, mod 2^64".
#![tactic(auto, using(crate::proofs::Rises::rises))]

ghost use Rattle.std.specs.Prelude.{◌≡◌};
ghost use Rattle.numbers.specs.Circular.{sum};
ghost use Rattle.counts.specs.Counts.{fresh, raised};

pub mod after;

// By 003's names; decryption is left out. Any values are taken.
#[derive(Clone, Copy, PartialEq, Eq, Debug, Default)]
pub struct Counters {
    pub rx_data: u64,
    pub rx_bytes: u64,
    pub rx_unique_data: u64,
    pub rx_unique_bytes: u64,
    pub rx_retransmit_data: u64,
    pub rx_dropped_data: u64,
    pub rx_dropped_bytes: u64,
    pub rx_ack2: u64,
    pub rx_ack2_errors: u64,
    pub rx_clock_adjustments: u64,
}

// Counters go on mod 2^64.
fn sum(a: u64, b: u64) -> u64
    ensures { result ≡ sum 64 a b }
{
    a.wrapping_add(b)
}

impl Counters {
    pub fn new() -> Self
        ensures { result ≡ fresh }
    {
        Counters::default()
    }

    // Each counter rises by its own. Field by field: no derive adds, and a macro for ten sums is no plainer.
    pub fn raised(self, by: Counters) -> Self
        ensures { result ≡ raised self by }
    {
        Counters {
            rx_data: sum(self.rx_data, by.rx_data),
            rx_bytes: sum(self.rx_bytes, by.rx_bytes),
            rx_unique_data: sum(self.rx_unique_data, by.rx_unique_data),
            rx_unique_bytes: sum(self.rx_unique_bytes, by.rx_unique_bytes),
            rx_retransmit_data: sum(self.rx_retransmit_data, by.rx_retransmit_data),
            rx_dropped_data: sum(self.rx_dropped_data, by.rx_dropped_data),
            rx_dropped_bytes: sum(self.rx_dropped_bytes, by.rx_dropped_bytes),
            rx_ack2: sum(self.rx_ack2, by.rx_ack2),
            rx_ack2_errors: sum(self.rx_ack2_errors, by.rx_ack2_errors),
            rx_clock_adjustments: sum(self.rx_clock_adjustments, by.rx_clock_adjustments),
        }
    }
}
