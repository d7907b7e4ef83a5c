// The ten counters as ten words, in their order: 01, "Counters follow 003".
ghost use Rattle.std.specs.Prelude.{◌≡◌};
ghost use Rattle.packing.specs.Tally.{counters_words, counters_of};

use counts::Counters;

pub fn of_counters(c: Counters) -> [u64; 10]
    ensures { result ≡ counters_words c }
{
    [
        c.rx_data,
        c.rx_bytes,
        c.rx_unique_data,
        c.rx_unique_bytes,
        c.rx_retransmit_data,
        c.rx_dropped_data,
        c.rx_dropped_bytes,
        c.rx_ack2,
        c.rx_ack2_errors,
        c.rx_clock_adjustments,
    ]
}

pub fn counters(words: &[u64; 10]) -> Counters
    ensures { result ≡ counters_of words.now }
{
    Counters {
        rx_data: words[0],
        rx_bytes: words[1],
        rx_unique_data: words[2],
        rx_unique_bytes: words[3],
        rx_retransmit_data: words[4],
        rx_dropped_data: words[5],
        rx_dropped_bytes: words[6],
        rx_ack2: words[7],
        rx_ack2_errors: words[8],
        rx_clock_adjustments: words[9],
    }
}
