// The counters of a replay: what the answer of a step raises, and the line that `--counters` adds behind the end line.
// 01, "Counters follow 003".
#![tactic(auto)]

ghost use Rattle.std.specs.Prelude.{◌≡◌, ◌+◌, ◌≤◌, length};
ghost use Rattle.shapes.specs.Ready.{Wrote};
ghost use Rattle.tally.specs.Tally.{fresh_tally, counted_of, tallied, named, packet_bytes, loss_bytes, other_bytes, all_bytes, counters_bytes, tally_bytes};

use counts::Counters;
use counts::after::{after_ack2, after_clock, after_data, after_drop};
use step::Answer;

// The counters, if they are asked for: without them nothing is counted and no line written.
pub fn fresh(asked: bool) -> Option<Counters>
    ensures { result ≡ fresh_tally asked }
{
    asked.then(Counters::new)
}

// By the answer; `size` is the length of a data packet's payload.
fn counted(c: Counters, size: usize, answer: Answer) -> Counters
    ensures { result ≡ counted_of c size answer }
{
    match answer {
        Answer::Data(a) => after_data(c, size, a),
        Answer::Ack2(a) => after_ack2(c, a),
        Answer::Drop(a) => after_drop(c, a),
        Answer::Clock(a) => after_clock(c, a),
        Answer::Pop(_) | Answer::Report(_) | Answer::FullAck(_) | Answer::Clear(_) => c,
    }
}

#[tactic(auto, unfolding(crate::specs::Tally::tallied))]
pub fn after(t: Option<Counters>, size: usize, answer: Answer) -> Option<Counters>
    ensures { result ≡ tallied t size answer }
{
    Some(counted(t?, size, answer))
}

// A name and its count, after a space. Rows are chains of these: a loop over a table of names would have to require how
// long each name is, which is no plainer.
fn put_named(out: &mut [u8], at: usize, name: &[u8], n: u64) -> usize
    requires at_in_bounds { at + 42 ≤ length out.old }
    requires name_len_bound { length name.now ≤ 20 }
    ensures { Wrote out.old at (named name.now n) 42 result out.new }
{
    let p = text::put_byte(out, at, b' ');
    let q = text::put_bytes(out, p, name);
    let s = text::put_byte(out, q, b'=');
    text::put_decimal(out, s, n)
}

fn put_packets(out: &mut [u8], at: usize, c: Counters) -> usize
    requires { at + 168 ≤ length out.old }
    ensures { Wrote out.old at (packet_bytes c) 168 result out.new }
{
    let p = put_named(out, at, b"rx_data", c.rx_data);
    let q = put_named(out, p, b"rx_bytes", c.rx_bytes);
    let s = put_named(out, q, b"rx_unique_data", c.rx_unique_data);
    put_named(out, s, b"rx_unique_bytes", c.rx_unique_bytes)
}

fn put_losses(out: &mut [u8], at: usize, c: Counters) -> usize
    requires { at + 126 ≤ length out.old }
    ensures { Wrote out.old at (loss_bytes c) 126 result out.new }
{
    let p = put_named(out, at, b"rx_retransmit_data", c.rx_retransmit_data);
    let q = put_named(out, p, b"rx_dropped_data", c.rx_dropped_data);
    put_named(out, q, b"rx_dropped_bytes", c.rx_dropped_bytes)
}

fn put_others(out: &mut [u8], at: usize, c: Counters) -> usize
    requires { at + 126 ≤ length out.old }
    ensures { Wrote out.old at (other_bytes c) 126 result out.new }
{
    let p = put_named(out, at, b"rx_ack2", c.rx_ack2);
    let q = put_named(out, p, b"rx_ack2_errors", c.rx_ack2_errors);
    put_named(out, q, b"rx_clock_adjustments", c.rx_clock_adjustments)
}

fn put_all(out: &mut [u8], at: usize, c: Counters) -> usize
    requires { at + 420 ≤ length out.old }
    ensures { Wrote out.old at (all_bytes c) 420 result out.new }
{
    let p = put_packets(out, at, c);
    let q = put_losses(out, p, c);
    put_others(out, q, c)
}

fn put_counters(out: &mut [u8], at: usize, c: Counters) -> usize
    requires { at + 429 ≤ length out.old }
    ensures { Wrote out.old at (counters_bytes c) 429 result out.new }
{
    let p = shapes::part::start(out, at, b"counters");
    let q = put_all(out, p, c);
    text::put_byte(out, q, 10)
}

// The line, if the counters are asked for.
#[tactic(auto, using(crate::proofs::Laws::tallies), unfolding(crate::specs::Tally::tally_bytes))]
pub fn line(out: &mut [u8], at: usize, t: Option<Counters>) -> usize
    requires { at + 429 ≤ length out.old }
    ensures { Wrote out.old at (tally_bytes t) 429 result out.new }
{
    match t {
        Some(c) => put_counters(out, at, c),
        None => at,
    }
}
