// The two windows of intervals and their rates, arq.rs: 01, "ACKs, RTT, rates". The caller records appends without gap.
ghost use Rattle.std.specs.Prelude.{◌≡◌, true, ◌*◌, ◌<◌, ◌≤◌, ◌^◌};
ghost use Rattle.intervals.specs.Rates.{count_after, window_of, fresh_arrivals, fresh_links, arrival_of, keeps, take_in, kept_of, rate_of, speed_of, pair_of, link_of, link_rate, capacity_of, all_under, time_ok, intervals_ok, arrivals_ok, links_ok};

use numbers::instant::since;

// Intervals between arrivals, with the sizes of what came; `at` is the next place to be written, `last` the last
// arrival. Gaps and sizes lie in two arrays: the packed head has them apart for C, and a few vector instructions test
// each.
#[derive(Clone, Copy, PartialEq, Eq, Debug)]
pub struct Arrivals {
    pub gaps: [u32; 16],
    pub sizes: [u32; 16],
    pub at: usize,
    pub count: usize,
    pub last: Option<i64>,
}

// Intervals between the packets of a pair.
#[derive(Clone, Copy, PartialEq, Eq, Debug)]
pub struct Links {
    pub gaps: [u32; 16],
    pub at: usize,
    pub count: usize,
    pub probe: Option<i64>,
}

// What is left of a window: how many intervals, their sum, and that of their sizes.
#[derive(Clone, Copy)]
struct Kept {
    count: u64,
    sum: u64,
    bytes: u64,
}

// What arrives: packets and bytes a second, known together.
#[derive(Clone, Copy, PartialEq, Eq, Debug)]
pub struct Speed {
    pub packets: u32,
    pub bytes: u32,
}

pub fn one_more(count: usize) -> usize
    requires { count ≤ 16 }
    ensures { result ≡ count_after count }
{
    (count + 1).min(16)
}

fn keeps(ai: u32, i: u32) -> bool
    ensures { result ≡ keeps ai i }
{
    (i / 8 < ai) & (ai / 8 < i)
}

// One interval more of a window, with its size.
fn take_in(k: Kept, ai: u32, i: u32, size: u32) -> Kept
    requires { (k.count < 2 ^ 40) × (k.sum < 2 ^ 40) × (k.bytes < 2 ^ 40) }
    ensures { result ≡ take_in ai i size k }
{
    if keeps(ai, i) {
        return Kept {
            count: k.count + 1,
            sum: k.sum + (i as u64),
            bytes: k.bytes + (size as u64),
        };
    }
    k
}

// What a whole window keeps.
fn keep(gaps: [u32; 16], sizes: [u32; 16], ai: u32) -> Kept
    ensures { result ≡ kept_of gaps sizes ai 16 }
{
    let mut k = Kept {
        count: 0,
        sum: 0,
        bytes: 0,
    };
    // By place: a fold's closure does not know how large the sums are by then, and take_in has to.
    for i in 0..16 {
        k = take_in(k, ai, gaps[i], sizes[i]);
    }
    k
}

// n in `sum` µs, as so many a second. No packet is larger than 1,456 bytes, and none comes in less than 1 µs.
fn rate_of(n: u64, sum: u64) -> u32
    requires { (0 < sum) × (n ≤ 1456 * sum) × (n < 2 ^ 40) }
    ensures { result ≡ rate_of n sum }
{
    (n * 1_000_000 / sum) as u32
}

fn link_rate(median: u32) -> u32
    ensures { result ≡ link_rate median }
{
    if median == 0 {
        return 0xffff_ffff;
    }
    1_000_000 / median
}

// Whether all sixteen values are under a bound. None ends it early, so that a few vector instructions do it.
fn every(values: &[u32; 16], bound: u32) -> bool
    ensures { result ≡ all_under bound values.now }
{
    values.iter().fold(true, |ok, v| ok & (*v < bound))
}

// Whether every value of a window is under a bound, place by place. The place is reckoned from the turn, so that no
// iterator walks a window.
fn window_under(values: &[u32; 16], at: usize, count: usize, bound: u32) -> bool
    requires { (at < 16) × (count ≤ 16) }
    ensures { result ≡ all_under bound (window_of values.now at count) }
{
    let mut ok = true;
    for n in 0..count {
        ok = (values[(at + (16 - (n + 1))) % 16] < bound) & ok;
    }
    ok
}

// Whether every interval, or size, of a window is under a bound. Most often all sixteen are; if not, the window is
// asked alone.
fn all_under(values: [u32; 16], at: usize, count: usize, bound: u32) -> bool
    requires { (at < 16) × (count ≤ 16) }
    ensures { result ≡ all_under bound (window_of values at count) }
{
    if every(&values, bound) {
        return true;
    }
    window_under(&values, at, count, bound)
}

// Whether the intervals of a window are in range: at most 16, and their place one of the sixteen.
fn intervals_ok(gaps: [u32; 16], at: usize, count: usize) -> bool
    ensures { result ≡ intervals_ok gaps at count }
{
    if 16 < count {
        return false;
    }
    if 16 <= at {
        return false;
    }
    all_under(gaps, at, count, 0x8000_0000)
}

pub fn time_ok(time: Option<i64>) -> bool
    ensures { result ≡ time_ok time }
{
    match time {
        Some(t) => numbers::instant::is_reading(t),
        None => true,
    }
}

impl Arrivals {
    pub fn new() -> Self
        ensures { result ≡ fresh_arrivals }
    {
        Arrivals {
            gaps: [0; 16],
            sizes: [0; 16],
            at: 0,
            count: 0,
            last: None,
        }
    }

    // An arrival: the interval since the last one enters, if there was one.
    pub fn record(self, now: i64, size: u32) -> Self
        requires { (self.at < 16) × (self.count ≤ 16) }
        ensures { result ≡ arrival_of self now size }
    {
        let Some(t) = self.last else {
            return Arrivals {
                last: Some(now),
                ..self
            };
        };
        let mut gaps = self.gaps;
        let mut sizes = self.sizes;
        let at = self.at;
        gaps[at] = since(now, t);
        sizes[at] = size;
        Arrivals {
            gaps,
            sizes,
            at: (at + 1) % 16,
            count: one_more(self.count),
            last: Some(now),
        }
    }

    // Packets and bytes a second, by the intervals that are near the median.
    pub fn speed(self) -> Option<Speed>
        requires { arrivals_ok self ≡ true }
        ensures { result ≡ speed_of self }
    {
        if self.count < 16 {
            return None;
        }
        let ai = crate::median::median(self.gaps, 8);
        let k = keep(self.gaps, self.sizes, ai);
        if k.count <= 8 {
            return None;
        }
        let packets = rate_of(k.count, k.sum);
        let bytes = rate_of(k.bytes, k.sum);
        Some(Speed { packets, bytes })
    }

    pub fn in_range(self) -> bool
        ensures { result ≡ arrivals_ok self }
    {
        if !intervals_ok(self.gaps, self.at, self.count) {
            return false;
        }
        let lengths = all_under(self.sizes, self.at, self.count, 1457);
        lengths & time_ok(self.last)
    }
}

impl Links {
    pub fn new() -> Self
        ensures { result ≡ fresh_links }
    {
        Links {
            gaps: [0; 16],
            at: 0,
            count: 0,
            probe: None,
        }
    }

    // The second packet of a pair: the interval since the first enters, if there was one.
    fn pair(self, now: i64) -> Self
        requires { (self.at < 16) × (self.count ≤ 16) }
        ensures { result ≡ pair_of self now }
    {
        let Some(t) = self.probe else {
            return self;
        };
        let mut gaps = self.gaps;
        let at = self.at;
        gaps[at] = since(now, t);
        Links {
            gaps,
            at: (at + 1) % 16,
            count: one_more(self.count),
            probe: None,
        }
    }

    // An append of this number: the first of a pair, the second, or neither.
    pub fn record(self, now: i64, number: u32) -> Self
        requires { (self.at < 16) × (self.count ≤ 16) }
        ensures { result ≡ link_of self now number }
    {
        let place = number % 16;
        if place == 0 {
            return Links {
                probe: Some(now),
                ..self
            };
        }
        if place == 1 {
            return self.pair(now);
        }
        self
    }

    // Packets a second, by the median interval of the pairs.
    pub fn capacity(self) -> Option<u32>
        ensures { result ≡ capacity_of self }
    {
        if self.count < 16 {
            return None;
        }
        let median = crate::median::median(self.gaps, 7);
        Some(link_rate(median))
    }

    pub fn in_range(self) -> bool
        ensures { result ≡ links_ok self }
    {
        intervals_ok(self.gaps, self.at, self.count) & time_ok(self.probe)
    }
}
