// The median of a window of 16 intervals: 01, "ACKs, RTT, rates". By counting, so that nothing is moved.
ghost use Rattle.std.specs.Prelude.{◌≡◌, cond, ◌<◌};
ghost use Rattle.intervals.specs.Median.{median_of};
ghost use Rattle.intervals.specs.Inner.{below, has_index};

fn one_if(b: bool) -> usize
    ensures { result ≡ cond b 1 0 }
{
    if b { 1 } else { 0 }
}

// How many values are below b. A chain of `filter` and `count` branches at each value, and takes several times as long.
fn below(values: [u32; 16], b: u64) -> usize
    ensures { result ≡ below values b }
{
    let mut n = 0;
    for i in 0..16 {
        n += one_if((values[i] as u64) < b);
    }
    n
}

// Whether v stands at index k of the sorted values.
fn has_index(values: [u32; 16], k: usize, v: u32) -> bool
    ensures { result ≡ has_index values k v }
{
    let less = below(values, v as u64);
    let most = below(values, (v as u64) + 1);
    (less <= k) & (k < most)
}

// The value at index k of the sorted values. One of them has it, so the last needs no test.
pub fn median(values: [u32; 16], k: usize) -> u32
    requires { k < 16 }
    ensures { result ≡ median_of values k }
{
    for i in 0..15 {
        let v = values[i];
        if has_index(values, k, v) {
            return v;
        }
    }
    values[15]
}
