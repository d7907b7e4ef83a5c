// Sequence numbers, circular at 31 bits: 01, "Numbers". A number of 2^31 or more is read mod 2^31.
ghost use Rattle.std.specs.Prelude.{◌≡◌};
ghost use Rattle.numbers.specs.Circular.{distance, after, before, saturating, sum, successor};
ghost use Rattle.numbers.specs.Order.{order};

use std::cmp::Ordering;

// D = (a - b) mod 2^31: the remainder mod 2^32 has it in its low 31 bits.
pub fn distance(a: u32, b: u32) -> u32
    ensures { result ≡ distance 31 a b }
{
    crate::stamp::distance(a, b) % 0x8000_0000
}

// How a stands to b: before it, equal or after it. Never by comparing a with b: that fails after the wrap.
pub fn compare(a: u32, b: u32) -> Ordering
    ensures { result ≡ order 31 a b }
{
    let ahead = distance(a, b);
    if ahead == 0 {
        return Ordering::Equal;
    }
    if ahead < 0x4000_0000 {
        return Ordering::Greater;
    }
    Ordering::Less
}

pub fn is_after(a: u32, b: u32) -> bool
    ensures { result ≡ after 31 a b }
{
    let d = distance(a, b);
    (0 < d) & (d < 0x4000_0000)
}

pub fn is_before(a: u32, b: u32) -> bool
    ensures { result ≡ before 31 a b }
{
    let d = distance(a, b);
    0x4000_0000 <= d
}

// How far a lies past b, and 0 if it is before.
pub fn saturating(a: u32, b: u32) -> u32
    ensures { result ≡ saturating 31 a b }
{
    let d = distance(a, b);
    if d < 0x4000_0000 { d } else { 0 }
}

// (a + n) mod 2^31.
pub fn sum(a: u32, n: u32) -> u32
    ensures { result ≡ sum 31 a n }
{
    a.wrapping_add(n) % 0x8000_0000
}

pub fn successor(a: u32) -> u32
    ensures { result ≡ successor 31 a }
{
    sum(a, 1)
}
