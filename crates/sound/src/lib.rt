// Refusal 1, from the words themselves: 01, "Head and lent areas".
#![tactic(auto)]

ghost use Rattle.std.specs.Prelude.{◌≡◌, ◌≤◌};
ghost use Rattle.head.specs.Head.{head_ok};
ghost use Rattle.packing.specs.Packed.{unpack_of};
ghost use Rattle.sound.specs.Sound.{Typed, bits_to, raised_to, sizes_small, intervals_small, few_bits, beside, beside_all, finite, window_small, counts_small, quickly};

use packing::unpack;

// What the type says of the words: 79 of 64 bits. A copy tells the proof so, and the compiler drops it.
fn told(ws: [u64; 79])
    ensures { Typed ws }
{}

pub fn typed(ws: &[u64; 79])
    ensures { Typed ws.now }
{
    let copy = *ws;
    told(copy);
}

// The bits of sixteen words, from word `at` on, all together.
fn bits(ws: &[u64; 79], at: usize) -> u64
    requires { at ≤ 63 }
    ensures { result ≡ bits_to ws.now at 16 }
{
    let mut all = 0;
    for i in 0..16 {
        all |= ws[at + i];
    }
    all
}

// The same of the sizes, each raised so that one over 1,456 comes to 2,048.
fn raised_bits(ws: &[u64; 79]) -> u64
    ensures { result ≡ raised_to ws.now 16 }
{
    let mut all = 0;
    for i in 0..16 {
        all |= ws[34 + i] % 2048 + 591;
    }
    all
}

// Packets of one size, or of sizes with few bits, are found small by the bits that they have together.
fn sizes_small(ws: &[u64; 79]) -> bool
    ensures { result ≡ sizes_small ws.now }
{
    let together = bits(ws, 34);
    if together <= 1456 {
        return true;
    }
    (together < 2048) & (raised_bits(ws) < 2048)
}

// Whether every interval is in its range, in a window or not: so it is of every head that calls have left, and so are
// the sizes.
fn intervals_small(ws: &[u64; 79]) -> bool
    ensures { result ≡ intervals_small ws.now }
{
    (bits(ws, 18) | bits(ws, 54)) < 0x8000_0000
}

// Values with one bound, by the bits that they have together.
fn few_bits(ws: &[u64; 79]) -> bool
    ensures { result ≡ few_bits ws.now }
{
    ((ws[4] | ws[5] | ws[16] | ws[17] | ws[77] | ws[78]) < 0x8000_0000)
        & ((ws[7] | ws[10] | ws[12] | ws[52] | ws[72]) < 2)
        & ((ws[9] | ws[76]) < 0x1_0000_0000)
        & ((ws[50] | ws[70]) < 16)
        & ((ws[0] | ws[8]) < 0x1000_0000_0000_0000)
}

// A time beside its flag: 0 where that is 0, else a reading.
fn beside(set: u64, time: u64) -> bool
    ensures { result ≡ beside set time }
{
    time <= set % 2 * 0xfff_ffff_ffff_ffff
}

fn beside_all(ws: &[u64; 79]) -> bool
    ensures { result ≡ beside_all ws.now }
{
    beside(ws[10], ws[11]) & beside(ws[52], ws[53]) & beside(ws[72], ws[73])
}

// Neither infinite nor a NaN.
fn finite(ws: &[u64; 79]) -> bool
    ensures { result ≡ finite ws.now }
{
    let mean = ws[13] % 0x8000_0000_0000_0000 + 0x10_0000_0000_0000;
    let squares = ws[14] % 0x8000_0000_0000_0000 + 0x10_0000_0000_0000;
    (mean | squares) < 0x8000_0000_0000_0000
}

fn window_small(ws: &[u64; 79]) -> bool
    ensures { result ≡ window_small ws.now }
{
    (1 <= ws[1]) & (ws[1] <= 8192) & (ws[2] < ws[1]) & (ws[3] <= ws[1]) & (ws[6] <= 65535000)
}

fn counts_small(ws: &[u64; 79]) -> bool
    ensures { result ≡ counts_small ws.now }
{
    (ws[15] <= 999)
        & (ws[51] <= 16)
        & (ws[71] <= 16)
        & (ws[74] < 1024)
        & (ws[75] <= 1024)
        & (1 <= ws[76])
        & (ws[76] % 0x1_0000_0000 + ws[75] % 2048 <= 0x1_0000_0000)
}

// What every head but a rare one meets: no time before 0, no infinite sum.
fn quickly(ws: &[u64; 79]) -> bool
    ensures { result ≡ quickly ws.now }
{
    few_bits(ws) & beside_all(ws) & finite(ws) & window_small(ws) & counts_small(ws)
}

// Only the intervals in a window have to be in range, and a time may lie before 0: a head that is not found in range
// quickly is unpacked and asked. The sizes come last, since their second pass would keep the registers of all that is
// read before it.
pub fn sound(ws: &[u64; 79]) -> bool
    ensures { result ≡ head_ok (unpack_of ws.now) }
{
    if intervals_small(ws) && quickly(ws) && sizes_small(ws) {
        return true;
    }
    unpack::unpack(ws).in_range()
}
