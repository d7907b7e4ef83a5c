// One value as one word, and back.
// Each has a contract, by which the laws of a packed head read it: a cast in its place would leave them none.
ghost use Rattle.std.specs.Prelude.{◌≡◌};
ghost use Rattle.packing.specs.Holds.{Time};
ghost use Rattle.packing.specs.Words.{word_of, whole_of, bits_of, float_of, flag_word, flag_of, number_of, set_word, time_word, moment_of, float_formed, moment_formed};

// An i64 is its two's complement.
pub fn of_whole(z: i64) -> u64
    ensures { result ≡ word_of z }
{
    z.cast_unsigned()
}

pub fn whole(w: u64) -> i64
    ensures { result ≡ whole_of w }
{
    w.cast_signed()
}

// An f64 is its bits, which a NaN has none of: every NaN is one pattern.
pub fn of_float(x: f64) -> u64
    ensures { result ≡ bits_of x }
{
    if x == x {
        return f64::to_bits(x);
    }
    0x7ff8_0000_0000_0000
}

pub fn float(w: u64) -> f64
    ensures { result ≡ float_of w }
{
    if w % 0x8000_0000_0000_0000 <= 0x7ff0_0000_0000_0000 {
        return f64::from_bits(w);
    }
    0.0 / 0.0
}

// No pattern of a NaN but the one.
pub fn is_float(w: u64) -> bool
    ensures { result ≡ float_formed w }
{
    (w % 0x8000_0000_0000_0000 <= 0x7ff0_0000_0000_0000) | (w == 0x7ff8_0000_0000_0000)
}

pub fn of_flag(b: bool) -> u64
    ensures { result ≡ flag_word b }
{
    b as u64
}

pub fn flag(w: u64) -> bool
    ensures { result ≡ flag_of w }
{
    w == 1
}

pub fn of_size(n: usize) -> u64
    ensures { result ≡ n }
{
    n as u64
}

pub fn size(w: u64) -> usize
    ensures { result ≡ w }
{
    w as usize
}

pub fn of_number(n: u32) -> u64
    ensures { result ≡ n }
{
    n as u64
}

pub fn number(w: u64) -> u32
    ensures { result ≡ number_of w }
{
    (w % 0x1_0000_0000) as u32
}

// A moment is two words: whether it is set, and its time.
pub fn of_set(m: Option<i64>) -> u64
    ensures { result ≡ set_word m }
{
    m.is_some() as u64
}

pub fn of_time(m: Option<i64>) -> u64
    ensures { (result ≡ time_word m) × Time m }
{
    match m {
        Some(t) => of_whole(t),
        None => 0,
    }
}

pub fn moment(set: u64, time: u64) -> Option<i64>
    ensures { result ≡ moment_of set time }
{
    if set == 1 {
        return Some(whole(time));
    }
    None
}

// A time that is unset has none beside it.
pub fn is_moment(set: u64, time: u64) -> bool
    ensures { result ≡ moment_formed set time }
{
    (set == 1) | ((set == 0) & (time == 0))
}
