// Timestamps, circular at 32 bits: 01, "Numbers".
ghost use Rattle.std.specs.Prelude.{◌≡◌};
ghost use Rattle.numbers.specs.Circular.{distance, difference, wrap};

// D = (a - b) mod 2^32.
pub fn distance(a: u32, b: u32) -> u32
    ensures { result ≡ distance 32 a b }
{
    a.wrapping_sub(b)
}

// a - b as a signed number.
pub fn difference(a: u32, b: u32) -> i32
    ensures { result ≡ difference 32 a b }
{
    distance(a, b).cast_signed()
}

// z mod 2^32.
pub fn wrap(z: i64) -> u32
    ensures { result ≡ wrap 32 z }
{
    z.rem_euclid(0x1_0000_0000) as u32
}
