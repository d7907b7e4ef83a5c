// Instants and intervals, signed µs: 01, "Numbers". A time that may be unset is an Option.
ghost use Rattle.std.specs.Prelude.{◌≡◌};
ghost use Rattle.numbers.specs.Instants.{clamp, interval_of, is_reading, since_time};

// A reading lies in 0..2^60-1.
pub fn is_reading(z: i64) -> bool
    ensures { result ≡ is_reading z }
{
    (0 <= z) & (z < 0x1000_0000_0000_0000)
}

// z cut to the signed 32-bit range.
pub fn clamp(z: i64) -> i32
    ensures { result ≡ clamp z }
{
    z.clamp(-0x8000_0000, 0x7fff_ffff) as i32
}

// The difference of two instants, clamped. One that does not fit 64 bits is clamped already.
pub fn interval(begin: i64, end: i64) -> i32
    ensures { result ≡ interval_of begin end }
{
    clamp(end.saturating_sub(begin))
}

// The interval since a time; a time after `now` is read as `now`.
pub fn since(now: i64, time: i64) -> u32
    ensures { result ≡ since_time now time }
{
    if now < time {
        return 0;
    }
    interval(time, now) as u32
}
