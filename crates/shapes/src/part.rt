// Parts of a line: the record's number and the word, values after spaces, the line's end. 01, "Trace, mark DLT".
ghost use Rattle.std.specs.Prelude.{◌≡◌, [], ◌∷◌, ◌++◌, ◌+◌, ◌≤◌, length};
ghost use Rattle.text.specs.Decimal.{decimal};
ghost use Rattle.text.specs.Put.{put_ended, put_of};
ghost use Rattle.head.specs.Paper.{whole as Paper·whole, plain};
ghost use Rattle.shapes.specs.Shapes.{spaced, closed};
ghost use Rattle.shapes.specs.Inner.{one_if, rate_in};
ghost use Rattle.shapes.specs.declared.part.Value.TheVariants.{Plain, Whole};
ghost use Rattle.shapes.specs.Ready.{Wrote};

// A value of a line: a number, one that may be below zero, or `-`.
#[derive(Clone, Copy, PartialEq, Eq, Debug)]
pub enum Value {
    Plain(u64),
    Whole(i64),
    Dash,
}

// `-` for no rate.
impl From<Option<u32>> for Value {
    ghost from_gives = { λ rate v. v ≡ rate_in rate };

    fn from(rate: Option<u32>) -> Value {
        match rate {
            Some(n) => Value::Plain(n as u64),
            None => Value::Dash,
        }
    }
}

// 1 if it holds, else 0.
impl From<bool> for Value {
    ghost from_gives = { λ b v. v ≡ Plain (one_if b) };

    fn from(b: bool) -> Value {
        Value::Plain(u64::from(b))
    }
}

// A number stands as it is, and one of a signed type as one that may be below zero.
impl From<u32> for Value {
    ghost from_gives = { λ n v. v ≡ Plain n };

    fn from(n: u32) -> Value {
        Value::Plain(n as u64)
    }
}

impl From<u64> for Value {
    ghost from_gives = { λ n v. v ≡ Plain n };

    fn from(n: u64) -> Value {
        Value::Plain(n)
    }
}

impl From<usize> for Value {
    ghost from_gives = { λ n v. v ≡ Plain n };

    fn from(n: usize) -> Value {
        Value::Plain(n as u64)
    }
}

impl From<i32> for Value {
    ghost from_gives = { λ z v. v ≡ Whole z };

    fn from(z: i32) -> Value {
        Value::Whole(i64::from(z))
    }
}

impl From<i64> for Value {
    ghost from_gives = { λ z v. v ≡ Whole z };

    fn from(z: i64) -> Value {
        Value::Whole(z)
    }
}

// A number after a space.
pub fn number(out: &mut [u8], at: usize, n: u64) -> usize
    requires { at + 21 ≤ length out.old }
    ensures { Wrote out.old at (spaced (plain n ∷ [])) 21 result out.new }
{
    let p = text::put_byte(out, at, b' ');
    text::put_decimal(out, p, n)
}

pub fn whole(out: &mut [u8], at: usize, z: i64) -> usize
    requires { at + 22 ≤ length out.old }
    ensures { Wrote out.old at (spaced (Paper·whole z ∷ [])) 22 result out.new }
{
    let p = text::put_byte(out, at, b' ');
    text::put_signed(out, p, z)
}

// A word after a space.
fn word(out: &mut [u8], at: usize, letters: &[u8]) -> usize
    requires { at + (1 + length letters.now) ≤ length out.old }
    ensures { put_ended result out.new ≡ put_of out.old at (32 ∷ letters.now) }
{
    let p = text::put_byte(out, at, b' ');
    text::put_bytes(out, p, letters)
}

// What a line starts with.
pub fn open(out: &mut [u8], at: usize, nth: u64, letters: &[u8]) -> usize
    requires at_in_bounds { at + 32 ≤ length out.old }
    requires letters_len_bound { length letters.now ≤ 8 }
    ensures { Wrote out.old at (decimal nth ++ (32 ∷ letters.now)) 32 result out.new }
{
    let p = text::put_decimal(out, at, nth);
    word(out, p, letters)
}

// A word by itself.
pub fn start(out: &mut [u8], at: usize, letters: &[u8]) -> usize
    requires at_in_bounds { at + 8 ≤ length out.old }
    requires letters_len_bound { length letters.now ≤ 8 }
    ensures { Wrote out.old at letters.now 8 result out.new }
{
    text::put_bytes(out, at, letters)
}

pub fn newline(out: &mut [u8], at: usize) -> usize
    requires { at + 1 ≤ length out.old }
    ensures { Wrote out.old at (closed []) 1 result out.new }
{
    text::put_byte(out, at, 10)
}
