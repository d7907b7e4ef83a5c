// Writing the lines of a trace as bytes, piece by piece, into a lent output at a cursor: 01, "Trace, mark DLT". Each
// function needs room for what it writes, writes nothing else, and answers the cursor behind it. Output and cursor come
// apart: in a contract a struct of a lent slice and its cursor is read as nested pairs, which is no plainer.
#![tactic(auto)]

ghost use Rattle.std.specs.Prelude.{◌≡◌, [], ◌∷◌, ◌+◌, ◌<◌, ◌≤◌, length, drop};
ghost use Rattle.text.specs.Decimal.{decimal, signed_decimal};
ghost use Rattle.text.specs.Put.{put_ended, put_of};

pub fn put_byte(out: &mut [u8], at: usize, b: u8) -> usize
    requires { at < length out.old }
    ensures { put_ended result out.new ≡ put_of out.old at (b ∷ []) }
{
    out[at] = b;
    at + 1
}

pub fn put_bytes(out: &mut [u8], at: usize, text: &[u8]) -> usize
    requires { at + length text.now ≤ length out.old }
    ensures { put_ended result out.new ≡ put_of out.old at text.now }
{
    copy::put(out, at, text);
    at + text.len()
}

// The digits of n at the end of an area that holds any u64; answers where they start. Its index counts digits from the
// end and goes over no data, and a `for` over the area from behind would count it as well, so a `while` is the plainer.
fn spell(area: &mut [u8], n: u64) -> usize
    requires { length area.old ≡ 20 }
    ensures { (result ≤ 20) × (length area.new ≡ 20) × (drop result area.new ≡ decimal n) }
{
    let mut rest = n;
    let mut i = 20;
    while 9 < rest {
        i -= 1;
        area[i] = (48 + rest % 10) as u8;
        rest /= 10;
    }
    i -= 1;
    area[i] = (48 + rest) as u8;
    i
}

pub fn put_decimal(out: &mut [u8], at: usize, n: u64) -> usize
    requires { at + 20 ≤ length out.old }
    ensures { put_ended result out.new ≡ put_of out.old at (decimal n) }
{
    let mut area = [0u8; 20];
    let i = spell(&mut area, n);
    put_bytes(out, at, &area[i..])
}

pub fn put_signed(out: &mut [u8], at: usize, z: i64) -> usize
    requires { at + 21 ≤ length out.old }
    ensures { put_ended result out.new ≡ put_of out.old at (signed_decimal z) }
{
    let n = z.unsigned_abs();
    if 0 <= z {
        return put_decimal(out, at, n);
    }
    let next = put_byte(out, at, b'-');
    put_decimal(out, next, n)
}
