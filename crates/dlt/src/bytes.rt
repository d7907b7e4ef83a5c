// Big-endian numbers at a place of a piece of the file: 01, "Trace, mark DLT".
ghost use Rattle.std.specs.Prelude.{◌≡◌, ◌+◌, ◌≤◌, length};
ghost use Rattle.dlt.specs.Bytes.{field, time_at};

// The 2 bytes from `at` on.
pub fn half(piece: &[u8], at: usize) -> u16
    requires { at + 2 ≤ length piece.now }
    ensures { result ≡ field piece.now at 2 }
{
    u16::from_be_bytes([piece[at], piece[at + 1]])
}

// The 4 bytes from `at` on.
pub fn word(piece: &[u8], at: usize) -> u32
    requires { at + 4 ≤ length piece.now }
    ensures { result ≡ field piece.now at 4 }
{
    u32::from_be_bytes([piece[at], piece[at + 1], piece[at + 2], piece[at + 3]])
}

// The reading in the 8 bytes from `at` on.
pub fn time(piece: &[u8], at: usize) -> i64
    requires { at + 8 ≤ length piece.now }
    ensures { result ≡ time_at piece.now at }
{
    i64::from_be_bytes([
        piece[at],
        piece[at + 1],
        piece[at + 2],
        piece[at + 3],
        piece[at + 4],
        piece[at + 5],
        piece[at + 6],
        piece[at + 7],
    ])
}
