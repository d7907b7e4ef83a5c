// The header of a trace: 01, "Trace, mark DLT". Whether its settings can be taken is the receiver's to say.
ghost use Rattle.std.specs.Prelude.{◌≡◌, ◌≤◌, length};
ghost use Rattle.dlt.specs.Header.{is_header, settings_in, header_of};

use crate::Unread;
use crate::bytes::{half, time, word};

#[derive(Clone, Copy, PartialEq, Eq, Debug)]
pub struct Header {
    pub start: i64,
    pub latency: u32,
    pub dropping: bool,
    pub first: u32,
    pub capacity: usize,
}

#[tactic(auto, unfolding(crate::specs::Header::is_header))]
fn marked(piece: &[u8]) -> bool
    requires { 24 ≤ length piece.now }
    ensures { result ≡ is_header piece.now }
{
    let version = half(piece, 3);
    piece.starts_with(b"DLT") & (version == 1) & (piece[17] <= 1)
}

fn settings(piece: &[u8]) -> Header
    requires { 24 ≤ length piece.now }
    ensures { result ≡ settings_in piece.now }
{
    Header {
        start: time(piece, 5),
        latency: word(piece, 13),
        dropping: piece[17] == 1,
        first: word(piece, 18),
        capacity: usize::from(half(piece, 22)),
    }
}

// The header that a file starts with.
pub fn read(piece: &[u8]) -> Result<Header, Unread>
    ensures { result ≡ header_of piece.now }
{
    if piece.len() < 24 {
        return Err(Unread::Short);
    }
    if !marked(piece) {
        return Err(Unread::Bad);
    }
    Ok(settings(piece))
}
