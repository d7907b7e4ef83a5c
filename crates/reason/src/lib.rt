// Why a file is bad: what replay says on standard error beside the line `bad`. 01, "Trace, mark DLT". Each function
// asks again what the trace read, so that the reason and the line cannot disagree.
#![tactic(auto)]

ghost use Rattle.std.specs.Prelude.{◌≡◌, ◌≤◌, length};
ghost use Rattle.head.specs.Head.{made_of};
ghost use Rattle.dlt.specs.Bytes.{byte_at};
ghost use Rattle.dlt.specs.Record.{least_size};
ghost use Rattle.reason.specs.Reason.{is_marked, form_reason, setting_reason, header_reason, need_in, cut_reason, wrong_reason, record_reason};

pub mod tell;

use dlt::Unread;
use dlt::bytes::half;
use dlt::header::Header;
use dlt::kind::Kind;
use head::state::Head;

#[derive(Clone, Copy, PartialEq, Eq, Debug)]
pub enum Reason {
    HeaderCut { have: usize },
    NoMark,
    Version { version: u16 },
    LateDrop { value: u8 },
    // Over 32.
    Capacity { capacity: usize },
    Setting,
    // The bytes that the record needs, if they are known yet.
    Cut { have: usize, need: Option<usize> },
    Kind { kind: u8 },
    Length { length: u16 },
}

#[tactic(auto, unfolding(crate::specs::Reason::is_marked))]
fn is_marked(piece: &[u8]) -> bool
    ensures { result ≡ is_marked piece.now }
{
    piece.starts_with(b"DLT")
}

// 24 bytes that are no header.
#[tactic(auto, unfolding(crate::specs::Reason::form_reason))]
fn form(piece: &[u8]) -> Reason
    requires { 24 ≤ length piece.now }
    ensures { result ≡ form_reason piece.now }
{
    if !is_marked(piece) {
        return Reason::NoMark;
    }
    let version = half(piece, 3);
    if version == 1 {
        return Reason::LateDrop { value: piece[17] };
    }
    Reason::Version { version }
}

fn setting(h: Header) -> Option<Reason>
    ensures { result ≡ setting_reason (made_of h.start h.latency h.dropping h.first h.capacity) h.capacity }
{
    if 32 < h.capacity {
        return Some(Reason::Capacity {
            capacity: h.capacity,
        });
    }
    match Head::new(h.start, h.latency, h.dropping, h.first, h.capacity) {
        Ok(_) => None,
        Err(_) => Some(Reason::Setting),
    }
}

// Of the bytes that a file starts with, when no more of them come; none if nothing is wrong.
#[tactic(auto, using(crate::proofs::Steps::bad_reads))]
pub fn of_header(piece: &[u8]) -> Option<Reason>
    ensures { result ≡ header_reason piece.now }
{
    match dlt::header::read(piece) {
        Err(Unread::Short) => Some(Reason::HeaderCut { have: piece.len() }),
        Err(Unread::Bad) => Some(form(piece)),
        Ok(h) => setting(h),
    }
}

// The bytes of a record with its payload: of a data packet none before its length is there. A kind byte that no kind
// has is all there is.
#[tactic(auto, using(crate::proofs::Steps::need_none), unfolding(crate::specs::Reason::need_in))]
fn need(rest: &[u8]) -> Option<usize>
    requires { 1 ≤ length rest.now }
    ensures { result ≡ need_in rest.now }
{
    match Kind::try_from(rest[0]) {
        Ok(Kind::Data) if rest.len() < 24 => None,
        Ok(Kind::Data) => Some(24 + usize::from(half(rest, 22))),
        Ok(kind) => Some(kind.fixed()),
        Err(_) => Some(1),
    }
}

#[tactic(auto, unfolding(crate::specs::Reason::cut_reason))]
fn cut(rest: &[u8]) -> Option<Reason>
    ensures { result ≡ cut_reason rest.now }
{
    if rest.is_empty() {
        return None;
    }
    Some(Reason::Cut {
        have: rest.len(),
        need: need(rest),
    })
}

#[tactic(auto, using(crate::proofs::Steps::other_kinds), unfolding(crate::specs::Reason::wrong_reason, dlt::specs::Record::least_size))]
fn wrong(rest: &[u8]) -> Reason
    requires in_bounds { 1 ≤ length rest.now }
    requires rest_in_bounds { least_size (byte_at rest.now 0) ≤ length rest.now }
    ensures { result ≡ wrong_reason rest.now }
{
    match Kind::try_from(rest[0]) {
        Ok(Kind::Data) => Reason::Length {
            length: half(rest, 22),
        },
        _ => Reason::Kind { kind: rest[0] },
    }
}

// Of the bytes from a record on, when no more of them come; none if there is a record, or no byte.
#[tactic(auto, using(crate::proofs::Steps::bad_reads))]
pub fn of_record(rest: &[u8]) -> Option<Reason>
    ensures { result ≡ record_reason rest.now }
{
    match dlt::record::read(rest, 0) {
        Err(Unread::Short) => cut(rest),
        Err(Unread::Bad) => Some(wrong(rest)),
        Ok(_) => None,
    }
}
