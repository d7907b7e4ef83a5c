// The trace: 01's file format read record by record, each record a call of the receiver, each answer a line. 01,
// "Trace, mark DLT". Nothing here reads or writes a file: the bytes at hand and a line are lent.
#![tactic(auto)]

ghost use Rattle.std.specs.Prelude.{◌≡◌, ◌≤◌, true, false, not, ◌&&◌, length, drop, ◌==◌, nat_le, Ok, Err};
ghost use Rattle.dlt.specs.Record.{record_of, size_in};
ghost use Rattle.text.specs.Put.{put_ended, put_of};
ghost use Rattle.lines.specs.Lines.{line_bytes};
ghost use Rattle.step.specs.Step as steps;
ghost use Rattle.trace.specs.Trace.{call_in, length_in, payload_in};
ghost use Rattle.trace.specs.Turn.{begun_by, begin_of, areas_of, turn_left, turned, is_short, line_need, ends_with, ends_by, advances, turn_by, turn_of};
ghost use Rattle.trace.specs.Ready.{RecordHere};

use counts::Counters;
use dlt::Unread;
use dlt::header::Header;
use dlt::record::Record;
use head::state::Head;
use step::{Answer, Call};

// A replay between two records: the receiver's head, the counters, how many records were read, and where the next
// begins in the file.
#[derive(Clone, Copy)]
pub struct Trace {
    pub head: Head,
    pub tally: Option<Counters>,
    pub count: u64,
    pub offset: u64,
}

#[derive(Clone, Copy, PartialEq, Eq, Debug)]
pub enum Status {
    // A record was read and its line written.
    Line,
    // The record is not whole yet, and more may come.
    More,
    // The end line was written.
    End,
    // The bad line was written.
    Bad,
    // The lent line is too short; nothing is done.
    LineShort,
}

// `size` bytes of the file were used, and the first `length` bytes of the lent line written.
#[derive(Clone, Copy)]
pub struct Turned {
    pub trace: Trace,
    pub size: usize,
    pub length: usize,
    pub status: Status,
}

// A header's settings: they are bad if the receiver refuses one, or the capacity is over 32.
fn begun(h: Header, counting: bool) -> Result<Trace, Unread>
    ensures { result ≡ begun_by (Ok h) counting }
{
    let head = Head::new(h.start, h.latency, h.dropping, h.first, h.capacity).map_err(
        |_| Unread::Bad,
    )?;
    if 32 < h.capacity {
        return Err(Unread::Bad);
    }
    Ok(Trace {
        head,
        tally: tally::fresh(counting),
        count: 0,
        offset: 24,
    })
}

// The header, from the bytes that the file starts with, and the receiver by its settings; `counting` asks for the
// counters' line behind the end line.
pub fn begin(piece: &[u8], counting: bool) -> Result<Trace, Unread>
    ensures { result ≡ begin_of piece.now counting }
{
    begun(dlt::header::read(piece)?, counting)
}

// A record is what a file has, a call what the receiver takes and the ledger speaks of; neither crate knows the other.
fn call_of(r: Record) -> Call
    ensures { result ≡ call_in (Ok r) }
{
    match r {
        Record::Data {
            time,
            number,
            message,
            location,
            stamp,
            ..
        } => Call::Data {
            time,
            number,
            message,
            location,
            stamp,
        },
        Record::Pop { time } => Call::Pop { time },
        Record::Report { time } => Call::Report { time },
        Record::FullAck { time } => Call::FullAck { time },
        Record::Ack2 { time, number } => Call::Ack2 { time, number },
        Record::Drop { first, last } => Call::Drop { first, last },
        Record::Clock { time, stamp } => Call::Clock { time, stamp },
        Record::Clear => Call::Clear,
    }
}

fn length_of(r: Record) -> usize
    ensures { result ≡ length_in (Ok r) }
{
    match r {
        Record::Data { length, .. } => usize::from(length),
        _ => 0,
    }
}

// 700 bytes and 21 a word, without a product that might be too large.
fn has_room(line: &[u8], list: &[u32]) -> bool
    ensures { result ≡ nat_le (line_need list.now) (length line.now) }
{
    if line.len() < 700 {
        return false;
    }
    list.len() <= (line.len() - 700) / 21
}

// The line of an answer, at the start of the lent line.
fn answer_line(line: &mut [u8], nth: u64, answer: Answer, list: &[u32]) -> usize
    requires { line_need list.now ≤ length line.old }
    ensures { put_ended result line.new ≡ put_of line.old 0 (line_bytes nth (steps.line_of answer list.now)) }
{
    match answer {
        Answer::Data(a) => lines::data_line(line, 0, nth, a),
        Answer::Pop(a) => lines::message_line(line, 0, nth, a),
        Answer::Report(a) => lines::loss_line(line, 0, nth, a, list),
        Answer::FullAck(a) => lines::full_ack_line(line, 0, nth, a),
        Answer::Ack2(a) => lines::ack2_line(line, 0, nth, a),
        Answer::Drop(a) => lines::drop_line(line, 0, nth, a),
        Answer::Clock(a) => lines::clock_line(line, 0, nth, a),
        Answer::Clear(a) => lines::clear_line(line, 0, nth, a),
    }
}

// A record's call, its line and what it counts.
fn advance(
    t: Trace,
    words: &mut [u64],
    bytes: &mut [u8],
    area: &mut [u64],
    out: &mut [u8],
    list: &mut [u32],
    line: &mut [u8],
    call: Call,
    payload: &[u8],
    size: usize,
) -> Turned
    requires { line_need list.old ≤ length line.old }
    ensures { turn_left (turned result line.new) (areas_of words.new bytes.new area.new out.new list.new) ≡ advances t (areas_of words.old bytes.old area.old out.old list.old) line.old call payload.now size }
{
    let count = t.count.wrapping_add(1);
    let offset = t.offset.wrapping_add(size as u64);
    let r = step::step(t.head, words, bytes, area, out, list, call, payload);
    let length = answer_line(line, count, r.answer, list);
    let tally = tally::after(t.tally, payload.len(), r.answer);
    let trace = Trace {
        head: r.head,
        tally,
        count,
        offset,
    };
    Turned {
        trace,
        size,
        length,
        status: Status::Line,
    }
}

fn stay(t: Trace, status: Status) -> Turned
    ensures { result ≡ record { trace = t; size = 0; length = 0; status = status } }
{
    Turned {
        trace: t,
        size: 0,
        length: 0,
        status,
    }
}

fn end(t: Trace, line: &mut [u8]) -> Turned
    requires { 700 ≤ length line.old }
    ensures { turned result line.new ≡ ends_with t line.old true }
{
    let w = t.head.window;
    let behind = lines::end_line(line, 0, t.count, w.lrsn, w.seqno0, w.held);
    let length = tally::line(line, behind, t.tally);
    Turned {
        trace: t,
        size: 0,
        length,
        status: Status::End,
    }
}

fn bad(t: Trace, line: &mut [u8]) -> Turned
    requires { 700 ≤ length line.old }
    ensures { turned result line.new ≡ ends_with t line.old false }
{
    let length = lines::bad_line(line, 0, t.offset);
    Turned {
        trace: t,
        size: 0,
        length,
        status: Status::Bad,
    }
}

// No record is at hand: more may come, or it is the end, or it is bad.
fn close(t: Trace, line: &mut [u8], more: bool, empty: bool) -> Turned
    requires { 700 ≤ length line.old }
    ensures { turned result line.new ≡ ends_by t line.old more empty }
{
    if more {
        return stay(t, Status::More);
    }
    if empty {
        return end(t, line);
    }
    bad(t, line)
}

// A record's payload ends where the record does.
fn make(
    t: Trace,
    words: &mut [u64],
    bytes: &mut [u8],
    area: &mut [u64],
    out: &mut [u8],
    list: &mut [u32],
    line: &mut [u8],
    piece: &[u8],
    at: usize,
    r: Record,
) -> Turned
    requires { RecordHere list.old line.old piece.now at r }
    ensures { turn_left (turned result line.new) (areas_of words.new bytes.new area.new out.new list.new) ≡ advances t (areas_of words.old bytes.old area.old out.old list.old) line.old (call_in (Ok r)) (payload_in (drop at piece.now) (Ok r)) (size_in r) }
{
    let size = dlt::record::size(Ok(r));
    let call = call_of(r);
    let n = length_of(r);
    let to = at + size;
    let from = to - n;
    advance(
        t,
        words,
        bytes,
        area,
        out,
        list,
        line,
        call,
        &piece[from..to],
        size,
    )
}

// Whether more bytes may make a record of those at hand.
fn may_come(unread: Unread, last: bool) -> bool
    ensures { result ≡ (is_short (Err unread) && not last) }
{
    !last && unread == Unread::Short
}

fn is_empty(piece: &[u8], at: usize) -> bool
    ensures { result ≡ (length (drop at piece.now) == 0) }
{
    piece.len() <= at
}

// By the record at the cursor.
fn turn(
    t: Trace,
    words: &mut [u64],
    bytes: &mut [u8],
    area: &mut [u64],
    out: &mut [u8],
    list: &mut [u32],
    line: &mut [u8],
    piece: &[u8],
    at: usize,
    last: bool,
) -> Turned
    requires { line_need list.old ≤ length line.old }
    ensures { turn_left (turned result line.new) (areas_of words.new bytes.new area.new out.new list.new) ≡ turn_by t (areas_of words.old bytes.old area.old out.old list.old) (drop at piece.now) last line.old (record_of (drop at piece.now)) }
{
    match dlt::record::read(piece, at) {
        Ok(r) => make(t, words, bytes, area, out, list, line, piece, at, r),
        Err(unread) => { close(t, line, may_come(unread, last), is_empty(piece, at)) }
    }
}

// One turn, on the bytes from `at` on; `last` says that the file ends with them. Lent are the slots, payloads, history,
// output and loss words of `step::step`, and a line of 700 bytes and 21 a loss word, at whose start the turn's line is
// written.
pub fn next(
    t: Trace,
    words: &mut [u64],
    bytes: &mut [u8],
    area: &mut [u64],
    out: &mut [u8],
    list: &mut [u32],
    line: &mut [u8],
    piece: &[u8],
    at: usize,
    last: bool,
) -> Turned
    ensures { turn_left (turned result line.new) (areas_of words.new bytes.new area.new out.new list.new) ≡ turn_of t (areas_of words.old bytes.old area.old out.old list.old) (drop at piece.now) last line.old }
{
    if has_room(line, list) {
        return turn(t, words, bytes, area, out, list, line, piece, at, last);
    }
    stay(t, Status::LineShort)
}
