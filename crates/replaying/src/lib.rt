// Replaying a file: 01, "Trace, mark DLT". A file of any length is read in pieces into a fixed buffer, and each turn of
// the trace writes its line behind the lines that are still to be written out. That the turns give together what the
// whole file gives is the trace's law `loop-whole`; no contract can speak of what is read or written, so here the code
// only follows that loop. What cannot be read or written is told on standard error; the program ends as after any other
// file.
#![tactic(auto)]

ghost use Rattle.std.specs.Prelude.{◌≡◌, ◌+◌, ◌≤◌, length, IfSome, IfOk, IfErr, OnOk, OnErr};
ghost use Rattle.trace.specs.Lends.{slots_lent, payloads_lent, history_lent, output_lent, list_lent};
ghost use Rattle.replaying.specs.Counts.{IsPrefixLen};
ghost use Rattle.replaying.specs.Reads.{Took, Unfilled, Refilled, Written, Flushed, IsUnread, Came, Served};
ghost use Rattle.replaying.specs.Same.{same_bytes};

mod held;
mod holding;

use crate::held::{Hand, Lines};
use dlt::Unread;
use std::env::{Env, FillError};
use std::fs::File;
use std::io;
use std::io::Read;
use trace::{Status, Trace};

// The areas of capacity 32. With them no record is refused by 2, 11 or 12: the theorem `replay-areas`. An output has
// the length of the payloads.
#[derive(Drop)]
struct Areas {
    words: [u64; 96],
    bytes: [u8; 46592],
    area: [u64; 2048],
    out: [u8; 46592],
    list: [u32; 64],
}

impl Areas {
    fn new() -> Self
        ensures slots { slots_lent ≡ length result.words }
        ensures payloads { payloads_lent ≡ length result.bytes }
        ensures history { history_lent ≡ length result.area }
        ensures output { output_lent ≡ length result.out }
        ensures list { list_lent ≡ length result.list }
    {
        Areas {
            words: [0; 96],
            bytes: [0; 46592],
            area: [0; 2048],
            out: [0; 46592],
            list: [0; 64],
        }
    }
}

impl Hand {
    // A read that gave nothing is the end of the file, and no other is; one that failed leaves all.
    fn took(&mut self, kept: usize, read: io::Result<usize>) -> io::Result<()>
        requires { IfOk read (λ n. kept + n ≤ 65536) }
        ensures { Took self.old kept read self.new result }
    {
        match read {
            Ok(n) => {
                self.at = 0;
                self.end = kept + n;
                self.last = n == 0;
                Ok(())
            }
            Err(failure) => Err(failure),
        }
    }

    // The unread bytes go to the front, and one read behind them.
    fn fill<R: Read>(&mut self, input: &mut R) -> io::Result<()>
        ensures read { OnOk result (Refilled self.old self.new) }
        ensures unread { OnErr result (Unfilled self.old self.new) }
    {
        let kept = self.shift();
        let read = input.read(&mut self.bytes[kept..]);
        self.took(kept, read)
    }
}

impl Lines {
    // Once they are written out none is left; a write that failed leaves all.
    fn wrote(&mut self, written: io::Result<()>) -> io::Result<()>
        ensures { Written self.old written self.new result }
    {
        match written {
            Ok(()) => {
                self.used = 0;
                Ok(())
            }
            Err(e) => Err(e),
        }
    }

    fn flush(&mut self, output: &impl Print) -> io::Result<()>
        ensures done { OnOk result (Flushed self.old self.new) }
        ensures failed { OnErr result (self.new ≡ self.old) }
    {
        let written = output.write_all(&self.text[..self.used]);
        self.wrote(written)
    }
}

// Why a replay stopped before its end.
#[derive(Drop)]
enum Failure {
    Unread(io::Error),
    Unwritten(io::Error),
}

// How the file ended: with the end line, or with the bad line of its header, or of the record that begins at `offset`
// after `count` others.
#[derive(Clone, Copy, PartialEq, Eq, Debug)]
enum End {
    Whole,
    BadHeader,
    BadRecord { offset: u64, count: u64 },
}

// What a replay has between two turns of the trace.
#[derive(Drop)]
struct Replay {
    areas: Areas,
    hand: Hand,
    lines: Lines,
}

// A proved loop has to end, and nothing says that a file does: each counts up to a number that no run reaches.
impl Replay {
    // More bytes, for the header or for a turn.
    fn more<R: Read>(&mut self, input: &mut R) -> Result<(), Failure>
        ensures { Came self.old self.new result }
    {
        self.hand.fill(input).map_err(Failure::Unread)
    }

    // The header. Where it is bad the bytes at hand stay, so that the reason can be told.
    fn open<R: Read>(&mut self, input: &mut R, counting: bool) -> Result<Option<Trace>, Failure>
        ensures unread { IfErr result (λ failure. IsUnread failure) }
    {
        for _ in 0..u64::MAX {
            match self.hand.begin(counting) {
                Ok(trace) => return Ok(Some(trace)),
                Err(Unread::Short) if !self.hand.last => self.more(input)?,
                Err(_) => break,
            }
        }
        self.lines.put_bad();
        Ok(None)
    }

    // A turn of the trace, with its line behind the lines that are there.
    fn turn(&mut self, trace: &mut Trace) -> Status {
        let areas = &mut self.areas;
        let x = trace::next(
            *trace,
            &mut areas.words,
            &mut areas.bytes,
            &mut areas.area,
            &mut areas.out,
            &mut areas.list,
            &mut self.lines.text[self.lines.used..],
            self.hand.piece(),
            self.hand.at,
            self.hand.last,
        );
        *trace = x.trace;
        self.hand.pass(x.size);
        self.lines.add(x.length);
        x.status
    }

    // What a turn's status asks for is done: the end of the file, or none where the loop goes on.
    fn serve<R: Read>(
        &mut self,
        status: Status,
        trace: &Trace,
        input: &mut R,
        output: &impl Print,
    ) -> Result<Option<End>, Failure>
        ensures { Served status trace.now self.old self.new result }
    {
        match status {
            Status::Line => {}
            Status::More => self.more(input)?,
            Status::LineShort => self.lines.flush(output).map_err(Failure::Unwritten)?,
            Status::End => return Ok(Some(End::Whole)),
            Status::Bad => {
                return Ok(Some(End::BadRecord {
                    offset: trace.offset,
                    count: trace.count,
                }));
            }
        }
        Ok(None)
    }

    // The whole file, but for the lines that are left at its end.
    fn run<R: Read>(
        &mut self,
        input: &mut R,
        output: &impl Print,
        counting: bool,
    ) -> Result<End, Failure> {
        let Some(mut trace) = self.open(input, counting)? else {
            return Ok(End::BadHeader);
        };
        for _ in 0..u64::MAX {
            let status = self.turn(&mut trace);
            if let Some(end) = self.serve(status, &trace, input, output)? {
                return Ok(end);
            }
        }
        Ok(End::Whole)
    }

    // Why the header is bad, or why the record at the cursor is: on standard error.
    fn tell(&self, err: &impl Print, end: End, name: &[u8]) {
        match end {
            End::Whole => {}
            End::BadHeader => {
                let reason = reason::of_header(self.hand.piece());
                reason::tell::tell(err, name, 0, 0, reason);
            }
            End::BadRecord { offset, count } => {
                let reason = reason::of_record(self.hand.unread());
                reason::tell::tell(err, name, offset, count.wrapping_add(1), reason);
            }
        }
    }
}

// The words of a failure, without the system's number for it.
fn without_number(text: &str) -> &str {
    match text.split_once(" (os error ") {
        Some((words, _)) => words,
        None => text,
    }
}

// A line on standard error: what failed, whose name need not be text, and why. What cannot be written is let pass.
fn fail(rt: &HostRuntime, what: &[u8], failure: io::Error) {
    let err = rt.stderr();
    let _ = err.write_all(what);
    let _ = match failure.to_string(rt.alloc()) {
        Ok(text) => err.println(format_args!(": {}", without_number(text.as_str()))),
        Err(_) => err.println(format_args!(": {failure}")),
    };
}

fn write_rest(rt: &HostRuntime, lines: &mut Lines) {
    if let Err(e) = lines.flush(rt) {
        fail(rt, b"standard output", e);
    }
}

// A failure is told before another can take its place, and the lines that are left are written out.
fn replay_open<R: Read>(rt: &HostRuntime, input: &mut R, name: &[u8], counting: bool) {
    let mut replay = Replay {
        areas: Areas::new(),
        hand: Hand::new(),
        lines: Lines::new(),
    };
    match replay.run(input, rt, counting) {
        Ok(end) => {
            write_rest(rt, &mut replay.lines);
            replay.tell(&rt.stderr(), end, name);
        }
        Err(Failure::Unread(e)) => {
            fail(rt, name, e);
            write_rest(rt, &mut replay.lines);
        }
        Err(Failure::Unwritten(e)) => fail(rt, b"standard output", e),
    }
}

// std takes the name of a file as text alone, so no other name can be opened.
fn open_file(rt: &HostRuntime, path: &[u8]) -> io::Result<File> {
    match str::from_utf8(path) {
        Ok(name) => File::open(rt, name),
        Err(_) => Err(io::Error::new(
            io::ErrorKind::InvalidFilename,
            "a name that is not UTF-8 cannot be opened; replay it from standard input",
        )),
    }
}

// A name of no letters is shown in quotes.
fn replay_file(rt: &HostRuntime, path: &[u8], counting: bool) {
    match open_file(rt, path) {
        Ok(mut file) => replay_open(rt, &mut file, path, counting),
        Err(e) if path.is_empty() => fail(rt, b"''", e),
        Err(e) => fail(rt, path, e),
    }
}

// The system's numbers for a word that is missing, and for one that is too long.
const EINVAL: i32 = 22;

const ENAMETOOLONG: i32 = 36;

// Both types are the library's, so this cannot be a From.
fn word_failure(e: FillError) -> io::Error {
    match e {
        FillError::NotPresent => io::Error::from_raw_os_error(EINVAL),
        FillError::TooLong => io::Error::from_raw_os_error(ENAMETOOLONG),
    }
}

fn replay_argument(rt: &HostRuntime, i: usize, counting: bool) {
    let mut path = word_buffer();
    match rt.arg(i, &mut path) {
        Ok(length) => replay_file(rt, &path[..length], counting),
        Err(e) => fail(rt, b"argument", word_failure(e)),
    }
}

// A word of the command line: no path is longer.
pub fn word_buffer() -> [u8; 4096]
    ensures { 4096 ≡ length result }
{
    [0; 4096]
}

// Word i of the command line is put at the start of `word`, and is so long. None if it is missing or has no room there.
pub fn word_at(rt: &HostRuntime, i: usize, word: &mut [u8]) -> Option<usize>
    ensures { IfSome result (λ n. IsPrefixLen n word.new) }
{
    rt.arg(i, word).ok()
}

// Whether two words are the same.
#[tactic(auto, using(crate::proofs::Sames::sames))]
pub fn same(a: &[u8], b: &[u8]) -> bool
    ensures { result ≡ same_bytes a.now b.now }
{
    a == b
}

// What a word of the command line is.
#[derive(Clone, Copy, PartialEq, Eq, Debug)]
enum Word {
    Counters,
    // `-`, or an option that there is not.
    Input,
    Unknown,
    File,
}

fn kind(w: &[u8]) -> Word {
    match w {
        [b'-'] => Word::Input,
        [b'-', ..] if same(w, b"--counters") => Word::Counters,
        [b'-', ..] => Word::Unknown,
        _ => Word::File,
    }
}

// None behind the last word. A word that is too long names a file that cannot be opened.
fn argument(rt: &HostRuntime, i: usize) -> Option<Word> {
    let mut w = word_buffer();
    match rt.arg(i, &mut w) {
        Ok(length) => Some(kind(&w[..length])),
        Err(FillError::TooLong) => Some(Word::File),
        Err(FillError::NotPresent) => None,
    }
}

// What the words ask for: the place among them of the file's name, none for standard input, and the counters.
#[derive(Clone, Copy, PartialEq, Eq, Debug)]
struct Asked {
    file: Option<usize>,
    counting: bool,
}

// None for an option that there is not, and for a second file.
fn asked_from(rt: &HostRuntime, first: usize) -> Option<Asked> {
    let mut asked = Asked {
        file: None,
        counting: false,
    };
    // A flag beside the file, since `-` is named and no file: an Option in an Option is no plainer.
    let mut named = false;
    for i in first..usize::MAX {
        let Some(word) = argument(rt, i) else {
            break;
        };
        match word {
            Word::Counters => asked.counting = true,
            Word::Unknown => return None,
            _ if named => return None,
            Word::Input => named = true,
            Word::File => {
                named = true;
                asked.file = Some(i);
            }
        }
    }
    Some(asked)
}

// Replays what the words from the first on ask for.
fn replay_from(rt: &HostRuntime, first: usize, usage: &str) {
    let Some(Asked { file, counting }) = asked_from(rt, first) else {
        let _ = eprintln!(rt; "usage: {usage} [--counters] [FILE]");
        return;
    };
    match file {
        Some(i) => replay_argument(rt, i, counting),
        None => replay_open(rt, &mut rt.stdin(), b"standard input", counting),
    }
}

// The program replay.
pub fn run(rt: &HostRuntime) {
    replay_from(rt, 1, "replay");
}

// The subcommand replay: its words are behind it.
pub fn run_subcommand(rt: &HostRuntime) {
    replay_from(rt, 2, "pursethistle replay");
}

// A name need not be text.
fn write_name(rt: &HostRuntime, i: usize) {
    let mut path = word_buffer();
    if let Some(length) = word_at(rt, i, &mut path) {
        let _ = rt.write_all(&path[..length]);
    }
    let _ = println!(rt);
}

// Replays each file that an argument names, after a line with the name, with counters from the word on that asks for
// them: for the cases of the gate.
pub fn run_each(rt: &HostRuntime) {
    let mut counting = false;
    for i in 1..usize::MAX {
        let Some(word) = argument(rt, i) else {
            break;
        };
        match word {
            Word::Counters => counting = true,
            Word::Unknown | Word::Input => {}
            Word::File => {
                write_name(rt, i);
                replay_argument(rt, i, counting);
            }
        }
    }
}
