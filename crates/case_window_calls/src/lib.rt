// One call of the window each, behind range tests of its own, with its answer in the words of 01's trace lines, without
// their numbers. For case_window.
#![tactic(auto)]

ghost use Rattle.std.specs.Prelude.{◌≡◌, OnOk};
ghost use Rattle.window.specs.Ready.{Good};
ghost use Rattle.case_window_calls.specs.Tests.{words_ok, areas_ok, packet_ok};
ghost use Rattle.case_window_calls.specs.Ready.{Tested};

use case_print::{Bytes, Pop, Report};
use clock::time::SynchronizedRemoteClock;
use std::{array, fmt};
use window::Window;
use window::push::{Packet, PushAnswer, PushRefusal};
use window_pop::pop::{OutShort, PopAnswer};
use window_report::report::ListShort;

// What the tests before a call refuse, by 01's names, and what the call itself does.
// head, which has all refusals, does not stand below, so that this check stays short.
#[derive(Clone, Copy, PartialEq, Eq, Debug)]
enum Refused {
    HeadBad,
    AreaShort,
    ClockRange,
    BadNumber,
    PayloadLong,
    Push(PushRefusal),
    OutShort,
    ListShort,
}

impl fmt::Display for Refused {
    fn fmt<W: fmt::Write>(&self, f: &mut fmt::Formatter<W>) -> fmt::Result {
        match self {
            Refused::HeadBad => write!(f, "refused 1"),
            Refused::AreaShort => write!(f, "refused 2"),
            Refused::ClockRange => write!(f, "refused 3"),
            Refused::BadNumber => write!(f, "refused 5"),
            Refused::PayloadLong => write!(f, "refused 6"),
            Refused::Push(PushRefusal::BufferFull) => write!(f, "refused 7"),
            Refused::Push(PushRefusal::PacketTooEarly { room, need }) => {
                write!(f, "refused 8 {room} {need}")
            }
            Refused::Push(PushRefusal::PacketTooLate) => write!(f, "refused 9"),
            Refused::Push(PushRefusal::DiscardedDuplicate) => write!(f, "refused 10"),
            Refused::OutShort => write!(f, "refused 11"),
            Refused::ListShort => write!(f, "refused 12"),
        }
    }
}

impl From<PushRefusal> for Refused {
    fn from(below: PushRefusal) -> Refused {
        Refused::Push(below)
    }
}

impl From<OutShort> for Refused {
    fn from(_below: OutShort) -> Refused {
        Refused::OutShort
    }
}

impl From<ListShort> for Refused {
    fn from(_below: ListShort) -> Refused {
        Refused::ListShort
    }
}

// The range tests: refusals 1, 2 and 5.

fn words_ok(capacity: usize, len: usize) -> bool
    ensures { result ≡ words_ok capacity len }
{
    capacity <= len / 3
}

fn areas_ok(capacity: usize, words: usize, bytes: usize) -> bool
    ensures { result ≡ areas_ok capacity words bytes }
{
    (capacity <= words / 3) & (capacity <= bytes / 1456)
}

fn packet_ok(p: Packet) -> bool
    ensures { result ≡ packet_ok p }
{
    (p.number < 0x8000_0000) & (p.message < 0x400_0000) & (p.location < 4)
}

// What they show of a window and its areas.

fn test_words(w: Window, words: &[u64]) -> Result<(), Refused>
    ensures { OnOk result (Good w words.now) }
{
    if !w.in_range() {
        return Err(Refused::HeadBad);
    }
    if !words_ok(w.capacity, words.len()) {
        return Err(Refused::AreaShort);
    }
    Ok(())
}

fn test_areas(w: Window, words: &[u64], bytes: &[u8]) -> Result<(), Refused>
    ensures { OnOk result (Tested w words.now bytes.now) }
{
    if !w.in_range() {
        return Err(Refused::HeadBad);
    }
    if !areas_ok(w.capacity, words.len(), bytes.len()) {
        return Err(Refused::AreaShort);
    }
    Ok(())
}

// A window with its areas, what pop takes beside, and where the lines go. Each call writes its line.
#[derive(Drop)]
pub struct Case<'a, P> {
    rt: &'a P,
    window: Window,
    clock: SynchronizedRemoteClock,
    latency: u32,
    dropping: bool,
    words: [u64; 12],
    bytes: [u8; 5824],
}

impl<'a, P: Print> Case<'a, P> {
    // A new window and clock: start 0, capacity 4.
    pub fn new(rt: &'a P, first: u32, latency: u32, dropping: bool) -> Self {
        let window = Window {
            capacity: 4,
            start: 0,
            held: 0,
            seqno0: first,
            lrsn: first,
        };
        Case {
            rt,
            window,
            clock: SynchronizedRemoteClock::new(0),
            latency,
            dropping,
            words: array::repeat(0),
            bytes: array::repeat(0),
        }
    }

    pub fn end(&self) {
        let w = self.window;
        let _ = println!(self.rt; "end {} {} {}", w.lrsn, w.seqno0, w.held);
    }

    // Each call behind its tests.

    fn try_push(&mut self, time: i64, p: Packet, payload: &[u8]) -> Result<PushAnswer, Refused> {
        test_areas(self.window, &self.words, &self.bytes)?;
        if !numbers::instant::is_reading(time) {
            return Err(Refused::ClockRange);
        }
        if !packet_ok(p) {
            return Err(Refused::BadNumber);
        }
        if 1456 < payload.len() {
            return Err(Refused::PayloadLong);
        }
        let pushed = window::push::push(
            self.window,
            &mut self.words,
            &mut self.bytes,
            time,
            p,
            payload,
        )?;
        self.window = pushed.window;
        Ok(pushed.answer)
    }

    fn try_pop(&mut self, out: &mut [u8], time: i64) -> Result<PopAnswer, Refused> {
        test_areas(self.window, &self.words, &self.bytes)?;
        if 65_535_000 < self.latency || !self.clock.in_range() {
            return Err(Refused::HeadBad);
        }
        if !numbers::instant::is_reading(time) {
            return Err(Refused::ClockRange);
        }
        let popped = window_pop::pop::pop(
            self.window,
            self.clock,
            self.latency,
            self.dropping,
            &self.words,
            &self.bytes,
            out,
            time,
        )?;
        self.window = popped.window;
        self.clock = popped.clock;
        Ok(popped.answer)
    }

    // A report changes words only, and so does a drop request. The mean is 10,000.
    fn try_report(&mut self, list: &mut [u32], time: i64) -> Result<Option<usize>, Refused> {
        test_words(self.window, &self.words)?;
        Ok(window_report::report::loss_report(self.window, &mut self.words, list, time, 10_000)?)
    }

    fn try_drop(&mut self, first: u32, last: u32) -> Result<usize, Refused> {
        test_words(self.window, &self.words)?;
        Ok(window_report::drop_request::drop_packets(self.window, &mut self.words, first, last))
    }

    // Whether the number is received, and the part that is shown.
    fn try_show(&self, number: u32) -> Result<(bool, &[u8]), Refused> {
        test_areas(self.window, &self.words, &self.bytes)?;
        let place = window::show::find(self.window, &self.words, number);
        let shown = window::show::show(self.window, &self.words, &self.bytes, number);
        Ok((place.is_some(), shown))
    }

    // The calls with their lines.

    pub fn push(&mut self, time: i64, p: Packet, payload: &[u8]) {
        let _ = match self.try_push(time, p, payload) {
            Ok(PushAnswer::Got { lrsn, recovered }) => println!(self.rt;
                "got {lrsn} {}",
                recovered as u8
            ),
            Ok(PushAnswer::Loss { first, last }) => println!(self.rt; "loss {first} {last}"),
            Err(refused) => println!(self.rt; "{refused}"),
        };
    }

    fn pop_into(&mut self, out: &mut [u8], time: i64) {
        let _ = match self.try_pop(out, time) {
            Ok(answer) => {
                let gap = '\n';
                println!(self.rt; "{}", Pop { answer, out, gap })
            }
            Err(refused) => println!(self.rt; "{refused}"),
        };
    }

    // The longest message here has 13 bytes.
    pub fn pop(&mut self, time: i64) {
        self.pop_into(&mut [0; 13], time);
    }

    pub fn pop_short(&mut self, time: i64) {
        self.pop_into(&mut [0; 12], time);
    }

    fn report_into(&mut self, list: &mut [u32], time: i64) {
        let _ = match self.try_report(list, time) {
            Ok(words) => println!(self.rt; "{}", Report { words, list }),
            Err(refused) => println!(self.rt; "{refused}"),
        };
    }

    // No report here needs more than two words.
    pub fn report(&mut self, time: i64) {
        self.report_into(&mut [0; 2], time);
    }

    pub fn report_short(&mut self, time: i64) {
        self.report_into(&mut [0; 1], time);
    }

    pub fn drop_request(&mut self, first: u32, last: u32) {
        let _ = match self.try_drop(first, last) {
            Ok(n) => println!(self.rt; "gone {n}"),
            Err(refused) => println!(self.rt; "{refused}"),
        };
    }

    pub fn show(&self, number: u32) {
        let _ = match self.try_show(number) {
            Ok((received, shown)) => println!(self.rt;
                "shown {} {}\n{}",
                received as u8,
                shown.len(),
                Bytes(shown)
            ),
            Err(refused) => println!(self.rt; "{refused}"),
        };
    }
}

// A packet that is its whole message, FIRST and LAST.
pub fn whole(number: u32, message: u32, stamp: u32) -> Packet {
    Packet {
        number,
        message,
        location: 3,
        stamp,
    }
}

pub fn part(number: u32, message: u32, location: u32, stamp: u32) -> Packet {
    Packet {
        number,
        message,
        location,
        stamp,
    }
}
