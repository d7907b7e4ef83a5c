// What is done with the bytes at hand and with the lines, but for reading and writing, which lib.rt does.
#![tactic(auto)]

ghost use Rattle.std.specs.Prelude.{◌≡◌, ◌+◌, ◌-◌, ◌≤◌, length, slice_range, OnOk, OnErr};
ghost use Rattle.lines.specs.Lines.{bad_bytes};
ghost use Rattle.shapes.specs.Ready.{Wrote};
ghost use Rattle.trace.specs.Turn.{begin_of};
ghost use Rattle.replaying.specs.Reads.{Fresh, Moved, Shifted, Blank, Added};

use crate::held::{Hand, Lines};
use dlt::Unread;
use trace::Trace;

impl Hand {
    pub fn new() -> Self
        ensures { Fresh result }
    {
        Hand {
            bytes: [0; 65536],
            at: 0,
            end: 0,
            last: false,
        }
    }

    // All bytes up to the end, those before the cursor too.
    pub fn piece(&self) -> &[u8]
        ensures bytes { result.now ≡ slice_range self.now.bytes 0 self.now.end }
        ensures length { length result.now ≡ self.now.end }
    {
        &self.bytes[..self.end]
    }

    // The header, and the cursor behind it.
    #[tactic(auto, using(crate::proofs::Turns::turns))]
    pub fn begin(&mut self, counting: bool) -> Result<Trace, Unread>
        ensures header { result ≡ begin_of (slice_range self.old.bytes 0 self.old.end) counting }
        ensures cursor { OnOk result (Moved self.old 24 self.new) }
        ensures bad { OnErr result (self.new ≡ self.old) }
    {
        let trace = trace::begin(self.piece(), counting)?;
        self.at = 24;
        Ok(trace)
    }

    pub fn pass(&mut self, n: usize)
        requires { self.old.at + n ≤ self.old.end }
        ensures { Moved self.old (self.old.at + n) self.new }
    {
        self.at += n;
    }

    pub fn unread(&self) -> &[u8]
        ensures { result.now ≡ slice_range self.now.bytes self.now.at self.now.end }
    {
        &self.bytes[self.at..self.end]
    }

    // The unread bytes go to the front. Their number.
    pub fn shift(&mut self) -> usize
        ensures count { result ≡ self.old.end - self.old.at }
        ensures bytes { Shifted self.old self.new }
        ensures kept { result ≤ 65536 }
        ensures last { self.new.last ≡ self.old.last }
    {
        self.bytes.copy_within(self.at..self.end, 0);
        self.end - self.at
    }
}

impl Lines {
    pub fn new() -> Self
        ensures { Blank result }
    {
        Lines {
            text: [0; 65536],
            used: 0,
        }
    }

    pub fn add(&mut self, n: usize)
        requires { self.old.used + n ≤ 65536 }
        ensures { Added self.old n self.new }
    {
        self.used += n;
    }

    // The line of a file that is no trace, `bad 0`.
    pub fn put_bad(&mut self)
        ensures { Wrote self.old.text 0 (bad_bytes 0) 256 self.new.used self.new.text }
    {
        self.used = lines::bad_line(&mut self.text, 0, 0);
    }
}
