// What the case programs share: the answers that more than one of them writes, in the words of 01's trace lines. What
// comes is compared with what must come, so a write that fails shows there and is let pass by its caller.
#![tactic(auto)]

use std::fmt;
use window_pop::pop::PopAnswer;

// Bytes in brackets, each an ASCII character.
#[derive(Clone, Copy)]
pub struct Bytes<'a>(pub &'a [u8]);

impl fmt::Display for Bytes<'_> {
    fn fmt<W: fmt::Write>(&self, f: &mut fmt::Formatter<W>) -> fmt::Result {
        write!(f, "[")?;
        for b in self.0 {
            write!(f, "{}", *b as char)?;
        }
        write!(f, "]")
    }
}

// A pop's answer. A message is the first bytes of the output, after a gap.
#[derive(Clone, Copy)]
pub struct Pop<'a> {
    pub answer: PopAnswer,
    pub out: &'a [u8],
    pub gap: char,
}

impl fmt::Display for Pop<'_> {
    fn fmt<W: fmt::Write>(&self, f: &mut fmt::Formatter<W>) -> fmt::Result {
        match self.answer {
            PopAnswer::Nothing => write!(f, "none"),
            PopAnswer::Message {
                time,
                bytes,
                packets,
            } => {
                let message = Bytes(self.out.get(..bytes).unwrap_or(self.out));
                write!(f, "message {time} {bytes} {packets}{}{message}", self.gap)
            }
            PopAnswer::Late { first, end, delay } => write!(f, "late {first} {end} {delay}"),
        }
    }
}

// A loss report's answer: its words, the first of a list, each after a blank.
#[derive(Clone, Copy)]
pub struct Report<'a> {
    pub words: Option<usize>,
    pub list: &'a [u32],
}

impl fmt::Display for Report<'_> {
    fn fmt<W: fmt::Write>(&self, f: &mut fmt::Formatter<W>) -> fmt::Result {
        let Some(n) = self.words else {
            return write!(f, "none");
        };
        write!(f, "report")?;
        for word in self.list.iter().take(n) {
            write!(f, " {word}")?;
        }
        Ok(())
    }
}
