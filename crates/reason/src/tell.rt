// A reason as a line on standard error, which is `err`, after the name of the file. No contract can say what is
// written; what cannot be written is let pass, since there is nowhere to tell it.
use crate::Reason;
use std::fmt;

// A reason and the record's number, which is of use only for a record.
#[derive(Clone, Copy)]
struct Told {
    reason: Reason,
    nth: u64,
}

impl fmt::Display for Told {
    fn fmt<W: fmt::Write>(&self, f: &mut fmt::Formatter<W>) -> fmt::Result {
        let Told { reason, nth } = *self;
        match reason {
            Reason::HeaderCut { have } => write!(f, "the header is cut, {have} of 24 bytes"),
            Reason::NoMark => write!(f, "not a trace (no mark DLT)"),
            Reason::Version { version } => {
                write!(f, "version {version}; this program reads version 1")
            }
            Reason::LateDrop { value } => write!(f, "late-drop is {value}, not 0 or 1"),
            Reason::Capacity { capacity } => {
                write!(f, "capacity {capacity}; a trace has 32 slots at most")
            }
            Reason::Setting => write!(
                f,
                "a setting is refused (start, latency, first number or capacity out of range)"
            ),
            Reason::Cut { have, need: None } => write!(f, "record {nth} is cut, {have} bytes"),
            Reason::Cut {
                have,
                need: Some(need),
            } => write!(f, "record {nth} is cut, {have} of {need} bytes"),
            Reason::Kind { kind } => write!(f, "record {nth} has the unknown kind {kind}"),
            Reason::Length { length } => {
                write!(
                    f,
                    "record {nth} has a length of {length} bytes; 1,456 at most"
                )
            }
        }
    }
}

pub fn tell(err: &impl Print, name: &[u8], offset: u64, nth: u64, reason: Option<Reason>) {
    let _ = err.write_all(name);
    let _ = match reason {
        Some(reason) => {
            let told = Told { reason, nth };
            println!(err; ": bad {offset}: {told}")
        }
        None => println!(err; ": bad {offset}: nothing is wrong"),
    };
}
