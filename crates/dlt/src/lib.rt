// Reading a trace: 01, "Trace, mark DLT". What a header and each record say, from the bytes at hand; nothing is judged
// here but the form: mark, version, late-drop, kind and length.
#![tactic(auto)]

pub mod bytes;
pub mod header;
pub mod kind;
pub mod record;

// Why no header or record is read.
#[derive(Clone, Copy, PartialEq, Eq, Debug)]
pub enum Unread {
    // Fewer bytes than it has, or none.
    Short,
    // Of a header a wrong mark, an unknown version or a late-drop over 1; of a record an unknown kind or a length
    // over 1,456.
    Bad,
}
