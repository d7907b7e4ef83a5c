// A record of a trace: 01, "Trace, mark DLT".
ghost use Rattle.std.specs.Prelude.{◌≡◌, ◌≤◌, length, drop};
ghost use Rattle.dlt.specs.Record.{code_of, least_size, data_in, data_of, fields_of, record_of, size_of};

use crate::Unread;
use crate::bytes::{half, time, word};
use crate::kind::Kind;

#[derive(Clone, Copy, PartialEq, Eq, Debug)]
pub enum Record {
    Data {
        time: i64,
        number: u32,
        message: u32,
        location: u32,
        stamp: u32,
        length: u16,
    },
    Pop {
        time: i64,
    },
    Report {
        time: i64,
    },
    FullAck {
        time: i64,
    },
    Ack2 {
        time: i64,
        number: u32,
    },
    Drop {
        first: u32,
        last: u32,
    },
    Clock {
        time: i64,
        stamp: u32,
    },
    Clear,
}

fn packet(rest: &[u8], n: u16) -> Record
    requires { 24 ≤ length rest.now }
    ensures { result ≡ data_in rest.now n }
{
    Record::Data {
        time: time(rest, 1),
        number: word(rest, 9),
        message: word(rest, 13),
        location: u32::from(rest[17]),
        stamp: word(rest, 18),
        length: n,
    }
}

// The length is judged before it is asked whether the payload is there.
fn data(rest: &[u8]) -> Result<Record, Unread>
    requires { 24 ≤ length rest.now }
    ensures { result ≡ data_of rest.now }
{
    let n = half(rest, 22);
    if 1456 < n {
        return Err(Unread::Bad);
    }
    if rest.len() < 24 + usize::from(n) {
        return Err(Unread::Short);
    }
    Ok(packet(rest, n))
}

#[tactic(auto, unfolding(crate::specs::Record::least_size, crate::specs::Record::fields_of))]
fn fields(rest: &[u8], kind: Kind) -> Result<Record, Unread>
    requires { least_size (code_of kind) ≤ length rest.now }
    ensures { result ≡ fields_of (code_of kind) rest.now }
{
    Ok(match kind {
        Kind::Data => data(rest)?,
        Kind::Pop => Record::Pop {
            time: time(rest, 1),
        },
        Kind::Report => Record::Report {
            time: time(rest, 1),
        },
        Kind::FullAck => Record::FullAck {
            time: time(rest, 1),
        },
        Kind::Ack2 => Record::Ack2 {
            time: time(rest, 1),
            number: word(rest, 9),
        },
        Kind::Drop => Record::Drop {
            first: word(rest, 1),
            last: word(rest, 5),
        },
        Kind::Clock => Record::Clock {
            time: time(rest, 1),
            stamp: word(rest, 9),
        },
        Kind::Clear => Record::Clear,
    })
}

// The record that the bytes start with. Its kind byte tells an unknown kind, before a length is asked for.
fn first(rest: &[u8]) -> Result<Record, Unread>
    ensures { result ≡ record_of rest.now }
{
    let kind = Kind::try_from(*rest.first().ok_or(Unread::Short)?)?;
    if rest.len() < kind.fixed() {
        return Err(Unread::Short);
    }
    fields(rest, kind)
}

// The record at the cursor; a cursor past the piece has nothing left.
pub fn read(piece: &[u8], at: usize) -> Result<Record, Unread>
    ensures { result ≡ record_of (drop at piece.now) }
{
    first(piece.get(at..).ok_or(Unread::Short)?)
}

// The bytes that a record takes, its payload too, and none where there is no record. By its own match: the sizes by
// Kind::fixed would need one more, of a record's kind.
pub fn size(read: Result<Record, Unread>) -> usize
    ensures { result ≡ size_of read }
{
    let Ok(r) = read else {
        return 0;
    };
    match r {
        Record::Data { length, .. } => 24 + usize::from(length),
        Record::Pop { .. } | Record::Report { .. } | Record::FullAck { .. } | Record::Drop { .. } =>
            9,
        Record::Ack2 { .. } | Record::Clock { .. } => 13,
        Record::Clear => 1,
    }
}
