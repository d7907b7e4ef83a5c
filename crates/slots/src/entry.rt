// An entry of the window as three words of a lent slice: 01, "Head and lent areas". That a slot lies in the slice is
// required at each: the slice is the caller's, and no type of this crate's can hold for its length.
ghost use Rattle.std.specs.Prelude.{◌≡◌, ◌+◌, ◌*◌, ◌<◌, ◌≤◌, length};
ghost use Rattle.slots.specs.Words.{is_lost, is_received, entry_of, entry_at, write_at, write_report, words_of, length_read, length_in, stamp_in, message_in, is_first, is_last, in_message};
ghost use Rattle.slots.specs.Ready.{Fit};

#[derive(Clone, Copy, PartialEq, Eq, Debug)]
pub enum Entry {
    Lost {
        k: u32,
        feedback: u64,
    },
    Received {
        length: usize,
        location: u32,
        message: u32,
        stamp: u32,
    },
    GivenUp,
}

pub fn is_lost(e: Entry) -> bool
    ensures { result ≡ is_lost e }
{
    matches!(e, Entry::Lost { .. })
}

pub fn is_received(e: Entry) -> bool
    ensures { result ≡ is_received e }
{
    matches!(e, Entry::Received { .. })
}

// A length above 1,456 is read as 1,456.
fn read_length(n: usize) -> usize
    ensures { result ≡ length_read n }
{
    n.min(1456)
}

// The entry that three words hold.
fn unpack(a: u64, b: u64, c: u64) -> Entry
    ensures { result ≡ entry_of a b c }
{
    let mark = a % 4;
    if mark == 0 {
        return Entry::Lost {
            k: (b % 0x1_0000) as u32,
            feedback: c % 0x1000_0000_0000_0000,
        };
    }
    if mark == 1 {
        return Entry::Received {
            length: read_length((a / 4 % 2048) as usize),
            location: (a / 8192 % 4) as u32,
            message: (a / 32768 % 0x400_0000) as u32,
            stamp: (b % 0x1_0000_0000) as u32,
        };
    }
    Entry::GivenUp
}

// The words of an entry; unused bits are 0.
fn pack(e: Entry) -> [u64; 3]
    requires { Fit e }
    ensures { result ≡ words_of e }
{
    match e {
        Entry::Lost { k, feedback } => [0, u64::from(k), feedback],
        Entry::Received {
            length,
            location,
            message,
            stamp,
        } => [
            1 + 4 * (length as u64) + 8192 * u64::from(location) + 32768 * u64::from(message),
            u64::from(stamp),
            0,
        ],
        Entry::GivenUp => [2, 0, 0],
    }
}

// The entry in slot s.
pub fn read_at(words: &[u64], s: usize) -> Entry
    requires { 3 * s + 3 ≤ length words.now }
    ensures { result ≡ entry_at words.now s }
{
    let i = 3 * s;
    unpack(words[i], words[i + 1], words[i + 2])
}

// Puts an entry into slot s; every other word stays.
pub fn write_at(words: &mut [u64], s: usize, e: Entry)
    requires { (3 * s + 3 ≤ length words.old) × Fit e }
    ensures { words.new ≡ write_at words.old s e }
{
    let i = 3 * s;
    let [a, b, c] = pack(e);
    words[i] = a;
    words[i + 1] = b;
    words[i + 2] = c;
}

// Puts k and the feedback time of a reported entry into slot s; its first word stays, since no rule names it.
pub fn write_report(words: &mut [u64], s: usize, k: u32, feedback: u64)
    requires { 3 * s + 3 ≤ length words.old }
    ensures { words.new ≡ write_report words.old s k feedback }
{
    let i = 3 * s;
    words[i + 1] = u64::from(k);
    words[i + 2] = feedback;
}

// What an entry holds, if it is received, else 0: 01's rules ask these of received entries alone, whose test comes
// first, so that an Option would be tested twice.
pub fn length_in(e: Entry) -> usize
    ensures { result ≡ length_in e }
{
    match e {
        Entry::Received { length, .. } => length,
        _ => 0,
    }
}

pub fn stamp_in(e: Entry) -> u32
    ensures { result ≡ stamp_in e }
{
    match e {
        Entry::Received { stamp, .. } => stamp,
        _ => 0,
    }
}

pub fn message_in(e: Entry) -> u32
    ensures { result ≡ message_in e }
{
    match e {
        Entry::Received { message, .. } => message,
        _ => 0,
    }
}

pub fn is_first(e: Entry) -> bool
    ensures { result ≡ is_first e }
{
    matches!(e, Entry::Received { location, .. } if 2 <= location)
}

pub fn is_last(e: Entry) -> bool
    ensures { result ≡ is_last e }
{
    matches!(e, Entry::Received { location, .. } if location % 2 == 1)
}

pub fn in_message(number: u32, e: Entry) -> bool
    ensures { result ≡ in_message number e }
{
    matches!(e, Entry::Received { message, .. } if message == number)
}
