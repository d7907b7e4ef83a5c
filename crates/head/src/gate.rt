// The tests that refuse: 01, "Refused, in order of test". A function a test; the calls put them in order.
ghost use Rattle.std.specs.Prelude.{◌≡◌, ◌*◌};
ghost use Rattle.head.specs.Rules.{tested, rule, head_rule, short_rule, reading_rule, back_rule, number_rule, first_refusal, push_rules, pop_rules};

use crate::refusal::Refusal;
use window::push::Packet;

// One test.
pub(crate) fn refuse_if(bad: bool, refusal: Refusal) -> Result<(), Refusal>
    ensures { result ≡ tested (rule bad refusal) }
{
    if bad { Err(refusal) } else { Ok(()) }
}

pub(crate) fn head(ok: bool) -> Result<(), Refusal>
    ensures { result ≡ tested (head_rule ok) }
{
    refuse_if(!ok, Refusal::HeadBad)
}

// An area that holds a slot, or a payload, for each entry: two functions, as each has its own number by name in 01. By
// a quotient, since the capacity may be any number here.
pub(crate) fn slots(words: usize, capacity: usize) -> Result<(), Refusal>
    ensures { result ≡ tested (short_rule words (3 * capacity)) }
{
    refuse_if(words / 3 < capacity, Refusal::AreaShort)
}

pub(crate) fn payloads(bytes: usize, capacity: usize) -> Result<(), Refusal>
    ensures { result ≡ tested (short_rule bytes (1456 * capacity)) }
{
    refuse_if(bytes / 1456 < capacity, Refusal::AreaShort)
}

pub(crate) fn entries(words: usize) -> Result<(), Refusal>
    ensures { result ≡ tested (short_rule words 2048) }
{
    refuse_if(words < 2048, Refusal::AreaShort)
}

pub(crate) fn reading(time: i64) -> Result<(), Refusal>
    ensures { result ≡ tested (reading_rule time) }
{
    refuse_if(!numbers::instant::is_reading(time), Refusal::ClockRange)
}

pub(crate) fn back(time: i64, latest: i64) -> Result<(), Refusal>
    ensures { result ≡ tested (back_rule time latest) }
{
    refuse_if(time < latest, Refusal::ClockBack)
}

pub(crate) fn number(n: u32) -> Result<(), Refusal>
    ensures { result ≡ tested (number_rule n) }
{
    refuse_if(0x8000_0000 <= n, Refusal::BadNumber)
}

// These two stand beside those of refuse.rt, since the calls on words (crates/inplace) have a test of the head of
// their own.
pub fn refuse_push(
    ok: bool,
    capacity: usize,
    words: usize,
    bytes: usize,
    time: i64,
    latest: i64,
    p: Packet,
    len: usize,
) -> Result<(), Refusal>
    ensures { result ≡ first_refusal (push_rules ok capacity words bytes time latest p len) }
{
    head(ok)?;
    slots(words, capacity)?;
    payloads(bytes, capacity)?;
    reading(time)?;
    back(time, latest)?;
    number(p.number)?;
    refuse_if(0x400_0000 <= p.message, Refusal::BadNumber)?;
    refuse_if(4 <= p.location, Refusal::BadNumber)?;
    refuse_if(1456 < len, Refusal::PayloadLong)
}

pub fn refuse_pop(
    ok: bool,
    capacity: usize,
    words: usize,
    bytes: usize,
    time: i64,
    latest: i64,
) -> Result<(), Refusal>
    ensures { result ≡ first_refusal (pop_rules ok capacity words bytes time latest) }
{
    head(ok)?;
    slots(words, capacity)?;
    payloads(bytes, capacity)?;
    reading(time)?;
    back(time, latest)
}
