// The refusals of a call on a head: the first test that holds, or none.
ghost use Rattle.std.specs.Prelude.{◌≡◌, ◌*◌};
ghost use Rattle.head.specs.Head.{head_ok};
ghost use Rattle.head.specs.Rules.{first_refusal, push_rules, pop_rules, timed_rules, drop_rules, show_rules, clock_rules, head_rules};

use crate::gate;
use crate::refusal::Refusal;
use crate::state::Head;
use window::push::Packet;

pub fn push(
    h: Head,
    words: usize,
    bytes: usize,
    time: i64,
    p: Packet,
    len: usize,
) -> Result<(), Refusal>
    ensures { result ≡ first_refusal (push_rules (head_ok h) h.window.capacity words bytes time h.latest p len) }
{
    gate::refuse_push(
        h.in_range(),
        h.window.capacity,
        words,
        bytes,
        time,
        h.latest,
        p,
        len,
    )
}

pub fn pop(h: Head, words: usize, bytes: usize, time: i64) -> Result<(), Refusal>
    ensures { result ≡ first_refusal (pop_rules (head_ok h) h.window.capacity words bytes time h.latest) }
{
    gate::refuse_pop(
        h.in_range(),
        h.window.capacity,
        words,
        bytes,
        time,
        h.latest,
    )
}

pub fn report(h: Head, words: usize, time: i64) -> Result<(), Refusal>
    ensures { result ≡ first_refusal (timed_rules (head_ok h) words (3 * h.window.capacity) time h.latest) }
{
    gate::head(h.in_range())?;
    gate::slots(words, h.window.capacity)?;
    gate::reading(time)?;
    gate::back(time, h.latest)
}

pub fn history(h: Head, words: usize, time: i64) -> Result<(), Refusal>
    ensures { result ≡ first_refusal (timed_rules (head_ok h) words 2048 time h.latest) }
{
    gate::head(h.in_range())?;
    gate::entries(words)?;
    gate::reading(time)?;
    gate::back(time, h.latest)
}

pub fn drop(h: Head, words: usize, first: u32, last: u32) -> Result<(), Refusal>
    ensures { result ≡ first_refusal (drop_rules (head_ok h) h.window.capacity words first last) }
{
    gate::head(h.in_range())?;
    gate::slots(words, h.window.capacity)?;
    gate::number(first)?;
    gate::number(last)
}

pub fn show(h: Head, words: usize, bytes: usize, number: u32) -> Result<(), Refusal>
    ensures { result ≡ first_refusal (show_rules (head_ok h) h.window.capacity words bytes number) }
{
    gate::head(h.in_range())?;
    gate::slots(words, h.window.capacity)?;
    gate::payloads(bytes, h.window.capacity)?;
    gate::number(number)
}

pub fn clock(h: Head, time: i64) -> Result<(), Refusal>
    ensures { result ≡ first_refusal (clock_rules (head_ok h) time h.latest) }
{
    gate::head(h.in_range())?;
    gate::reading(time)?;
    gate::back(time, h.latest)
}

pub fn head(h: Head) -> Result<(), Refusal>
    ensures { result ≡ first_refusal (head_rules (head_ok h)) }
{
    gate::head(h.in_range())
}
