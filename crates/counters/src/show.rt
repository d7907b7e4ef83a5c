// Show and its second question, as the receiver has them: questions count nothing and leave head and counters to their
// caller. 01, "Window".
ghost use Rattle.std.specs.Prelude.{◌≡◌, length};
ghost use Rattle.window.specs.Show.{ShownAt};
ghost use Rattle.upkeep.specs.Show.{place_call_of, shown_ended, shown_call_of};

use head::refusal::Refusal;
use head::state::Head;

pub fn show<'a>(h: Head, words: &[u64], bytes: &'a [u8], number: u32) -> &'a [u8]
    ensures { ShownAt (place_call_of h words.now (length bytes.now) number) bytes.entry result }
{
    upkeep::show::show(h, words, bytes, number)
}

pub fn shown(h: Head, words: &[u64], bytes: &[u8], number: u32) -> Result<bool, Refusal>
    ensures { shown_ended result ≡ shown_call_of h words.now (length bytes.now) number }
{
    upkeep::show::shown(h, words, bytes, number)
}
