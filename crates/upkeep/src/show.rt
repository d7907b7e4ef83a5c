// A payload shown where it lies, and the second question: 01, "Window", with refusals 1, 2 and 5.
ghost use Rattle.std.specs.Prelude.{◌≡◌, length};
ghost use Rattle.window.specs.Show.{ShownAt};
ghost use Rattle.upkeep.specs.Show.{place_call_of, shown_ended, shown_call_of};

use head::refusal::Refusal;
use head::state::Head;
use window::show::Part;

// Where the payload of a number lies, or nowhere.
pub fn place_in(h: Head, words: &[u64], size: usize, number: u32) -> Option<Part>
    ensures { result ≡ place_call_of h words.now size number }
{
    match head::refuse::show(h, words.len(), size, number) {
        Ok(()) => window::show::find(h.window, words, number),
        Err(_) => None,
    }
}

pub fn show<'a>(h: Head, words: &[u64], bytes: &'a [u8], number: u32) -> &'a [u8]
    ensures { ShownAt (place_call_of h words.now (length bytes.now) number) bytes.entry result }
{
    match place_in(h, words, bytes.len(), number) {
        Some(p) => window::show::part_at(bytes, p.at, p.len),
        None => window::show::part_at(bytes, 0, 0),
    }
}

// Whether a part is that of a received entry, or else why it is empty: another number, or a refusal.
pub fn shown(h: Head, words: &[u64], bytes: &[u8], number: u32) -> Result<bool, Refusal>
    ensures { shown_ended result ≡ shown_call_of h words.now (length bytes.now) number }
{
    head::refuse::show(h, words.len(), bytes.len(), number)?;
    Ok(window::show::find(h.window, words, number).is_some())
}
