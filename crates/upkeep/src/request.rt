// The drop request, clear and room, arq.rs `handle_drop_request`, `clear` and `buffer_available`: 01, "Window".
ghost use Rattle.std.specs.Prelude.{◌≡◌};
ghost use Rattle.upkeep.specs.Request.{drop_ended, drop_call_of, cleared_of, clear_ended, clear_call_of, room_ended, room_call_of};

use head::left::Left;
use head::refusal::Refusal;
use head::state::Head;
use window::Window;

pub type Cleared = Left<()>;

// How many entries are given up. The head stays: a drop request changes lent words only.
pub fn handle_drop_request(
    h: Head,
    words: &mut [u64],
    first: u32,
    last: u32,
) -> Result<usize, Refusal>
    ensures { drop_ended result words.new ≡ drop_call_of h words.old first last }
{
    head::refuse::drop(h, words.len(), first, last)?;
    Ok(window_report::drop_request::drop_packets(h.window, words, first, last))
}

// Only held and the history's count and largest change.
fn emptied(h: Head) -> Head
    ensures { result ≡ cleared_of h }
{
    let window = Window {
        held: 0,
        ..h.window
    };
    let history = h.history.clear(window.lrsn);
    h.with_window(window).with_history(history)
}

pub fn clear(h: Head) -> Cleared
    ensures { clear_ended result ≡ clear_call_of h }
{
    match head::refuse::head(h) {
        Ok(()) => Cleared {
            head: emptied(h),
            answer: Ok(()),
        },
        Err(refusal) => Cleared::refused(h, refusal),
    }
}

pub fn buffer_available(h: Head) -> Result<usize, Refusal>
    ensures { room_ended result ≡ room_call_of h }
{
    head::refuse::head(h)?;
    Ok(window::room(h.window))
}
