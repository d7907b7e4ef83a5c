// The pop call, arq.rs `pop_next_message`: 01, "Window", with refusals 1 to 4 and 11.
ghost use Rattle.std.specs.Prelude.{◌≡◌};
ghost use Rattle.receiver.specs.Message.{message_ended, popped_of, after_pop, taken_of, pop_call_of};
ghost use Rattle.window_pop.specs.Ready.{PopReady};

use clock::time::SynchronizedRemoteClock;
use head::left::Left;
use head::refusal::Refusal;
use head::state::Head;
use window::Window;
pub use window_pop::pop::PopAnswer as MessageAnswer;
use window_pop::pop::{OutShort, Popped};

pub type Given = Left<MessageAnswer>;

// The head with the window and clock after a pop, at a reading.
fn popped(h: Head, window: Window, clock: SynchronizedRemoteClock, time: i64) -> Head
    ensures { result ≡ popped_of h window clock time }
{
    h.with_window(window).with_clock(clock).with_latest(time)
}

// An output that is short leaves the head; all else moves it on.
fn after_pop(h: Head, pop: Result<Popped, OutShort>, time: i64) -> Given
    ensures { result ≡ after_pop h pop time }
{
    match pop {
        Ok(
            Popped {
                window,
                clock,
                answer,
            },
        ) => Given {
            head: popped(h, window, clock, time),
            answer: Ok(answer),
        },
        Err(refusal) => Given::refused(h, Refusal::from(refusal)),
    }
}

// The call, once nothing refuses it.
fn release(h: Head, words: &[u64], bytes: &[u8], out: &mut [u8], time: i64) -> Given
    requires { PopReady h.clock h.latency h.window words.now bytes.now time }
    ensures { message_ended result out.new ≡ taken_of h words.now bytes.now out.old time }
{
    let pop = window_pop::pop::pop(
        h.window, h.clock, h.latency, h.dropping, words, bytes, out, time,
    );
    after_pop(h, pop, time)
}

pub fn pop_next_message(h: Head, words: &[u64], bytes: &[u8], out: &mut [u8], time: i64) -> Given
    ensures { message_ended result out.new ≡ pop_call_of h words.now bytes.now out.old time }
{
    if let Err(refusal) = head::refuse::pop(h, words.len(), bytes.len(), time) {
        return Given::refused(h, refusal);
    }
    release(h, words, bytes, out, time)
}
