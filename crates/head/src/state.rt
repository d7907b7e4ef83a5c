// The head of a receiver: 01, "Head and lent areas". It goes into a call by value and comes out of it.
ghost use Rattle.std.specs.Prelude.{◌≡◌, false};
ghost use Rattle.head.specs.Head.{fresh_head, head_ok, nowhere, made_of};
ghost use Rattle.head.specs.Parts.{with_window, with_clock, with_rtt, with_rates, with_history, with_latest};
ghost use Rattle.head.specs.Rules.{first_refusal, make_rules};

use crate::gate::refuse_if;
use crate::refusal::Refusal;
use acks::history::History;
use acks::rtt::Rtt;
use clock::time::SynchronizedRemoteClock;
use intervals::rates::{Arrivals, Links};
use window::Window;

// Its numbers are a caller's and may be any, case_refusals' are out of range on purpose. So what in_range shows of them
// (a mean, a latency, a reference time, places in a ring) is required below where a sum needs it, and is no type's
// invariant: such types would be made of the head's numbers anew in each call.
#[derive(Clone, Copy, PartialEq, Debug)]
pub struct Head {
    pub latest: i64,
    pub window: Window,
    pub latency: u32,
    pub dropping: bool,
    pub clock: SynchronizedRemoteClock,
    pub rtt: Rtt,
    pub arrivals: Arrivals,
    pub links: Links,
    pub history: History,
}

fn refuse_make(start: i64, latency: u32, first: u32, capacity: usize) -> Result<(), Refusal>
    ensures { result ≡ first_refusal (make_rules start latency first capacity) }
{
    refuse_if(!numbers::instant::is_reading(start), Refusal::BadSetting)?;
    refuse_if(65535000 < latency, Refusal::BadSetting)?;
    refuse_if(0x8000_0000 <= first, Refusal::BadSetting)?;
    refuse_if(capacity < 1, Refusal::BadSetting)?;
    refuse_if(8192 < capacity, Refusal::BadSetting)
}

impl Head {
    fn fresh(start: i64, latency: u32, dropping: bool, first: u32, capacity: usize) -> Self
        ensures { result ≡ fresh_head start latency dropping first capacity }
    {
        Head {
            window: Window {
                capacity,
                start: 0,
                held: 0,
                seqno0: first,
                lrsn: first,
            },
            latency,
            dropping,
            clock: SynchronizedRemoteClock::new(start),
            rtt: Rtt::new(),
            arrivals: Arrivals::new(),
            links: Links::new(),
            history: History::new(first),
            latest: start,
        }
    }

    // The only test in making is of its settings; the areas are lent to each call. The five come one by one, as C has
    // them and as the theorems of kept, ledger and thm_replay speak of them.
    pub fn new(
        start: i64,
        latency: u32,
        dropping: bool,
        first: u32,
        capacity: usize,
    ) -> Result<Self, Refusal>
        ensures { result ≡ made_of start latency dropping first capacity }
    {
        refuse_make(start, latency, first, capacity)?;
        Ok(Head::fresh(start, latency, dropping, first, capacity))
    }

    // What stands where no head was made: of capacity 0, so that each call refuses it with 1.
    pub fn nowhere() -> Self
        ensures head { result ≡ nowhere }
        ensures refused { head_ok result ≡ false }
    {
        Head::fresh(0, 0, false, 0, 0)
    }

    // Refusal 1, by parts. `&` on purpose: each call pays for this test, and so it has no branches.
    pub fn in_range(self) -> bool
        ensures { result ≡ head_ok self }
    {
        self.window.in_range()
            & (self.latency <= 65535000)
            & self.clock.in_range()
            & self.rtt.in_range()
            & self.arrivals.in_range()
            & self.links.in_range()
            & self.history.in_range()
            & numbers::instant::is_reading(self.latest)
    }

    // The head with another part.

    pub fn with_window(self, window: Window) -> Self
        ensures { result ≡ with_window self window }
    {
        Head { window, ..self }
    }

    pub fn with_clock(self, clock: SynchronizedRemoteClock) -> Self
        ensures { result ≡ with_clock self clock }
    {
        Head { clock, ..self }
    }

    pub fn with_rtt(self, rtt: Rtt) -> Self
        ensures { result ≡ with_rtt self rtt }
    {
        Head { rtt, ..self }
    }

    pub fn with_rates(self, arrivals: Arrivals, links: Links) -> Self
        ensures { result ≡ with_rates self arrivals links }
    {
        Head {
            arrivals,
            links,
            ..self
        }
    }

    pub fn with_history(self, history: History) -> Self
        ensures { result ≡ with_history self history }
    {
        Head { history, ..self }
    }

    pub fn with_latest(self, time: i64) -> Self
        ensures { result ≡ with_latest self time }
    {
        Head {
            latest: time,
            ..self
        }
    }
}
