// Words into the head that they say, part by part. Words that are not formed give a head that every call refuses.
ghost use Rattle.std.specs.Prelude.{◌≡◌, ◌≤◌};
ghost use Rattle.packing.specs.Packed.{sixteen_of, numbers_formed, window_of, base_of, stats_of, clock_of, rtt_of, arrivals_of, links_of, history_of, head_of, first_formed, rates_formed, last_formed, formed, unpack_of};

use crate::words;
use acks::history::History;
use acks::rtt::Rtt;
use clock::base::TimeBase;
use clock::stats::OnlineStats;
use clock::time::SynchronizedRemoteClock;
use head::state::Head;
use intervals::rates::{Arrivals, Links};
use window::Window;

// Sixteen numbers, from word `at` on.
fn sixteen(ws: &[u64; 79], at: usize) -> [u32; 16]
    requires { at ≤ 63 }
    ensures { result ≡ sixteen_of ws.now at }
{
    let mut numbers: [u32; 16] = [0; 16];
    for (i, n) in numbers.iter_mut().enumerate() {
        *n = words::number(ws[at + i]);
    }
    numbers
}

// Whether those words are numbers. The loop stays, since the proof of a fold in its place left the return open.
fn are_numbers(ws: &[u64; 79], at: usize) -> bool
    requires { at ≤ 63 }
    ensures { result ≡ numbers_formed ws.now at 16 }
{
    let mut ok = true;
    for i in 0..16 {
        ok = ok & (ws[at + i] < 0x1_0000_0000);
    }
    ok
}

pub fn window(ws: &[u64; 79]) -> Window
    ensures { result ≡ window_of ws.now }
{
    Window {
        capacity: words::size(ws[1]),
        start: words::size(ws[2]),
        held: words::size(ws[3]),
        seqno0: words::number(ws[4]),
        lrsn: words::number(ws[5]),
    }
}

pub fn base(ws: &[u64; 79]) -> TimeBase
    ensures { result ≡ base_of ws.now }
{
    TimeBase {
        time: words::whole(ws[8]),
        stamp: words::number(ws[9]),
    }
}

fn stats(ws: &[u64; 79]) -> OnlineStats
    ensures { result ≡ stats_of ws.now }
{
    OnlineStats {
        mean: words::float(ws[13]),
        squares: words::float(ws[14]),
        count: words::number(ws[15]),
    }
}

pub fn clock(ws: &[u64; 79]) -> SynchronizedRemoteClock
    ensures { result ≡ clock_of ws.now }
{
    SynchronizedRemoteClock {
        base: base(ws),
        last: words::moment(ws[10], ws[11]),
        seen: words::flag(ws[12]),
        stats: stats(ws),
    }
}

pub fn rtt(ws: &[u64; 79]) -> Rtt
    ensures { result ≡ rtt_of ws.now }
{
    Rtt {
        mean: words::number(ws[16]),
        variance: words::number(ws[17]),
    }
}

pub fn arrivals(ws: &[u64; 79]) -> Arrivals
    ensures { result ≡ arrivals_of ws.now }
{
    Arrivals {
        gaps: sixteen(ws, 18),
        sizes: sixteen(ws, 34),
        at: words::size(ws[50]),
        count: words::size(ws[51]),
        last: words::moment(ws[52], ws[53]),
    }
}

pub fn links(ws: &[u64; 79]) -> Links
    ensures { result ≡ links_of ws.now }
{
    Links {
        gaps: sixteen(ws, 54),
        at: words::size(ws[70]),
        count: words::size(ws[71]),
        probe: words::moment(ws[72], ws[73]),
    }
}

pub fn history(ws: &[u64; 79]) -> History
    ensures { result ≡ history_of ws.now }
{
    History {
        start: words::size(ws[74]),
        count: words::size(ws[75]),
        first: words::number(ws[76]),
        largest: words::number(ws[77]),
        lastack: words::number(ws[78]),
    }
}

// What the words say, each read within its range.
fn head(ws: &[u64; 79]) -> Head
    ensures { result ≡ head_of ws.now }
{
    Head {
        latest: words::whole(ws[0]),
        window: window(ws),
        latency: words::number(ws[6]),
        dropping: words::flag(ws[7]),
        clock: clock(ws),
        rtt: rtt(ws),
        arrivals: arrivals(ws),
        links: links(ws),
        history: history(ws),
    }
}

// The words of the window, the settings and the clock.
pub fn first_formed(ws: &[u64; 79]) -> bool
    ensures { result ≡ first_formed ws.now }
{
    (ws[4] < 0x1_0000_0000)
        & (ws[5] < 0x1_0000_0000)
        & (ws[6] < 0x1_0000_0000)
        & (ws[7] < 2)
        & (ws[9] < 0x1_0000_0000)
        & words::is_moment(ws[10], ws[11])
        & (ws[12] < 2)
        & words::is_float(ws[13])
        & words::is_float(ws[14])
        & (ws[15] < 0x1_0000_0000)
}

// The words of the round trip, the rates and the history.
pub fn last_formed(ws: &[u64; 79]) -> bool
    ensures { result ≡ last_formed ws.now }
{
    (ws[16] < 0x1_0000_0000)
        & (ws[17] < 0x1_0000_0000)
        & words::is_moment(ws[52], ws[53])
        & words::is_moment(ws[72], ws[73])
        & (ws[76] < 0x1_0000_0000)
        & (ws[77] < 0x1_0000_0000)
        & (ws[78] < 0x1_0000_0000)
}

pub fn rates_formed(ws: &[u64; 79]) -> bool
    ensures { result ≡ rates_formed ws.now }
{
    are_numbers(ws, 18) & are_numbers(ws, 34) & are_numbers(ws, 54)
}

// The rates' 48 words are tested apart from the rest, which lets the compiler take several at a time.
fn formed(ws: &[u64; 79]) -> bool
    ensures { result ≡ formed ws.now }
{
    if first_formed(ws) & last_formed(ws) {
        return rates_formed(ws);
    }
    false
}

pub fn unpack(ws: &[u64; 79]) -> Head
    ensures { result ≡ unpack_of ws.now }
{
    if formed(ws) {
        return head(ws);
    }
    Head::nowhere()
}
