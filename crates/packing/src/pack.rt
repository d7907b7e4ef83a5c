// A head into its words, part by part.
ghost use Rattle.std.specs.Prelude.{◌≡◌, ◌≤◌};
ghost use Rattle.packing.specs.Packed.{pack_of, unpack_of};
ghost use Rattle.packing.specs.Holds.{Numbers, Whole, Number, ArrivalsHolds, LinksHolds, RttHolds, WindowHolds, HistoryHolds, BaseHolds, StatsHolds};
ghost use Rattle.packing.specs.Puts.{put_numbers, put_settings, put_window, put_base, put_stats, put_rtt, put_arrivals, put_links, put_history};

use crate::words;
use acks::history::History;
use acks::rtt::Rtt;
use clock::time::SynchronizedRemoteClock;
use head::state::Head;
use intervals::rates::{Arrivals, Links};
use window::Window;

// Sixteen numbers, from word `at` on.
fn put_sixteen(ws: &mut [u64; 79], at: usize, numbers: [u32; 16])
    requires { at ≤ 63 }
    ensures { (ws.new ≡ put_numbers ws.old at numbers 16) × Numbers numbers }
{
    for (i, n) in numbers.iter().enumerate() {
        ws[at + i] = words::of_number(*n);
    }
}

pub fn put_window(ws: &mut [u64; 79], w: Window)
    ensures { (ws.new ≡ put_window ws.old w) × WindowHolds w }
{
    ws[1] = words::of_size(w.capacity);
    ws[2] = words::of_size(w.start);
    ws[3] = words::of_size(w.held);
    ws[4] = words::of_number(w.seqno0);
    ws[5] = words::of_number(w.lrsn);
}

pub fn put_base(ws: &mut [u64; 79], k: SynchronizedRemoteClock)
    ensures { (ws.new ≡ put_base ws.old k) × BaseHolds k }
{
    ws[8] = words::of_whole(k.base.time);
    ws[9] = words::of_number(k.base.stamp);
    ws[10] = words::of_set(k.last);
    ws[11] = words::of_time(k.last);
}

pub fn put_stats(ws: &mut [u64; 79], k: SynchronizedRemoteClock)
    ensures { (ws.new ≡ put_stats ws.old k) × StatsHolds k }
{
    ws[12] = words::of_flag(k.seen);
    ws[13] = words::of_float(k.stats.mean);
    ws[14] = words::of_float(k.stats.squares);
    ws[15] = words::of_number(k.stats.count);
}

fn put_rtt(ws: &mut [u64; 79], t: Rtt)
    ensures { (ws.new ≡ put_rtt ws.old t) × RttHolds t }
{
    ws[16] = words::of_number(t.mean);
    ws[17] = words::of_number(t.variance);
}

fn put_arrivals(ws: &mut [u64; 79], a: Arrivals)
    ensures { (ws.new ≡ put_arrivals ws.old a) × ArrivalsHolds a }
{
    put_sixteen(ws, 18, a.gaps);
    put_sixteen(ws, 34, a.sizes);
    ws[50] = words::of_size(a.at);
    ws[51] = words::of_size(a.count);
    ws[52] = words::of_set(a.last);
    ws[53] = words::of_time(a.last);
}

fn put_links(ws: &mut [u64; 79], l: Links)
    ensures { (ws.new ≡ put_links ws.old l) × LinksHolds l }
{
    put_sixteen(ws, 54, l.gaps);
    ws[70] = words::of_size(l.at);
    ws[71] = words::of_size(l.count);
    ws[72] = words::of_set(l.probe);
    ws[73] = words::of_time(l.probe);
}

pub fn put_history(ws: &mut [u64; 79], y: History)
    ensures { (ws.new ≡ put_history ws.old y) × HistoryHolds y }
{
    ws[74] = words::of_size(y.start);
    ws[75] = words::of_size(y.count);
    ws[76] = words::of_number(y.first);
    ws[77] = words::of_number(y.largest);
    ws[78] = words::of_number(y.lastack);
}

fn put_settings(ws: &mut [u64; 79], latest: i64, latency: u32, dropping: bool)
    ensures { (ws.new ≡ put_settings ws.old latest latency dropping) × (Whole latest × Number latency) }
{
    ws[0] = words::of_whole(latest);
    ws[6] = words::of_number(latency);
    ws[7] = words::of_flag(dropping);
}

pub fn pack(h: Head) -> [u64; 79]
    ensures { (result ≡ pack_of h) × (unpack_of result ≡ h) }
{
    let mut ws: [u64; 79] = [0; 79];
    put_settings(&mut ws, h.latest, h.latency, h.dropping);
    put_window(&mut ws, h.window);
    put_base(&mut ws, h.clock);
    put_stats(&mut ws, h.clock);
    put_rtt(&mut ws, h.rtt);
    put_arrivals(&mut ws, h.arrivals);
    put_links(&mut ws, h.links);
    put_history(&mut ws, h.history);
    ws
}
