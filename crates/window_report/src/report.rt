// The loss report, buffer.rs `prepare_loss_list`: 01, "Window".
ghost use Rattle.std.specs.Prelude.{◌≡◌, ◌+◌, ◌-◌, ◌*◌, ◌<◌, ◌≤◌, ◌^◌, length, Ok};
ghost use Rattle.slots.specs.Ready.{Fit};
ghost use Rattle.window.specs.Ready.{Good};
ghost use Rattle.window_report.specs.Report.{is_due, k_after, report_ended, run_words, closed, runs_after, runs_to, run_put, needed, report_of};
ghost use Rattle.window_report.specs.Inner.{Within, reporting, report_one, reported_to, due_from, any_due};

use slots::entry::Entry;

// Words so far, and the first entry of the run of reported entries that is going on, if one is.
#[derive(Clone, Copy, PartialEq, Eq, Debug)]
pub struct Runs {
    pub words: usize,
    pub first: Option<usize>,
}

// Refusal 12: the report needs more words than lent.
#[derive(Clone, Copy, PartialEq, Eq, Debug)]
pub struct ListShort;

// A lost entry whose feedback time is more than k mean round trips ago.
fn is_due(e: Entry, time: i64, mean: u32) -> bool
    requires { Fit e × (mean < 2 ^ 31) }
    ensures { result ≡ is_due time mean e }
{
    match e {
        Entry::Lost { k, feedback } => (feedback as i64) + (k as i64) * (mean as i64) < time,
        _ => false,
    }
}

// k of a reported entry.
fn k_after(e: Entry) -> u32
    requires { Fit e }
    ensures { result ≡ k_after e }
{
    match e {
        Entry::Lost { k, .. } => (k + 1).min(65535),
        _ => 0,
    }
}

// The words of the run that ends before entry i.
fn run_words(r: Runs, i: usize) -> usize
    requires { Within r i × (i ≤ 8192) }
    ensures { result ≡ run_words r i }
{
    match r.first {
        Some(first) => if first + 1 == i { 1 } else { 2 },
        None => 0,
    }
}

fn runs_closed(r: Runs, i: usize) -> Runs
    requires { Within r i × (i ≤ 8192) }
    ensures { result ≡ closed r i }
{
    Runs {
        words: r.words + run_words(r, i),
        first: None,
    }
}

// Entry i goes on with the run, begins one, or ends it.
fn runs_after(r: Runs, i: usize, due: bool) -> Runs
    requires { Within r i × (i ≤ 8192) }
    ensures { result ≡ runs_after r i due }
{
    if !due {
        return runs_closed(r, i);
    }
    match r.first {
        Some(_) => r,
        None => Runs {
            first: Some(i),
            ..r
        },
    }
}

// The runs of all entries, and so how many words they need.
fn count_runs(w: window::Window, words: &[u64], time: i64, mean: u32) -> Runs
    requires { Good w words.now × (mean < 2 ^ 31) }
    ensures { result ≡ runs_to w words.now time mean w.held }
{
    let mut r = Runs {
        words: 0,
        first: None,
    };
    let mut s = w.start;
    for i in 0..w.held {
        let due = is_due(slots::entry::read_at(words, s), time, mean);
        r = runs_after(r, i, due);
        s = slots::ring::next_slot(w.capacity, s);
    }
    r
}

// How many words the report needs.
fn words_needed(w: window::Window, words: &[u64], time: i64, mean: u32) -> usize
    requires { Good w words.now × (mean < 2 ^ 31) }
    ensures { result ≡ needed w words.now time mean }
{
    runs_closed(count_runs(w, words, time, mean), w.held).words
}

// The run that ends before entry i: its number, or its first with bit 31 set and its last.
fn run_put(w: window::Window, list: &mut [u32], r: Runs, i: usize)
    requires { Within r i × (i ≤ 8192) × (r.words + run_words r i ≤ length list.old) }
    ensures { list.new ≡ run_put w list.old r i }
{
    let Some(begun) = r.first else {
        return;
    };
    let at = r.words;
    let first = window::number(w, begun);
    if begun + 1 == i {
        list[at] = first;
        return;
    }
    let last = window::number(w, i - 1);
    list[at] = 0x8000_0000 + first;
    list[at + 1] = last;
}

// An entry that is not due ends the run before it; most often none is going.
fn run_end(w: window::Window, list: &mut [u32], r: Runs, i: usize) -> Runs
    requires { Within r i × (i ≤ 8192) × (r.words + run_words r i ≤ length list.old) }
    ensures { (list.new ≡ run_put w list.old r i) × (result ≡ closed r i) }
{
    match r.first {
        Some(_) => {
            run_put(w, list, r, i);
            runs_closed(r, i)
        }
        None => r,
    }
}

// Entry i, which lies in slot s: reported if it is due; if not, the run before it is written.
fn report_one(
    w: window::Window,
    words: &mut [u64],
    list: &mut [u32],
    time: i64,
    mean: u32,
    s: usize,
    i: usize,
    r: Runs,
) -> Runs
    requires { (3 * s + 3 ≤ length words.old) × (mean < 2 ^ 31) × Within r i × (i ≤ 8192) × (r.words + run_words r i ≤ length list.old) }
    ensures { reporting words.new list.new result ≡ report_one w time mean s i (reporting words.old list.old r) }
{
    let e = slots::entry::read_at(words, s);
    if is_due(e, time, mean) {
        let k = k_after(e);
        let feedback = time.unsigned_abs();
        slots::entry::write_report(words, s, k, feedback);
        return runs_after(r, i, true);
    }
    run_end(w, list, r, i)
}

// All entries. What is left to do is to write the run that is going on at the end.
fn report_entries(
    w: window::Window,
    words: &mut [u64],
    list: &mut [u32],
    time: i64,
    mean: u32,
) -> Runs
    requires { Good w words.old × (mean < 2 ^ 31) × (needed w words.old time mean ≤ length list.old) }
    ensures { reporting words.new list.new result ≡ reported_to w words.old time mean list.old w.held }
{
    let mut r = Runs {
        words: 0,
        first: None,
    };
    let mut s = w.start;
    for i in 0..w.held {
        r = report_one(w, words, list, time, mean, s, i, r);
        s = slots::ring::next_slot(w.capacity, s);
    }
    r
}

// The whole report, in a list that has room for it. Where nothing is due, the areas stay.
fn report_in(
    w: window::Window,
    words: &mut [u64],
    list: &mut [u32],
    time: i64,
    mean: u32,
) -> Option<usize>
    requires { Good w words.old × (mean < 2 ^ 31) × (needed w words.old time mean ≤ length list.old) }
    ensures { report_ended (Ok result) words.new list.new ≡ report_of w words.old time mean list.old }
{
    let r = report_entries(w, words, list, time, mean);
    let q = run_end(w, list, r, w.held);
    if q.words == 0 {
        return None;
    }
    Some(q.words)
}

// The report in a list that may be too short for it: its words are counted first.
fn report_counted(
    w: window::Window,
    words: &mut [u64],
    list: &mut [u32],
    time: i64,
    mean: u32,
) -> Result<Option<usize>, ListShort>
    requires { Good w words.old × (mean < 2 ^ 31) }
    ensures { report_ended result words.new list.new ≡ report_of w words.old time mean list.old }
{
    let n = words_needed(w, words, time, mean);
    if n == 0 {
        return Ok(None);
    }
    if list.len() < n {
        return Err(ListShort);
    }
    Ok(report_in(w, words, list, time, mean))
}

// Whether one of the slots from `from` to before `to` holds an entry that is due.
fn due_between(words: &[u64], from: usize, to: usize, time: i64, mean: u32) -> bool
    requires { (3 * to ≤ length words.now) × (mean < 2 ^ 31) }
    ensures { result ≡ due_from words.now time mean from (to - from) }
{
    for s in from..to {
        if is_due(slots::entry::read_at(words, s), time, mean) {
            return true;
        }
    }
    false
}

// Whether some entry is due. Where none is, the report ends with this walk: it minds no runs, and takes the ring as
// one or two stretches of slots, so that a step is one addition.
fn any_due(w: window::Window, words: &[u64], time: i64, mean: u32) -> bool
    requires { Good w words.now × (mean < 2 ^ 31) }
    ensures { result ≡ any_due w words.now time mean }
{
    let end = w.start + w.held;
    if end <= w.capacity {
        return due_between(words, w.start, end, time, mean);
    }
    if due_between(words, w.start, w.capacity, time, mean) {
        return true;
    }
    due_between(words, 0, end - w.capacity, time, mean)
}

// The loss report: how many words it has, if an entry is due. On ListShort, and where nothing is due, the areas stay.
// It never needs more words than there are entries.
pub fn loss_report(
    w: window::Window,
    words: &mut [u64],
    list: &mut [u32],
    time: i64,
    mean: u32,
) -> Result<Option<usize>, ListShort>
    requires { Good w words.old × (mean < 2 ^ 31) }
    ensures { report_ended result words.new list.new ≡ report_of w words.old time mean list.old }
{
    if !any_due(w, words, time, mean) {
        return Ok(None);
    }
    if w.held <= list.len() {
        return Ok(report_in(w, words, list, time, mean));
    }
    report_counted(w, words, list, time, mean)
}
