// The history of full ACKs, history.rs: 01, "ACKs, RTT, rates". Its numbers are a value, its entries lie in a lent
// area of 2,048 words.
ghost use Rattle.std.specs.Prelude.{◌≡◌, ◌+◌, ◌-◌, ◌*◌, ◌<◌, ◌≤◌, ◌^◌, Ok, Some, length};
ghost use Rattle.acks.specs.History.{number_at, departure_at, write_ack, fresh_history, is_recent, none_due, is_worn, is_expired, first_kept, leaving, next_ack, first_after, ack_ended, append_of, full_ack_of, ack2_of, light_ack_of, cleared_of, history_ok};
ghost use Rattle.acks.specs.Ready.{HistoryReady};

// Entry i, under count, has the ACK number first + i and lies at (start + i) mod 1,024. `largest` is largest_ack2_dsn,
// `lastack` last_ack_dsn.
#[derive(Clone, Copy, PartialEq, Eq, Debug)]
pub struct History {
    pub start: usize,
    pub count: usize,
    pub first: u32,
    pub largest: u32,
    pub lastack: u32,
}

// A full ACK that is given: the history after it, and its number.
#[derive(Clone, Copy, PartialEq, Eq, Debug)]
pub struct Acked {
    pub history: History,
    pub number: u32,
}

// No ACK number is left after the newest.
#[derive(Clone, Copy, PartialEq, Eq, Debug)]
pub struct FasnWorn;

// The ACK2 of an ACK that is held: the history after it, and the interval since the ACK left.
#[derive(Clone, Copy, PartialEq, Eq, Debug)]
pub struct Answered {
    pub history: History,
    pub r: u32,
}

// The data number of the entry at p.
fn number_at(area: &[u64], p: usize) -> u32
    requires { 2 * p + 2 ≤ length area.now }
    ensures { result ≡ number_at area.now p }
{
    let i = 2 * p;
    (area[i] % 0x8000_0000) as u32
}

// Its departure, as a call at `time` reads it.
fn departure_at(area: &[u64], p: usize, time: i64) -> i64
    requires { 2 * p + 2 ≤ length area.now }
    ensures { result ≡ departure_at area.now p time }
{
    let i = 2 * p + 1;
    let departure = (area[i] % 0x1000_0000_0000_0000) as i64;
    departure.min(time)
}

// Puts an entry at p; every other word stays.
fn write_ack(area: &mut [u64], p: usize, number: u32, time: i64)
    requires { 2 * p + 2 ≤ length area.old }
    ensures { area.new ≡ write_ack area.old p number time }
{
    let i = 2 * p;
    area[i] = number as u64;
    area[i + 1] = time.unsigned_abs();
}

// Whether the newest entry, at p, is too recent for another ACK.
fn is_recent(area: &[u64], p: usize, time: i64, mean: u32, lrsn: u32) -> bool
    requires { 2 * p + 2 ≤ length area.now }
    ensures { result ≡ is_recent area.now p time mean lrsn }
{
    let newest = number_at(area, p);
    let interval = numbers::instant::since(time, departure_at(area, p, time));
    let before = numbers::seq::is_before(lrsn, newest);
    before | ((lrsn == newest) & ((interval as u64) < 2 * (mean as u64)))
}

// Whether the departure of the entry at p is more than `wait` ago.
fn is_expired(area: &[u64], p: usize, time: i64, wait: u64) -> bool
    requires { (2 * p + 2 ≤ length area.now) × (wait < 2 ^ 34) }
    ensures { result ≡ is_expired area.now p time wait }
{
    departure_at(area, p, time) + (wait as i64) < time
}

// Of the entries but the newest, the first that is not expired, else the newest.
fn first_kept(area: &[u64], start: usize, count: usize, time: i64, wait: u64) -> usize
    requires { (start < 1024) × (count ≤ 1024) × (2048 ≤ length area.now) × (wait < 2 ^ 34) }
    ensures { result ≡ first_kept area.now start time wait 0 (count - 1) }
{
    let newest = count.saturating_sub(1);
    for i in 0..newest {
        if !is_expired(area, (start + i) % 1024, time, wait) {
            return i;
        }
    }
    newest
}

// How many entries leave the front before one is appended.
fn leaving(area: &[u64], start: usize, count: usize, time: i64, wait: u64) -> usize
    requires { (start < 1024) × (count ≤ 1024) × (2048 ≤ length area.now) × (wait < 2 ^ 34) }
    ensures { result ≡ leaving area.now start count time wait }
{
    let gone = first_kept(area, start, count, time, wait);
    if count - gone == 1024 { gone + 1 } else { gone }
}

impl History {
    pub const LIGHT_ACK_PACKET_INTERVAL: u32 = 64;

    pub fn new(number: u32) -> Self
        ensures { result ≡ fresh_history number }
    {
        History {
            start: 0,
            count: 0,
            first: 1,
            largest: number,
            lastack: number,
        }
    }

    fn none_due(self, area: &[u64], time: i64, mean: u32, lrsn: u32) -> bool
        requires { HistoryReady self area.now }
        ensures { result ≡ none_due self area.now time mean lrsn }
    {
        if self.largest == lrsn {
            return true;
        }
        if self.count == 0 {
            return false;
        }
        is_recent(
            area,
            (self.start + (self.count - 1)) % 1024,
            time,
            mean,
            lrsn,
        )
    }

    fn is_worn(self) -> bool
        requires { (1 ≤ self.first) × (self.count ≤ 1024) }
        ensures { result ≡ is_worn self }
    {
        let newest = (self.first as u64) + (self.count as u64) - 1;
        (0 < self.count) & (newest == 0xffff_ffff)
    }

    fn next_number(self) -> u32
        requires { (1 ≤ self.first) × (self.first + self.count < 2 ^ 32) }
        ensures { result ≡ next_ack self }
    {
        if self.count == 0 {
            return 1;
        }
        self.first + (self.count as u32)
    }

    // The first ACK number after n have left the front; an empty history begins again at 1.
    fn first_after(self, n: usize) -> u32
        requires { self.first + n < 2 ^ 32 }
        ensures { result ≡ first_after self n }
    {
        if self.count == 0 {
            return 1;
        }
        self.first + (n as u32)
    }

    // Removes what leaves the front, then appends an ACK of lrsn.
    fn append(self, area: &mut [u64], time: i64, wait: u64, lrsn: u32) -> Acked
        requires { HistoryReady self area.old × (wait < 2 ^ 34) × (self.first + self.count < 2 ^ 32) }
        ensures { ack_ended (Ok (Some result)) area.new ≡ append_of self area.old time wait lrsn }
    {
        let number = self.next_number();
        let n = leaving(area, self.start, self.count, time, wait);
        let first = self.first_after(n);
        let start = (self.start + n) % 1024;
        let left = self.count - n;
        write_ack(area, (start + left) % 1024, lrsn, time);
        Acked {
            history: History {
                start,
                count: left + 1,
                first,
                lastack: lrsn,
                ..self
            },
            number,
        }
    }

    // A full ACK of lrsn, if one is due; the room is the caller's question. Whether it is due is asked before anything
    // is removed.
    pub fn next_full_ack(
        self,
        area: &mut [u64],
        time: i64,
        mean: u32,
        latency: u32,
        lrsn: u32,
    ) -> Result<Option<Acked>, FasnWorn>
        requires { HistoryReady self area.old }
        ensures { ack_ended result area.new ≡ full_ack_of self area.old time mean latency lrsn }
    {
        if self.none_due(area, time, mean, lrsn) {
            return Ok(None);
        }
        if self.is_worn() {
            return Err(FasnWorn);
        }
        let wait = (latency as u64) + 2 * (mean as u64);
        Ok(Some(self.append(area, time, wait, lrsn)))
    }

    // The ACK2 of a full ACK: its data number, and the interval since it left.
    pub fn calculate_ack2(self, area: &[u64], time: i64, number: u32) -> Option<Answered>
        requires { HistoryReady self area.now }
        ensures { result ≡ ack2_of self area.now time number }
    {
        if number < self.first {
            return None;
        }
        let i = (number - self.first) as usize;
        if self.count <= i {
            return None;
        }
        let p = (self.start + i) % 1024;
        let r = numbers::instant::since(time, departure_at(area, p, time));
        Some(Answered {
            history: History {
                largest: number_at(area, p),
                ..self
            },
            r,
        })
    }

    // A light ACK of lrsn, if it is far enough past the last ACK: the history after it.
    pub fn next_light_ack(self, lrsn: u32) -> Option<Self>
        ensures { result ≡ light_ack_of self lrsn }
    {
        let at = numbers::seq::sum(self.lastack, History::LIGHT_ACK_PACKET_INTERVAL);
        if numbers::seq::is_before(lrsn, at) {
            return None;
        }
        Some(History {
            lastack: lrsn,
            ..self
        })
    }

    pub fn clear(self, lrsn: u32) -> Self
        ensures { result ≡ cleared_of self lrsn }
    {
        History {
            count: 0,
            largest: lrsn,
            ..self
        }
    }

    // The count is tested first, so that the newest number can be summed.
    pub fn in_range(self) -> bool
        ensures { result ≡ history_ok self }
    {
        if 1024 < self.count {
            return false;
        }
        let newest = (self.first as u64) + (self.count as u64);
        (self.start < 1024)
            & (1 <= self.first)
            & (newest <= 0x1_0000_0000)
            & (self.largest < 0x8000_0000)
            & (self.lastack < 0x8000_0000)
    }
}
