// The ring of slots and the places of payloads: 01, "Head and lent areas".
ghost use Rattle.std.specs.Prelude.{◌≡◌, ◌+◌, ◌<◌, ◌≤◌, ◌^◌};
ghost use Rattle.slots.specs.Ring.{slot_of};
ghost use Rattle.slots.specs.Inner.{next_slot};

// The slot of entry i.
pub fn slot(capacity: usize, start: usize, i: usize) -> usize
    requires { (start < capacity) × (i ≤ capacity) × (capacity ≤ 2 ^ 32) }
    ensures { result ≡ slot_of capacity start i }
{
    let s = start + i;
    if s < capacity { s } else { s - capacity }
}

// The slot after s, for a walk: one test, no remainder.
pub fn next_slot(capacity: usize, s: usize) -> usize
    requires { (s < capacity) × (capacity ≤ 2 ^ 32) }
    ensures { result ≡ next_slot capacity s }
{
    let t = s + 1;
    if t < capacity { t } else { 0 }
}
