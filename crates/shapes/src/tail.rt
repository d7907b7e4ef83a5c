// What follows a line's word: its values and the line's end. 01, "Trace, mark DLT".
ghost use Rattle.std.specs.Prelude.{[], ◌∷◌, map, ◌+◌, ◌*◌, ◌≤◌, length, take};
ghost use Rattle.head.specs.Paper.{plain};
ghost use Rattle.shapes.specs.Inner.{value_of, width_of, widths_of, room_of};
ghost use Rattle.shapes.specs.Shapes.{spaced, closed};
ghost use Rattle.shapes.specs.Ready.{Wrote};

use crate::part::{Value, newline, number, whole};

// A value after a space.
fn value(out: &mut [u8], at: usize, v: Value) -> usize
    requires { at + width_of v ≤ length out.old }
    ensures { Wrote out.old at (spaced (value_of v ∷ [])) (width_of v) result out.new }
{
    match v {
        Value::Plain(n) => number(out, at, n),
        Value::Whole(z) => whole(out, at, z),
        Value::Dash => text::put_bytes(out, at, b" -"),
    }
}

// Values, the line not yet ended.
fn some(out: &mut [u8], at: usize, list: &[Value]) -> usize
    requires { at + widths_of list.now ≤ length out.old }
    ensures { Wrote out.old at (spaced (map value_of list.now)) (widths_of list.now) result out.new }
{
    let mut cursor = at;
    for v in list {
        cursor = value(out, cursor, *v);
    }
    cursor
}

pub fn values(out: &mut [u8], at: usize, list: &[Value]) -> usize
    requires { at + room_of list.now ≤ length out.old }
    ensures { Wrote out.old at (closed (map value_of list.now)) (room_of list.now) result out.new }
{
    let p = some(out, at, list);
    newline(out, p)
}

// The words of a report. A loop of its own: one loop for words and values would take a closure with a contract.
fn words(out: &mut [u8], at: usize, list: &[u32]) -> usize
    requires { at + 21 * length list.now ≤ length out.old }
    ensures { Wrote out.old at (spaced (map plain list.now)) (21 * length list.now) result out.new }
{
    let mut cursor = at;
    for word in list {
        cursor = number(out, cursor, *word as u64);
    }
    cursor
}

// The first n words of a list.
pub fn report(out: &mut [u8], at: usize, list: &[u32], n: usize) -> usize
    requires n_in_bounds { n ≤ length list.now }
    requires n_in_bounds_2 { at + (21 * n + 1) ≤ length out.old }
    ensures { Wrote out.old at (closed (map plain (take n list.now))) (21 * n + 1) result out.new }
{
    let p = words(out, at, &list[..n]);
    newline(out, p)
}
