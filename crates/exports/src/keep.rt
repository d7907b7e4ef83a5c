// What a call leaves beside its areas: the head's words, those of its head unless it refuses, the answer's cells, and
// the number of its refusal.
ghost use Rattle.std.specs.Prelude.{◌≡◌, List, ℕ};
ghost use Rattle.cells.specs.Cells.{cells_of, refusal_of, answer_line};
ghost use Rattle.exports.specs.Calls.{left, after};

use cells::Cells;
use head::refusal::Refusal;
use head::state::Head;

// Of a call that leaves the head's words to others.
pub fn say<A: Cells + Drop>(answer: &mut [i64; 10], a: Result<A, Refusal>) -> u32
    ensures { (result ≡ refusal_of a) × (answer.new ≡ cells_of (answer_line A.line a)) }
{
    let n = cells::refusal(&a);
    *answer = a.cells();
    n
}

pub fn keep<A: Cells + Drop>(
    words: &mut [u64; 79],
    answer: &mut [i64; 10],
    head: Head,
    a: Result<A, Refusal>,
) -> u32
    ensures { (areas : List (List ℕ)) → left result words.new answer.new areas ≡ after words.old (refusal_of a) head (cells_of (answer_line A.line a)) areas }
{
    if a.is_ok() {
        *words = packing::pack::pack(head);
    }
    say(answer, a)
}
