// What a call on a head leaves: the head after it, and its answer or its refusal.
ghost use Rattle.std.specs.Prelude.{◌≡◌, Err};

use crate::refusal::Refusal;
use crate::state::Head;

#[derive(Clone, Copy)]
pub struct Left<A> {
    pub head: Head,
    pub answer: Result<A, Refusal>,
}

impl<A> Left<A> {
    // A call that is refused leaves the head as it was given.
    pub fn refused(head: Head, refusal: Refusal) -> Left<A>
        ensures { result ≡ record { head = head; answer = Err refusal } }
    {
        Left {
            head,
            answer: Err(refusal),
        }
    }
}
