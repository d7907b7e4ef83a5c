// Copies a run of bytes: into a slot's payload, out of it, and into the text of a line.
#![tactic(auto, using(crate::proofs::Copies::copies))]

ghost use Rattle.std.specs.Prelude.{◌≡◌, ◌+◌, ◌≤◌, length};
ghost use Rattle.std.proofs.Math.Seq.{paste};

// Every byte outside the run stays.
pub fn put(to: &mut [u8], at: usize, from: &[u8])
    requires { at + length from.now ≤ length to.old }
    ensures { to.new ≡ paste to.old at from.now (length from.now) }
{
    // By place: with the library's copy_from_slice the archive for C would want memmove from outside.
    for i in 0..from.len() {
        to[at + i] = from[i];
    }
}
