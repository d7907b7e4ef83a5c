// What a replay holds of its file and of its lines, each in fixed memory with the place up to which it is filled. What
// is done with them stands in holding.rt and lib.rt, since the definitions of its promises name these types.
#![tactic(auto)]

ghost use Rattle.std.specs.Prelude.{◌≡◌, ◌≤◌};

// The bytes of the file that are at hand: those from `at` to `end`. `last` says that the file has no more.
#[derive(Drop)]
pub struct Hand {
    pub bytes: [u8; 65536],
    pub at: usize,
    pub end: usize,
    pub last: bool,
    ghost in_order: { at ≤ end },
    ghost in_bounds: { end ≤ 65536 },
}

// The lines that are still to be written out: the first `used` bytes.
#[derive(Drop)]
pub struct Lines {
    pub text: [u8; 65536],
    pub used: usize,
    ghost in_bounds: { used ≤ 65536 },
}
