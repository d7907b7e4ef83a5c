// The operator's program: a subcommand and its words. 01, "Trace, mark DLT", for replay.
#![tactic(auto)]

use replaying::word_buffer;
use std::env::{Env, FillError};

const HELP: &str = "usage: pursethistle SUBCOMMAND [WORDS]

  replay [--counters] [FILE]
            replay a recorded trace (or standard input) and write a line for each record;
            --counters adds a line with the ten counters behind the end line
  help      this page
  version   the version
";

// The word need not be text. What cannot be written is let pass: there is nowhere to tell it.
fn unknown(err: &impl Print, w: &[u8]) {
    let _ = print!(err; "pursethistle: no subcommand '");
    let _ = err.write_all(w);
    let _ = println!(err; "'; 'pursethistle help' lists them");
}

// `--help`, `-h` and `--version` are asked for as often.
fn answer(rt: &HostRuntime, w: &[u8]) {
    match str::from_utf8(w) {
        Ok("replay") => replaying::run_subcommand(rt),
        Ok("help" | "--help" | "-h") => {
            let _ = print!(rt; "{HELP}");
        }
        Ok("version" | "--version") => {
            let _ = println!(rt; "pursethistle 0.1, trace version 1");
        }
        _ => unknown(&rt.stderr(), w),
    }
}

fn main(rt: HostRuntime) {
    let mut word = word_buffer();
    match rt.arg(1, &mut word) {
        Ok(length) => answer(&rt, &word[..length]),
        Err(FillError::TooLong) => answer(&rt, b""),
        Err(FillError::NotPresent) => {
            let _ = eprint!(rt; "{HELP}");
        }
    }
}
