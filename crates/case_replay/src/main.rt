// Replays each of its files after a line with its name: 01's worked example, every form of a line, and every bad form.
// make.py writes the files and what must come.
#![tactic(auto)]

fn main(rt: HostRuntime) {
    replaying::run_each(&rt);
}
