// Replays a fixed sample of traces of every kind, each after a line with its name; what must come is the Rust's answer,
// taken down by the oracle (oracle/sample). 01, "The Rust decides".
#![tactic(auto)]

fn main(rt: HostRuntime) {
    replaying::run_each(&rt);
}
