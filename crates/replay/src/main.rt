// replay [--counters] [FILE]: writes 01's lines for a trace to standard output, and the counters behind them if they
// are asked for. 01, "Trace, mark DLT".
#![tactic(auto)]

fn main(rt: HostRuntime) {
    replaying::run(&rt);
}
