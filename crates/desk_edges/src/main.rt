// The same program on the edges that document 01 leaves unmarked: a program is run on one input within the gate.
#![tactic(auto)]

// How it went is said on standard error, and the exit status is 0 always.
fn main(rt: HostRuntime) {
    let _ = console::run(&rt);
}
