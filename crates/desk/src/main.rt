// Runs the session on standard input, and prints its lines.
#![tactic(auto)]

// How it went is said on standard error, and the exit status is 0 always.
fn main(rt: HostRuntime) {
    let _ = console::run(&rt);
}
