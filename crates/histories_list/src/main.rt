// Prints every short history, a line each: document 02, 2026-10. tests/short_histories.py works `stdout` out from document 01.
#![tactic(auto)]

fn main(rt: HostRuntime) {
    let lines = short_histories::lines();
    if rt.write_all(&lines).is_err() {
        let _ = rt.eprint("histories_list: standard output could not be written\n");
    }
}
