// The program `sift` on more scans than one block holds.
#![tactic(auto)]

fn main(rt: HostRuntime) {
    commands::sift(&rt);
}
