// The program `sift` with no rule.bin.
#![tactic(auto)]

fn main(rt: HostRuntime) {
    commands::sift(&rt);
}
