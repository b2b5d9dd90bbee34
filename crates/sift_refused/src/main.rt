// The program `sift` under a rule.bin that is refused, and longer than what is read of it.
#![tactic(auto)]

fn main(rt: HostRuntime) {
    commands::sift(&rt);
}
