// Writes the scans of standard input that the rule in rule.bin keeps.
#![tactic(auto)]

fn main(rt: HostRuntime) {
    commands::sift(&rt);
}
