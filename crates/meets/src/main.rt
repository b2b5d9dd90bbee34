// Prints whether the phone model in model.bin meets the rule in rule.bin, or why one is refused.
#![tactic(auto)]

fn main(rt: HostRuntime) {
    let _ = commands::meets(&rt);
}
