// The program `meets` on a model that meets its rule.
#![tactic(auto)]

fn main(rt: HostRuntime) {
    let _ = commands::meets(&rt);
}
