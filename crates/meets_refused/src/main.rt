// The program `meets` on a model that is refused.
#![tactic(auto)]

fn main(rt: HostRuntime) {
    let _ = commands::meets(&rt);
}
