// The program `meets` with no model.bin.
#![tactic(auto)]

fn main(rt: HostRuntime) {
    let _ = commands::meets(&rt);
}
