// The program `meets` with neither file.
#![tactic(auto)]

fn main(rt: HostRuntime) {
    let _ = commands::meets(&rt);
}
