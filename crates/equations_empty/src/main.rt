// The program `equations` on an empty file.
#![tactic(auto)]

fn main(rt: HostRuntime) {
    commands::equations(&rt);
}
