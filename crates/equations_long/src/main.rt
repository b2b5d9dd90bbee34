// The program `equations` on a rule of 128 equations.
#![tactic(auto)]

fn main(rt: HostRuntime) {
    commands::equations(&rt);
}
