// The program `equations` on a long file that is refused.
#![tactic(auto)]

fn main(rt: HostRuntime) {
    commands::equations(&rt);
}
