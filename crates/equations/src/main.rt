// Prints the equations of the rule file on standard input.
#![tactic(auto)]

fn main(rt: HostRuntime) {
    commands::equations(&rt);
}
