// The same parts of a line, printed with nothing to answer: a write that fails is let go.
use crate::printing::{print_checked, print_counted, print_digests, print_judged};
use models::Judgment;
use reading::Refusal;

// Prints what counting or filling answers.
pub fn show_counted(rt: &HostRuntime, answer: Result<usize, Refusal>) {
    let _ = print_counted(rt, answer);
}

// Prints a line with what filling answers. The line is ended even where its first write fails.
pub fn show_filled(rt: &HostRuntime, answer: Result<usize, Refusal>) {
    show_counted(rt, answer);
    let _ = println!(rt);
}

// Prints whether a run was refused.
pub fn show_checked(rt: &HostRuntime, answer: Result<(), Refusal>) {
    let _ = print_checked(rt, answer);
}

// Prints what is judged.
pub fn show_judged(rt: &HostRuntime, judged: Result<Judgment, Refusal>) {
    let _ = print_judged(rt, judged);
}

// Ends a line with the digests of two buffers.
pub fn show_digests(rt: &HostRuntime, output: &[u8], verdicts: &[u8]) {
    let _ = print_digests(rt, output, verdicts);
}
