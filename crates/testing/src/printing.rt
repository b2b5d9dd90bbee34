// Parts of a printed line. What prints hands a failed write on.
ghost use Rattle.std.specs.Prelude.{◌≡◌};
ghost use Rattle.reading.specs.Refusals.{as_outcome};
ghost use Rattle.testing.specs.Numbers.{count_in};

use crate::digests::digest;
use models::Judgment;
use reading::Refusal;
use std::io;

// Prints what counting or filling answers.
pub fn print_counted(rt: &HostRuntime, answer: Result<usize, Refusal>) -> io::Result<()> {
    match answer {
        Ok(count) => print!(rt; "equations {count}"),
        Err(refusal) => print!(rt; "{refusal}"),
    }
}

// Prints a line with what filling answers.
pub fn print_filled(rt: &HostRuntime, answer: Result<usize, Refusal>) -> io::Result<()> {
    print_counted(rt, answer)?;
    println!(rt)
}

// Prints whether a run was refused.
pub fn print_checked(rt: &HostRuntime, answer: Result<(), Refusal>) -> io::Result<()> {
    match answer {
        Ok(()) => print!(rt; "fit"),
        Err(refusal) => print!(rt; "{refusal}"),
    }
}

// Prints what is judged.
pub fn print_judged(rt: &HostRuntime, judged: Result<Judgment, Refusal>) -> io::Result<()> {
    match judged {
        Ok(Judgment::Meets) => print!(rt; "meets"),
        Ok(Judgment::Breaks) => print!(rt; "breaks"),
        Err(refusal) => print!(rt; "{refusal}"),
    }
}

// Ends a line with the digests of two buffers.
pub fn print_digests(rt: &HostRuntime, output: &[u8], verdicts: &[u8]) -> io::Result<()> {
    println!(rt; " {} {}", digest(0, output), digest(0, verdicts))
}

// How many equations filling answered, and so how many rows it wrote.
pub fn filled_count(answer: Result<usize, Refusal>) -> usize
    ensures { result ≡ count_in (as_outcome answer) }
{
    answer.unwrap_or(0)
}
