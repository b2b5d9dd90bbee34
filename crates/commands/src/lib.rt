// What the programs do: each reads its input, prints the answer, and hands it back.
#![tactic(auto)]

mod files;
mod judging;
mod lines;
mod sifting;

ghost use Rattle.std.specs.Prelude.{◌≡◌, cond, List, ℕ, ◌*◌, length};
ghost use Rattle.reading.specs.Rule.{Bytes};
ghost use Rattle.commands.specs.Printing.{program_limit, ListingStops, Shows};

use files::{Terminal, read_whole};
pub use judging::{meets, meets_of};
use lines::Lines;
use reading::{NumberedRule, Refusal};
use running::State;
pub use sifting::{sift, sift_of};
use std::io::{Read, Write};

// The most equations that a rule may have here. The library takes more.
const LIMIT: usize = 128;

// The entries of a program's table: a row for each of them.
const TABLE: usize = 256 * LIMIT;

// The most bytes that are read of a rule file or a model file.
const FILE: usize = 4096;

// What `equations` hands back: what counting answers to the rule file, how many lines were printed, and whether all of them could be
// written.
#[derive(Clone, Copy)]
pub struct EquationsResult {
    pub answer: Result<usize, Refusal>,
    pub lines: usize,
    pub written: bool,
}

// What `sift` hands back: what counting answers to the rule file, and the state in which the scans leave the run.
#[derive(Clone, Copy)]
pub struct SiftResult {
    pub answer: Result<usize, Refusal>,
    pub state: State,
}

// How many lines of a text were printed, and whether all of them could be written.
#[derive(Clone, Copy)]
struct Printed {
    lines: usize,
    written: bool,
}

// Prints a listing, up to a line that can't be written.
fn print_listing<W: Write, E: Write>(
    rule: NumberedRule,
    table: &[u16],
    count: usize,
    terminal: &mut Terminal<W, E>,
) -> Printed
    ensures { ListingStops rule table.now count result.lines result.written }
{
    let listing = Lines {
        rule,
        table,
        count,
        at: 0,
    };
    let mut lines = 0;
    for line in listing {
        if !terminal.print(line) {
            return Printed {
                lines,
                written: false,
            };
        }
        lines += 1;
    }
    Printed {
        lines,
        written: true,
    }
}

// Prints the line of a refusal.
fn print_refusal<W: Write, E: Write>(refusal: Refusal, terminal: &mut Terminal<W, E>) -> Printed
    ensures { result.lines ≡ cond result.written 1 0 }
{
    let written = terminal.print(listing::refusal_line(refusal.fault.number(), refusal.place));
    Printed {
        lines: usize::from(written),
        written,
    }
}

// Fills the table of a rule file, and prints the answer. (A slice of u8 consists of bytes.)
fn print_equations<W: Write, E: Write>(
    file: &[u8],
    table: &mut [u16],
    terminal: &mut Terminal<W, E>,
) -> EquationsResult
    requires { length table.old ≡ 256 * program_limit }
    ensures bytes { Bytes file.now }
    ensures shows { Shows file.now table.old result }
{
    let answer = synthesis::fill_within(file, LIMIT, table);
    let printed = match (answer, reading::read_rule(file)) {
        (Ok(count), Ok(rule)) => print_listing(rule, table, count, terminal),
        (Err(refusal), _) => print_refusal(refusal, terminal),
        (_, Err(refusal)) => print_refusal(refusal, terminal),
    };
    EquationsResult {
        answer,
        lines: printed.lines,
        written: printed.written,
    }
}

// Reads a rule file from standard input, prints the listing of its equations or why it is refused, and hands back the answer and how far
// printing came. The first 257 bytes of a file settle the answer; no more than 4,096 are read.
pub fn equations(rt: &HostRuntime) -> EquationsResult
    ensures { (s : List ℕ) × (table : List ℕ) × Bytes s × Shows s table result }
{
    equations_of(&mut rt.stdin(), &mut rt.stdout(), &mut rt.stderr())
}

// The same with a reader and writers in the place of standard input, output and error.
pub fn equations_of<R: Read, W: Write, E: Write>(
    stdin: &mut R,
    stdout: &mut W,
    stderr: &mut E,
) -> EquationsResult
    ensures { (s : List ℕ) × (table : List ℕ) × Bytes s × Shows s table result }
{
    let mut terminal = Terminal {
        output: "equations: standard output",
        stdout,
        stderr,
    };
    let mut file = [0u8; FILE];
    let n = terminal.read("equations: standard input", read_whole(stdin, &mut file));
    let mut table = [0u16; TABLE];
    print_equations(&file[..n], &mut table, &mut terminal)
}
