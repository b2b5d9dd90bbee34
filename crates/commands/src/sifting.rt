// The program `sift`.
ghost use Rattle.std.specs.Prelude.{◌≡◌, List, ℕ, ◌*◌, length};
ghost use Rattle.reading.specs.Rule.{Bytes};
ghost use Rattle.synthesis.specs.Monitor.{mark, most};
ghost use Rattle.synthesis.specs.Table.{WellFormedTable};
ghost use Rattle.running.specs.Running.{run_of, result_of};
ghost use Rattle.commands.specs.Printing.{program_limit};
ghost use Rattle.commands.specs.Sifting.{EndsCallsOn, Sifts};

use crate::files::{Terminal, read_file, read_once};
use crate::{FILE, LIMIT, SiftResult, TABLE};
use running::State;
use std::io::{Read, Write};
use std::rt::Files;

// The most scans that are read at once.
const BLOCK: usize = 65_536;

// A run on a rule's table: the state in which its calls end, and room for what a call over a block of scans writes. (That they end in it is no ghost field:
// calls are data, and a ghost field is a proposition.)
#[derive(Drop)]
struct Sifter<'a> {
    table: &'a [u16],
    count: usize,
    state: State,
    output: &'a mut [u8; BLOCK],
    verdicts: &'a mut [u8; BLOCK],
}

impl Sifter<'_> {
    // Runs over some scans, and writes those that are kept. Says whether they were written. (A slice of u8 consists of bytes.)
    fn sift<W: Write, E: Write>(&mut self, scans: &[u8], terminal: &mut Terminal<W, E>) -> bool
        ensures bytes { Bytes scans.now }
        ensures state_value { self.new.state ≡ (result_of self.old.state (run_of most mark self.old.table.now self.old.count
            self.old.state scans.now BLOCK BLOCK)).state }
        ensures same_table { self.new.table.now ≡ self.old.table.now }
        ensures same_count { self.new.count ≡ self.old.count }
    {
        let output = &mut *self.output;
        let verdicts = &mut *self.verdicts;
        let ran = running::run(self.table, self.count, self.state, scans, output, verdicts);
        self.state = ran.state;
        terminal.write_whole(&self.output[..ran.kept])
    }
}

// Sifts all of standard input. No input uses up so many turns.
fn sift_all<R: Read, W: Write, E: Write>(
    table: &[u16],
    count: usize,
    stdin: &mut R,
    terminal: &mut Terminal<W, E>,
) -> State
    requires { WellFormedTable most mark count table.now }
    ensures { EndsCallsOn table.now count result }
{
    let mut scans = [0u8; BLOCK];
    let mut output = [0u8; BLOCK];
    let mut verdicts = [0u8; BLOCK];
    let mut sifter = Sifter {
        table,
        count,
        state: running::start(),
        output: &mut output,
        verdicts: &mut verdicts,
    };
    for _ in 0..u64::MAX {
        let n = terminal.read("sift: standard input", read_once(stdin, &mut scans));
        if n == 0 || !sifter.sift(&scans[..n], terminal) {
            return sifter.state;
        }
    }
    sifter.state
}

// Fills the table of a rule file, and sifts standard input under it.
fn sift_under<R: Read, W: Write, E: Write>(
    file: &[u8],
    table: &mut [u16],
    stdin: &mut R,
    terminal: &mut Terminal<W, E>,
) -> SiftResult
    requires { length table.old ≡ 256 * program_limit }
    ensures bytes { Bytes file.now }
    ensures sifts { Sifts file.now table.old result }
{
    let answer = synthesis::fill_within(file, LIMIT, table);
    let state = match answer {
        Ok(count) => sift_all(table, count, stdin, terminal),
        Err(refusal) => {
            terminal.print(listing::refusal_line(refusal.fault.number(), refusal.place));
            running::start()
        }
    };
    SiftResult { answer, state }
}

// Reads a rule from the file rule.bin, and writes the scans of standard input that it keeps, or else why it is refused.
pub fn sift(rt: &HostRuntime) -> SiftResult
    ensures { (s : List ℕ) × (table : List ℕ) × Bytes s × Sifts s table result }
{
    sift_of(rt, &mut rt.stdin(), &mut rt.stdout(), &mut rt.stderr())
}

// The same with a reader and writers in the place of standard input, output and error.
pub fn sift_of<F: Files, R: Read, W: Write, E: Write>(
    files: &F,
    stdin: &mut R,
    stdout: &mut W,
    stderr: &mut E,
) -> SiftResult
    ensures { (s : List ℕ) × (table : List ℕ) × Bytes s × Sifts s table result }
{
    let mut terminal = Terminal {
        output: "sift: standard output",
        stdout,
        stderr,
    };
    let mut file = [0u8; FILE];
    let n = terminal.read("sift: rule.bin", read_file(files, "rule.bin", &mut file));
    let mut table = [0u16; TABLE];
    sift_under(&file[..n], &mut table, stdin, &mut terminal)
}
