// The program `meets`.
ghost use Rattle.std.specs.Prelude.{◌≡◌, List, ℕ, ◌*◌, length};
ghost use Rattle.reading.specs.Rule.{Bytes};
ghost use Rattle.reading.specs.Refusals.{as_outcome};
ghost use Rattle.listing.specs.Positions.{line_of, Within};
ghost use Rattle.commands.specs.Printing.{program_limit, judged_text, JudgesFiles};

use crate::files::{Terminal, read_file};
use crate::{FILE, LIMIT, TABLE};
use listing::Line;
use models::Judgment;
use reading::Refusal;
use std::io::Write;
use std::rt::Files;

// The line of an answer.
fn answer_line(answer: Result<Judgment, Refusal>) -> Line
    ensures value { result ≡ line_of (judged_text (as_outcome answer)) }
    ensures within { Within result }
{
    match answer {
        Ok(judgment) => listing::judgment_line(judgment == Judgment::Meets),
        Err(refusal) => listing::refusal_line(refusal.fault.number(), refusal.place),
    }
}

// Judges a model file under a rule file, and prints the answer. (A slice of u8 consists of bytes.)
fn print_judged<W: Write, E: Write>(
    rule: &[u8],
    model: &[u8],
    table: &mut [u16],
    terminal: &mut Terminal<W, E>,
) -> Result<Judgment, Refusal>
    requires { length table.old ≡ 256 * program_limit }
    ensures bytes { Bytes rule.now × Bytes model.now }
    ensures judges_files { JudgesFiles rule.now model.now (as_outcome result) }
{
    let answer = models::judge_within(rule, model, LIMIT, table);
    terminal.print(answer_line(answer));
    answer
}

// Reads a rule from the file rule.bin and a model from the file model.bin, prints whether the model meets the rule or why one is refused, and
// hands back the answer. No more than 4,096 bytes are read of each.
pub fn meets(rt: &HostRuntime) -> Result<Judgment, Refusal>
    ensures { (s : List ℕ) × (f : List ℕ) × Bytes s × Bytes f × JudgesFiles s f (as_outcome result) }
{
    meets_of(rt, &mut rt.stdout(), &mut rt.stderr())
}

// The same with writers in the place of standard output and error.
pub fn meets_of<F: Files, W: Write, E: Write>(
    files: &F,
    stdout: &mut W,
    stderr: &mut E,
) -> Result<Judgment, Refusal>
    ensures { (s : List ℕ) × (f : List ℕ) × Bytes s × Bytes f × JudgesFiles s f (as_outcome result) }
{
    let mut terminal = Terminal {
        output: "meets: standard output",
        stdout,
        stderr,
    };
    let mut rule = [0u8; FILE];
    let n = terminal.read("meets: rule.bin", read_file(files, "rule.bin", &mut rule));
    let mut model = [0u8; FILE];
    let k = terminal.read(
        "meets: model.bin",
        read_file(files, "model.bin", &mut model),
    );
    let mut table = [0u16; TABLE];
    print_judged(&rule[..n], &model[..k], &mut table, &mut terminal)
}
