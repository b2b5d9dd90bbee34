// Runs over the same scans under up to four rules on duty, lap after lap. bench/run measures it.
// Standard input has the number of rules, one byte; the number of laps and the length of a rule file, three bytes each, highest first; and the file. All rules
// on duty are that one, each with a table of its own; over 128 equations it is refused. An input that is too short, or has over 4 rules or a file over 1,024 bytes, has no answer.
#![tactic(auto)]

ghost use Rattle.std.specs.Prelude.{◌≤◌, ◌<◌, ◌≡◌, length};

use reading::Refusal;
use running::Duty;
use std::io;
use testing::{digest, filled_count, read_bounded, read_byte, read_size, show_filled};

// A rule has at most so many equations.
const LIMIT: usize = 128;

// The entries of a table that has room for them.
const TABLE: usize = 256 * LIMIT;

// Those of four such tables.
const TABLES: usize = 4 * TABLE;

// The scans of a lap.
const SCANS: usize = 65536;

// What filling answers, and the rules that came on.
#[derive(Drop)]
struct Came {
    answer: Result<usize, Refusal>,
    duty: Duty,
}

// How many scans all laps together kept and dropped.
#[derive(Clone, Copy)]
struct Sums {
    kept: u64,
    dropped: u64,
}

// Makes the scans: each is the low byte of a number, and the number goes through all from 0 to 65,535.
fn make_scans(scans: &mut [u8]) {
    let mut x: u64 = 1;
    for scan in scans.iter_mut() {
        x = (x * 75 + 74) % 65537;
        *scan = (x % 256) as u8;
    }
}

// Fills a table for each of n rules, and lets the rule come on with it. A rule whose filling is refused doesn't come on.
fn come_all(rule: &[u8], n: u8, tables: &mut [u16]) -> Came
    requires rules { n ≤ 4 }
    requires room { length tables.old ≡ 131072 }
{
    let mut answer = Ok(0);
    let mut duty = running::nobody();
    for number in 0..n {
        let base = TABLE * usize::from(number);
        answer = synthesis::fill_within(rule, LIMIT, &mut tables[base..]);
        duty = running::come_on(duty, number, tables, base, filled_count(answer)).duty;
    }
    Came { answer, duty }
}

// Runs so many laps. Each begins with the rules as the last one left them.
#[tactic(auto, using(crate::proofs::LapCounts::lap_counts))]
fn run_laps(
    tables: &[u16],
    mut duty: Duty,
    laps: usize,
    scans: &[u8],
    output: &mut [u8],
    verdicts: &mut [u8],
) -> Sums
    requires laps { laps < 16777216 }
    requires lap { length scans.now ≡ 65536 }
{
    let mut kept: u64 = 0;
    let mut dropped: u64 = 0;
    for _lap in 0..laps {
        let ran = running::run_on_duty(tables, duty, scans, output, verdicts);
        kept += ran.kept as u64;
        dropped += ran.dropped as u64;
        duty = ran.state;
    }
    Sums { kept, dropped }
}

// Runs the laps and prints what they come to, or prints the refusal of the filling.
fn answer_laps(
    rt: &HostRuntime,
    came: Came,
    tables: &[u16],
    laps: usize,
    scans: &[u8],
    output: &mut [u8],
    verdicts: &mut [u8],
)
    requires laps { laps < 16777216 }
    requires lap { length scans.now ≡ 65536 }
{
    if came.answer.is_err() {
        show_filled(rt, came.answer);
        return;
    }
    let sums = run_laps(tables, came.duty, laps, scans, output, verdicts);
    let _ = println!(rt; "{} {} {}", sums.kept, sums.dropped, digest(0, verdicts));
}

// Answers for so many rules and laps.
fn answer_rule(rt: &HostRuntime, rule: &[u8], n: u8, laps: usize)
    requires rules { n ≤ 4 }
    requires laps { laps < 16777216 }
{
    let mut tables = [0u16; TABLES];
    let mut scans = [0u8; SCANS];
    let mut output = [0u8; SCANS];
    let mut verdicts = [0u8; SCANS];
    make_scans(&mut scans);
    let came = come_all(rule, n, &mut tables);
    answer_laps(rt, came, &tables, laps, &scans, &mut output, &mut verdicts);
}

// Reads the rules and the laps, and answers for them.
fn answer_input(rt: &HostRuntime) -> io::Result<()> {
    let n = read_byte(rt);
    if n > 4 {
        return Ok(());
    }
    let laps = read_size(rt, 16777215)?;
    let mut space = [0u8; 1024];
    let rule = read_bounded(rt, &mut space)?;
    answer_rule(rt, rule, n, laps);
    Ok(())
}

fn main(rt: HostRuntime) {
    // An input that is too short has no answer.
    let _ = answer_input(&rt);
}
