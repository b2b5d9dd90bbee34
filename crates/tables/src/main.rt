// Reads rule files from standard input, counts the equations of each and fills a table, the same on the rule page, for the short table and within a limit, and
// prints a line for each file with what is said of it, left in the tables and listed of them.
// A case is a table's size in entries, three bytes, a limit, eight bytes, and a file's length, three bytes, each highest first, and then the rule file. The input
// ends after the last.
#![tactic(auto)]

ghost use Rattle.listing.specs.Positions.{Within};

use listing::Line;
use reading::{NumberedRule, Refusal};
use std::io;
use testing::{
    Cases, answer_cases, digest, filled_count, read_bounded, read_long, read_size, refresh,
};

// A listing has no more lines: two, one for each pattern, and one for each entry at most.
const LINES: usize = 34 + 256 * synthesis::MOST;

// 2^56: 256 times this is 2^64. And 2^55: the bytes of so many rows are 2^64.
const WRAPPING: usize = 1 << 56;

const WRAPPING_BYTES: usize = 1 << 55;

// A text of several parts, or rows: how long they are together, and the digest of them all.
#[derive(Clone, Copy)]
struct Summary {
    len: usize,
    digest: u64,
}

// The first n rows, as they are handed back.
#[tactic(auto, using(synthesis::proofs::Tables::Rows::row_inside))]
fn rows_summary(table: &[u16], n: usize) -> Summary {
    let mut len = 0;
    let mut sum = 0;
    for k in 0..n {
        let row = synthesis::row(table, k);
        len += row.len();
        sum = digest(sum, row);
    }
    Summary { len, digest: sum }
}

// The digest that the digits of `high` and then the text of a line make.
fn line_digest(high: u64, line: Line) -> u64
    requires { Within line }
{
    digest(high, &line.bytes[..line.len])
}

// The listing of a rule and its table.
fn listing_summary(rule: NumberedRule, table: &[u16], count: usize) -> Summary {
    let mut len = 0;
    let mut sum = 0;
    let mut at = 0;
    for _line in 0..LINES {
        let this = listing::listing_line(rule, table, count, at);
        if this.line.len == 0 {
            break;
        }
        len += this.line.len;
        sum = line_digest(sum, this.line);
        at = this.next;
    }
    Summary { len, digest: sum }
}

// The line of a refusal.
fn refusal_summary(refusal: Refusal) -> Summary {
    let line = listing::refusal_line(refusal.fault.number(), refusal.place);
    Summary {
        len: line.len,
        digest: line_digest(0, line),
    }
}

// What the program `equations` prints of a file on which filling gives this answer and leaves this table.
fn text_summary(answer: Result<usize, Refusal>, file: &[u8], table: &[u16]) -> Summary {
    match (answer, reading::read_rule(file)) {
        (Ok(count), Ok(rule)) => listing_summary(rule, table, count),
        (Err(refusal), _) | (_, Err(refusal)) => refusal_summary(refusal),
    }
}

fn print_summary(rt: &HostRuntime, summary: Summary) {
    let _ = print!(rt; " {} {}", summary.len, summary.digest);
}

// A row, but for an empty one.
fn print_row(rt: &HostRuntime, table: &[u16], k: usize) {
    let row = synthesis::row(table, k);
    if row.is_empty() {
        return;
    }
    let _ = print!(rt; " {k} {} {}", row.len(), digest(0, row));
}

// The first n rows together, and some others by themselves.
fn print_rows(rt: &HostRuntime, table: &[u16], n: usize) {
    let _ = print!(rt; " rows");
    print_summary(rt, rows_summary(table, n));
    let others = [
        n,
        127,
        128,
        155,
        156,
        999,
        1000,
        1023,
        WRAPPING_BYTES,
        WRAPPING,
        usize::MAX,
    ];
    for k in others {
        print_row(rt, table, k);
    }
}

// What counting or filling answers: the number of equations, or a refusal.
fn print_answer(rt: &HostRuntime, answer: Result<usize, Refusal>) {
    let _ = match answer {
        Ok(count) => print!(rt; "{count}"),
        Err(refusal) => print!(rt; "{refusal}"),
    };
}

// What counting answers, and what filling answers and leaves in the table.
fn print_filled(
    rt: &HostRuntime,
    counted: Result<usize, Refusal>,
    filled: Result<usize, Refusal>,
    table: &[u16],
) {
    print_answer(rt, counted);
    let _ = print!(rt; " ");
    print_answer(rt, filled);
    let _ = print!(rt; " {}", digest(0, table));
}

// The same, and what is listed of it.
fn print_answers(
    rt: &HostRuntime,
    counted: Result<usize, Refusal>,
    filled: Result<usize, Refusal>,
    file: &[u8],
    table: &[u16],
) {
    print_filled(rt, counted, filled, table);
    print_summary(rt, text_summary(filled, file, table));
}

fn answer_long(rt: &HostRuntime, rule: &[u8], table: &mut [u16]) {
    let counted = synthesis::count(rule);
    let filled = synthesis::fill(rule, table);
    print_answers(rt, counted, filled, rule, table);
    print_rows(rt, table, filled_count(filled));
}

fn answer_page(rt: &HostRuntime, rule: &[u8], table: &mut [u16]) {
    let _ = print!(rt; " page ");
    let counted = synthesis::count_preview(rule);
    let filled = synthesis::fill_preview(rule, table);
    print_answers(rt, counted, filled, rule, table);
}

fn answer_short(rt: &HostRuntime, rule: &[u8], table: &mut [u16]) {
    let _ = print!(rt; " short ");
    let counted = synthesis::count_short(rule);
    let filled = synthesis::fill_short(rule, table);
    print_answers(rt, counted, filled, rule, table);
}

fn answer_within(rt: &HostRuntime, rule: &[u8], limit: usize, table: &mut [u16]) {
    let _ = print!(rt; " within ");
    let counted = synthesis::count_within(rule, limit);
    let filled = synthesis::fill_within(rule, limit, table);
    print_filled(rt, counted, filled, table);
    let _ = println!(rt);
}

// Answers the next case.
fn answer_case(rt: &HostRuntime, space: &mut [u8], table: &mut [u16], case: u64) -> io::Result<()> {
    let size = read_size(rt, table.len())?;
    let limit = read_long(rt)?;
    let rule = read_bounded(rt, space)?;
    let table = &mut table[..size];
    refresh(table, case);
    answer_long(rt, rule, table);
    refresh(table, case);
    answer_page(rt, rule, table);
    refresh(table, case);
    answer_short(rt, rule, table);
    refresh(table, case);
    answer_within(rt, rule, limit, table);
    Ok(())
}

// Where the rule file of a case goes, and the table that it fills.
#[derive(Drop)]
struct Spaces {
    rule: [u8; 1024],
    table: [u16; 262144],
}

impl Cases for Spaces {
    fn answer(&mut self, rt: &HostRuntime, case: u64) -> io::Result<()> {
        let Spaces { rule, table } = self;
        answer_case(rt, rule, table, case)
    }
}

fn main(rt: HostRuntime) {
    let mut spaces = Spaces {
        rule: [0; 1024],
        table: [0; 262144],
    };
    answer_cases(&rt, &mut spaces);
}
