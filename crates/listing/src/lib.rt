// The text that the programs print, line by line. The definitions that the contracts cite stand in specs/.
#![tactic(auto)]

mod lines;
mod text;

ghost use Rattle.std.specs.Prelude.{◌≡◌, ◌-◌, ◌/◌, ◌%◌, min, ◌≤◌, ◌<◌, length};
ghost use Rattle.listing.specs.Runs.{RunTo};
ghost use Rattle.listing.specs.Lines.{refusal_line, judgment_line};
ghost use Rattle.listing.specs.Positions.{line_of, Within, no_line, row_line_at, listing_line_at};
ghost use Rattle.listing.specs.LineParts.{Gives};

use reading::NumberedRule;

// A line of text: its first len bytes. The others are 0.
#[derive(Clone, Copy)]
pub struct Line {
    pub bytes: [u8; 64],
    pub len: usize,
}

// A line of a listing, and the position of the next one.
#[derive(Drop)]
pub struct ListingLine {
    pub line: Line,
    pub next: usize,
}

// The line that says why a file is refused, and where.
pub fn refusal_line(number: u8, place: usize) -> Line
    ensures value { result ≡ line_of (refusal_line number place) }
    ensures within { Within result }
{
    lines::refusal(number, place)
}

// The line that says whether a model meets a rule.
pub fn judgment_line(meets: bool) -> Line
    ensures value { result ≡ line_of (judgment_line meets) }
    ensures within { Within result }
{
    if meets {
        return lines::alone(b"meets");
    }
    lines::alone(b"breaks")
}

// No line, at a position after the last.
fn no_line(at: usize) -> ListingLine
    ensures { Gives (no_line at) result }
{
    let line = Line {
        bytes: [0; 64],
        len: 0,
    };
    ListingLine { line, next: at }
}

// The last code of the run from code c on.
fn run_end(row: &[u16], c: usize) -> usize
    requires { c < length row.now }
    ensures { RunTo row.now c result }
{
    let entry = row[c];
    match row[c..].iter().position(|&other| other != entry) {
        Some(many) => c + many - 1,
        None => row.len() - 1,
    }
}

// The line of the run at a position after the "equations" line. Code 0 of equation 0 has the position `start`.
fn row_line(table: &[u16], count: usize, start: usize, at: usize) -> ListingLine
    requires { (start ≤ 34) × (start ≤ at) }
    ensures { Gives (row_line_at table.now count start ((at - start) / 256) ((at - start) % 256) at) result }
{
    let k = (at - start) / 256;
    let c = (at - start) % 256;
    if count <= k {
        return no_line(at);
    }
    let row = synthesis::row(table, k);
    if row.len() <= c {
        return no_line(at);
    }
    let last = run_end(row, c);
    let line = lines::run(k, c as u8, last as u8, row[c]);
    ListingLine {
        line,
        next: start + 256 * k + last + 1,
    }
}

// The line of a listing at a position. The next one stands at `next`; at an empty line the listing has ended.
pub fn listing_line(rule: NumberedRule, table: &[u16], count: usize, at: usize) -> ListingLine
    ensures value { result ≡ listing_line_at rule table.now count at }
    ensures within { Within result.line }
{
    // An array of 32 has no more, whatever number the rule says.
    let n = rule.npatterns.min(32);
    if at == 0 {
        let line = lines::counted(b"patterns", n);
        return ListingLine { line, next: 1 };
    }
    if at <= n {
        let line = lines::pattern(at - 1, rule.patterns[at - 1].extent);
        return ListingLine { line, next: at + 1 };
    }
    if at == n + 1 {
        let line = lines::counted(b"equations", count);
        return ListingLine { line, next: at + 1 };
    }
    row_line(table, count, n + 2, at)
}
