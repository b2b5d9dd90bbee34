// What programs in C call, under plain names: counting, filling, explaining, judging, matching and running. The crate `boundary_c` exports these functions.
// The definitions that the contracts cite stand in specs/ of the layers; Results.antt has the answers as numbers.
#![tactic(auto)]

ghost use Rattle.std.specs.Prelude.{◌≡◌, length};
ghost use Rattle.reading.specs.File.{Outcome};
ghost use Rattle.reading.specs.Refusals.{as_outcome};
ghost use Rattle.synthesis.specs.Monitor.{mark, most};
ghost use Rattle.synthesis.specs.Building.{synthesis_of, filling_of, preview_of, preview_filling_of, short_of, short_filling_of, counted_of, table_after};
ghost use Rattle.synthesis.specs.Reason.{explanation_of, reason_of};
ghost use Rattle.running.specs.Running.{run_of, output_after, verdicts_after};
ghost use Rattle.models.specs.Judging.{judging_of, JudgedAs, table_judged};
ghost use Rattle.models.specs.declared.Judgment.{Judgment};
ghost use Rattle.models.specs.Pairs.{matching_of, MatchAnswer, match_answer, MatchedAs};
ghost use Rattle.boundary.specs.Results.{counted_result, reason_result, judged_result, matched_result, checked_number, state_of, IsRun};

use models::{Judgment, MatchError};
use reading::Refusal;
use running::State;

// What is handed back in place of a node where a scan is kept. No node of a rule has this number.
const KEPT_VALUE: usize = 64;

// Hands back what counting or filling answers: 0, with the count of equations in `value`, or the number of a refusal, with its place.
fn hand_back(answer: Result<usize, Refusal>, value: &mut usize) -> u8
    ensures value { result ≡ (counted_result (as_outcome answer)).number }
    ensures value_after { value.new ≡ (counted_result (as_outcome answer)).value }
{
    match answer {
        Ok(count) => {
            *value = count;
            0
        }
        Err(refusal) => {
            *value = refusal.place;
            refusal.fault.number()
        }
    }
}

// Counts the equations of a rule.
pub fn jarveun_count(rule: &[u8], value: &mut usize) -> u8
    ensures value { result ≡ (counted_result (counted_of (synthesis_of most rule.now))).number }
    ensures value_after { value.new ≡ (counted_result (counted_of (synthesis_of most rule.now))).value }
{
    hand_back(synthesis::count(rule), value)
}

// Fills a table with the rows of a rule's equations.
pub fn jarveun_fill(rule: &[u8], table: &mut [u16], value: &mut usize) -> u8
    ensures value { result ≡ (counted_result (counted_of (filling_of most rule.now (length table.old)))).number }
    ensures value_after { value.new ≡ (counted_result (counted_of (filling_of most rule.now (length table.old)))).value }
    ensures table_after { table.new ≡ table_after mark (filling_of most rule.now (length table.old)) table.old }
{
    hand_back(synthesis::fill(rule, table), value)
}

// Counts the equations of a rule as the rule page shows it.
pub fn jarveun_count_preview(rule: &[u8], value: &mut usize) -> u8
    ensures value { result ≡ (counted_result (counted_of (preview_of rule.now))).number }
    ensures value_after { value.new ≡ (counted_result (counted_of (preview_of rule.now))).value }
{
    hand_back(synthesis::count_preview(rule), value)
}

// Fills a table with their rows.
pub fn jarveun_fill_preview(rule: &[u8], table: &mut [u16], value: &mut usize) -> u8
    ensures value { result ≡ (counted_result (counted_of (preview_filling_of rule.now (length table.old)))).number }
    ensures value_after { value.new ≡ (counted_result (counted_of (preview_filling_of rule.now (length table.old)))).value }
    ensures table_after { table.new ≡ table_after mark (preview_filling_of rule.now (length table.old)) table.old }
{
    hand_back(synthesis::fill_preview(rule, table), value)
}

// Counts the rows of a rule's short table.
pub fn jarveun_count_short(rule: &[u8], value: &mut usize) -> u8
    ensures value { result ≡ (counted_result (counted_of (short_of most rule.now))).number }
    ensures value_after { value.new ≡ (counted_result (counted_of (short_of most rule.now))).value }
{
    hand_back(synthesis::count_short(rule), value)
}

// Fills a table with these rows.
pub fn jarveun_fill_short(rule: &[u8], table: &mut [u16], value: &mut usize) -> u8
    ensures value { result ≡ (counted_result (counted_of (short_filling_of most rule.now (length table.old)))).number }
    ensures value_after { value.new ≡ (counted_result (counted_of (short_filling_of most rule.now (length table.old)))).value }
    ensures table_after { table.new ≡ table_after mark (short_filling_of most rule.now (length table.old)) table.old }
{
    hand_back(synthesis::fill_short(rule, table), value)
}

// Explains why a scan is dropped after the scans kept so far. Answers 0, with the number of an ff node in `value`, or `KEPT_VALUE` where the scan is
// kept; or the number of a refusal, with its place.
pub fn jarveun_explain(rule: &[u8], kept: &[u8], scan: u8, value: &mut usize) -> u8
    ensures value { result ≡ (reason_result (reason_of (explanation_of most rule.now kept.now scan))).number }
    ensures value_after { value.new ≡ (reason_result (reason_of (explanation_of most rule.now kept.now scan))).value }
{
    let answer = synthesis::explain(rule, kept, scan);
    hand_back(
        answer.map(|node| node.map_or(KEPT_VALUE, usize::from)),
        value,
    )
}

// Judges a model under a rule. Answers 0, with 1 in `value` where it meets the rule and 0 where it breaks it, or the number of a refusal, with
// its place.
pub fn jarveun_judge(rule: &[u8], model: &[u8], table: &mut [u16], value: &mut usize) -> u8
    ensures judged_as { (answer : Outcome Judgment) × JudgedAs (judging_of most rule.now (length table.old) model.now) answer
        × (result ≡ (judged_result answer).number) × (value.new ≡ (judged_result answer).value) }
    ensures table_after { table.new
        ≡ table_judged (judging_of most rule.now (length table.old) model.now)
        (table_after mark (filling_of most rule.now (length table.old)) table.old)
        table.old }
{
    let answer = models::judge(rule, model, table);
    hand_back(
        answer.map(|judgment| usize::from(judgment == Judgment::Meets)),
        value,
    )
}

// What matching hands back: 0 or the number of a refusal, the value beside it, and which of the three inputs the refusal is about, or 0.
#[derive(Clone, Copy)]
struct MatchResult {
    number: u8,
    value: usize,
    input: usize,
}

// What is handed back for an answer.
fn match_result(answer: Result<bool, MatchError>) -> MatchResult
    ensures { result ≡ matched_result (match_answer answer) }
{
    let (input, refusal) = match answer {
        Ok(yes) => {
            return MatchResult {
                number: 0,
                value: usize::from(yes),
                input: 0,
            };
        }
        Err(MatchError::First(refusal)) => (1, refusal),
        Err(MatchError::Second(refusal)) => (2, refusal),
        Err(MatchError::Pairs(refusal)) => (3, refusal),
    };
    MatchResult {
        number: refusal.fault.number(),
        value: refusal.place,
        input,
    }
}

// Says whether a list of pairs of states matches two models. Answers 0, with 1 in `value` for yes and 0 for no, and 0 in `input`; or the number of a
// refusal, with its place, and in `input` what it is about: 1 the first model, 2 the second, 3 the list.
pub fn jarveun_match(
    first: &[u8],
    second: &[u8],
    pairs: &[u8],
    value: &mut usize,
    input: &mut usize,
) -> u8
    ensures { (answer : MatchAnswer) × MatchedAs (matching_of first.now second.now pairs.now) answer
        × (result ≡ (matched_result answer).number) × (value.new ≡ (matched_result answer).value)
        × (input.new ≡ (matched_result answer).input) }
{
    let result = match_result(models::match_models(first, second, pairs));
    *value = result.value;
    *input = result.input;
    result.number
}

// The number of a refusal of a run, or 0.
fn number_of(checked: Result<(), Refusal>) -> u8
    ensures { result ≡ checked_number (as_outcome checked) }
{
    match checked {
        Ok(()) => 0,
        Err(refusal) => refusal.fault.number(),
    }
}

// Runs over scans from `equation`, which becomes the one in which the run ends; puts how many were kept and dropped into `kept` and `dropped`.
// Answers 0, or the number of a refusal, whose place is 0.
pub fn jarveun_run(
    table: &[u16],
    count: usize,
    equation: &mut usize,
    scans: &[u8],
    output: &mut [u8],
    verdicts: &mut [u8],
    kept: &mut usize,
    dropped: &mut usize,
) -> u8
    ensures run { IsRun (state_of equation.old)
        (run_of most mark table.now count (state_of equation.old)
        scans.now (length output.old) (length verdicts.old))
        result equation.new kept.new dropped.new }
    ensures output_after { output.new ≡ output_after (run_of most mark table.now count (state_of equation.old)
        scans.now (length output.old) (length verdicts.old)) output.old }
    ensures verdicts_after { verdicts.new ≡ verdicts_after (run_of most mark table.now count (state_of equation.old)
        scans.now (length output.old) (length verdicts.old)) verdicts.old }
{
    let state = State {
        equation: *equation,
    };
    let ran = running::run(table, count, state, scans, output, verdicts);
    *equation = ran.state.equation;
    *kept = ran.kept;
    *dropped = ran.dropped;
    number_of(ran.checked)
}
