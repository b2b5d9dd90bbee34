// The functions for C: each export calls the function of its name in the library `boundary`, and states its clauses again. include/jarveun.h declares them,
// and says what a caller owes. A slice is a pointer and a length; the contracts suppose that it is good, and apart from what is changed.
#![tactic(auto)]

ghost use Rattle.std.specs.Prelude.{◌≡◌, length};
ghost use Rattle.reading.specs.File.{Outcome};
ghost use Rattle.synthesis.specs.Monitor.{mark, most};
ghost use Rattle.synthesis.specs.Building.{synthesis_of, filling_of, preview_of, preview_filling_of, short_of, short_filling_of, counted_of, table_after};
ghost use Rattle.synthesis.specs.Reason.{explanation_of, reason_of};
ghost use Rattle.running.specs.Running.{run_of, output_after, verdicts_after};
ghost use Rattle.models.specs.Judging.{judging_of, JudgedAs, table_judged};
ghost use Rattle.models.specs.declared.Judgment.{Judgment};
ghost use Rattle.models.specs.Pairs.{matching_of, MatchAnswer, MatchedAs};
ghost use Rattle.boundary.specs.Results.{counted_result, reason_result, judged_result, matched_result, state_of, IsRun};

// Counts the equations of a rule.
#[unsafe(no_mangle)]
pub extern "C" fn jarveun_count(rule: &[u8], value: &mut usize) -> u8
    ensures value { result ≡ (counted_result (counted_of (synthesis_of most rule.now))).number }
    ensures value_after { value.new ≡ (counted_result (counted_of (synthesis_of most rule.now))).value }
{
    boundary::jarveun_count(rule, value)
}

// Fills a table with the rows of a rule's equations.
#[unsafe(no_mangle)]
pub extern "C" fn jarveun_fill(rule: &[u8], table: &mut [u16], value: &mut usize) -> u8
    ensures value { result ≡ (counted_result (counted_of (filling_of most rule.now (length table.old)))).number }
    ensures value_after { value.new ≡ (counted_result (counted_of (filling_of most rule.now (length table.old)))).value }
    ensures table_after { table.new ≡ table_after mark (filling_of most rule.now (length table.old)) table.old }
{
    boundary::jarveun_fill(rule, table, value)
}

// Counts the equations of a rule as the rule page shows it.
#[unsafe(no_mangle)]
pub extern "C" fn jarveun_count_preview(rule: &[u8], value: &mut usize) -> u8
    ensures value { result ≡ (counted_result (counted_of (preview_of rule.now))).number }
    ensures value_after { value.new ≡ (counted_result (counted_of (preview_of rule.now))).value }
{
    boundary::jarveun_count_preview(rule, value)
}

// Fills a table with their rows.
#[unsafe(no_mangle)]
pub extern "C" fn jarveun_fill_preview(rule: &[u8], table: &mut [u16], value: &mut usize) -> u8
    ensures value { result ≡ (counted_result (counted_of (preview_filling_of rule.now (length table.old)))).number }
    ensures value_after { value.new ≡ (counted_result (counted_of (preview_filling_of rule.now (length table.old)))).value }
    ensures table_after { table.new ≡ table_after mark (preview_filling_of rule.now (length table.old)) table.old }
{
    boundary::jarveun_fill_preview(rule, table, value)
}

// Counts the rows of a rule's short table.
#[unsafe(no_mangle)]
pub extern "C" fn jarveun_count_short(rule: &[u8], value: &mut usize) -> u8
    ensures value { result ≡ (counted_result (counted_of (short_of most rule.now))).number }
    ensures value_after { value.new ≡ (counted_result (counted_of (short_of most rule.now))).value }
{
    boundary::jarveun_count_short(rule, value)
}

// Fills a table with these rows.
#[unsafe(no_mangle)]
pub extern "C" fn jarveun_fill_short(rule: &[u8], table: &mut [u16], value: &mut usize) -> u8
    ensures value { result ≡ (counted_result (counted_of (short_filling_of most rule.now (length table.old)))).number }
    ensures value_after { value.new ≡ (counted_result (counted_of (short_filling_of most rule.now (length table.old)))).value }
    ensures table_after { table.new ≡ table_after mark (short_filling_of most rule.now (length table.old)) table.old }
{
    boundary::jarveun_fill_short(rule, table, value)
}

// Explains why a scan is dropped after the scans kept so far. Answers 0, with the number of an ff node in `value`, or `KEPT_VALUE` where the scan is
// kept; or the number of a refusal, with its place.
#[unsafe(no_mangle)]
pub extern "C" fn jarveun_explain(rule: &[u8], kept: &[u8], scan: u8, value: &mut usize) -> u8
    ensures value { result ≡ (reason_result (reason_of (explanation_of most rule.now kept.now scan))).number }
    ensures value_after { value.new ≡ (reason_result (reason_of (explanation_of most rule.now kept.now scan))).value }
{
    boundary::jarveun_explain(rule, kept, scan, value)
}

// Judges a model under a rule. Answers 0, with 1 in `value` where it meets the rule and 0 where it breaks it, or the number of a refusal, with
// its place.
#[unsafe(no_mangle)]
pub extern "C" fn jarveun_judge(
    rule: &[u8],
    model: &[u8],
    table: &mut [u16],
    value: &mut usize,
) -> u8
    ensures judged_as { (answer : Outcome Judgment) × JudgedAs (judging_of most rule.now (length table.old) model.now) answer
        × (result ≡ (judged_result answer).number) × (value.new ≡ (judged_result answer).value) }
    ensures table_after { table.new
        ≡ table_judged (judging_of most rule.now (length table.old) model.now)
        (table_after mark (filling_of most rule.now (length table.old)) table.old)
        table.old }
{
    boundary::jarveun_judge(rule, model, table, value)
}

// Says whether a list of pairs of states matches two models. Answers 0, with 1 in `value` for yes and 0 for no, and 0 in `input`; or the number of a
// refusal, with its place, and in `input` what it is about: 1 the first model, 2 the second, 3 the list.
#[unsafe(no_mangle)]
pub extern "C" fn jarveun_match(
    first: &[u8],
    second: &[u8],
    pairs: &[u8],
    value: &mut usize,
    input: &mut usize,
) -> u8
    ensures { (answer : MatchAnswer) × MatchedAs (matching_of first.now second.now pairs.now) answer
        × (result ≡ (matched_result answer).number) × (value.new ≡ (matched_result answer).value)
        × (input.new ≡ (matched_result answer).input) }
{
    boundary::jarveun_match(first, second, pairs, value, input)
}

// Runs over scans from `equation`, which becomes the one in which the run ends; puts how many were kept and dropped into `kept` and `dropped`.
// Answers 0, or the number of a refusal, whose place is 0.
#[unsafe(no_mangle)]
pub extern "C" fn jarveun_run(
    table: &[u16],
    count: usize,
    equation: &mut usize,
    scans: &[u8],
    output: &mut [u8],
    verdicts: &mut [u8],
    kept: &mut usize,
    dropped: &mut usize,
) -> u8
    ensures run { IsRun (state_of equation.old)
        (run_of most mark table.now count (state_of equation.old)
        scans.now (length output.old) (length verdicts.old))
        result equation.new kept.new dropped.new }
    ensures output_after { output.new ≡ output_after (run_of most mark table.now count (state_of equation.old)
        scans.now (length output.old) (length verdicts.old)) output.old }
    ensures verdicts_after { verdicts.new ≡ verdicts_after (run_of most mark table.now count (state_of equation.old)
        scans.now (length output.old) (length verdicts.old)) verdicts.old }
{
    boundary::jarveun_run(
        table, count, equation, scans, output, verdicts, kept, dropped,
    )
}
