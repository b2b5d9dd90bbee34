// Reads phone models, and judges whether they satisfy a rule. The definitions that the contracts cite stand in specs/.
#![tactic(auto)]

mod exploring;
mod kind;
mod links;
mod loading;
mod matching;
mod pairing;
mod records;
mod worklist;

ghost use Rattle.std.specs.Prelude.{◌≡◌, min, length};
ghost use Rattle.reading.specs.Refusals.{as_outcome};
ghost use Rattle.synthesis.specs.Monitor.{mark, most};
ghost use Rattle.synthesis.specs.Building.{filling_of, counted_of, table_after};
ghost use Rattle.models.specs.Phone.{Phone, phone_of};
ghost use Rattle.models.specs.Judging.{stored, model_reading_of, judging_of, JudgedAs, table_judged};
ghost use Rattle.models.specs.Pairs.{matching_of, match_answer, MatchedAs};
ghost use Rattle.models.specs.Exploring.{HasPhone};

use reading::{Fault, Refusal};
use synthesis::MOST;

/// The label of a silent step. Every other label is a code.
pub const SILENT: u16 = 256;

/// A step of a phone model.
#[derive(Clone, Copy, Debug, PartialEq, Eq)]
pub struct Step {
    pub from: u8,
    pub label: u16,
    pub to: u8,
}

/// A phone model: how many states it has, and its steps, the first nsteps of the array.
#[derive(Clone, Copy)]
pub struct PhoneModel {
    pub states: usize,
    pub steps: [Step; 512],
    pub nsteps: usize,
}

/// What is said of a model under a rule.
#[derive(Clone, Copy, Debug, PartialEq, Eq)]
pub enum Judgment {
    Meets,
    Breaks,
}

/// Why two models and a list of pairs of their states are refused: the refusal of one of the three.
#[derive(Clone, Copy, Debug, PartialEq, Eq)]
pub enum MatchError {
    First(Refusal),
    Second(Refusal),
    Pairs(Refusal),
}

// A blank record, which stands where there is no step.
const NO_STEP: Step = Step {
    from: 0,
    label: 0,
    to: 0,
};

impl PhoneModel {
    // The steps.
    fn steps(&self) -> &[Step]
        requires { HasPhone self.now }
        ensures { (y : Phone) → self.now ≡ stored y → result.now ≡ y.steps }
    {
        &self.steps[..self.nsteps]
    }
}

/// What the bytes of a model file say.
pub fn read_model(bytes: &[u8]) -> Result<PhoneModel, Refusal>
    ensures { as_outcome result ≡ model_reading_of (phone_of bytes.now) }
{
    let states = records::read_states(bytes)?;
    let mut steps = [NO_STEP; 512];
    let nsteps = loading::read_steps(bytes, states, &mut steps)?;
    Ok(PhoneModel {
        states,
        steps,
        nsteps,
    })
}

// The count of the equations of a rule, where filling a table of so many entries isn't refused.
fn count_to_fill(rule: &[u8], limit: usize, capacity: usize) -> Result<usize, Refusal>
    ensures { as_outcome result ≡ counted_of (filling_of (min limit most) rule.now capacity) }
{
    let count = synthesis::count_within(rule, limit)?;
    if capacity < 256 * count {
        return Err(Fault::TableTooShort.at(0));
    }
    Ok(count)
}

/// Judges whether the model of a file meets the rule of another, and leaves the rule's rows in the table as filling within the limit does. A refused call
/// leaves the table as it was: the model is read before a row is written, and refused after the rule.
pub fn judge_within(
    rule: &[u8],
    model: &[u8],
    limit: usize,
    table: &mut [u16],
) -> Result<Judgment, Refusal>
    ensures judged_as { JudgedAs (judging_of (min limit most) rule.now (length table.old) model.now) (as_outcome result) }
    ensures table_after { table.new
        ≡ table_judged (judging_of (min limit most) rule.now (length table.old) model.now)
        (table_after mark (filling_of (min limit most) rule.now (length table.old)) table.old)
        table.old }
{
    let model = match read_model(model) {
        Ok(model) => model,
        Err(refusal) => {
            count_to_fill(rule, limit, table.len())?;
            return Err(refusal);
        }
    };
    synthesis::fill_within(rule, limit, table)?;
    if exploring::never_drops(model.steps(), table) {
        Ok(Judgment::Meets)
    } else {
        Ok(Judgment::Breaks)
    }
}

/// The same under the most equations that a rule may have.
pub fn judge(rule: &[u8], model: &[u8], table: &mut [u16]) -> Result<Judgment, Refusal>
    ensures judged_as { JudgedAs (judging_of most rule.now (length table.old) model.now) (as_outcome result) }
    ensures table_after { table.new
        ≡ table_judged (judging_of most rule.now (length table.old) model.now)
        (table_after mark (filling_of most rule.now (length table.old)) table.old)
        table.old }
{
    judge_within(rule, model, MOST, table)
}

/// Says whether a list of pairs has the pair of the starts, and is a strong bisimulation between the models of two files. The list is read to its end before
/// anything is said.
pub fn match_models(first: &[u8], second: &[u8], pairs: &[u8]) -> Result<bool, MatchError>
    ensures { MatchedAs (matching_of first.now second.now pairs.now) (match_answer result) }
{
    let drawn = read_model(first).map_err(MatchError::First)?;
    let simplified = read_model(second).map_err(MatchError::Second)?;
    let relation = pairing::read_pairs(pairs, drawn.states, simplified.states).map_err(
        MatchError::Pairs,
    )?;
    Ok(matching::are_matched(
        drawn.steps(),
        simplified.steps(),
        &relation.rows,
        &relation.columns,
    ))
}
