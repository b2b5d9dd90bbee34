// The records of a model file.
ghost use Rattle.std.specs.Prelude.{◌≡◌, ◌<◌, length};
ghost use Rattle.reading.specs.Refusals.{as_outcome};
ghost use Rattle.reading.specs.Representations.{record_at};
ghost use Rattle.models.specs.Phone.{states_of, among, code_step_at, silent_step_at, step_format, record_length};

use crate::kind::StepKind;
use crate::{SILENT, Step};
use reading::{Fault, Refusal};

// The byte with which the first record begins.
const STATES: u8 = 16;

// The count of states, from the first record.
#[tactic(auto, unfolding(crate::specs::Phone::states_of))]
pub(crate) fn read_states(bytes: &[u8]) -> Result<usize, Refusal>
    ensures { as_outcome result ≡ states_of bytes.now }
{
    let &[kind, ..] = bytes else {
        return Err(Fault::ModelEnds.at(bytes.len()));
    };
    if kind != STATES {
        return Err(Fault::BadModelRecord.at(0));
    }
    let &[_, states, ..] = bytes else {
        return Err(Fault::ModelEnds.at(bytes.len()));
    };
    if states == 0 || 64 < states {
        return Err(Fault::BadModelRecord.at(0));
    }
    Ok(usize::from(states))
}

// The record of a step at `at`, with `left` of the 512 steps left.
pub(crate) fn read_step(
    bytes: &[u8],
    states: usize,
    at: usize,
    left: usize,
) -> Result<Step, Refusal>
    requires { at < length bytes.now }
    ensures { as_outcome result ≡ record_at (step_format bytes.now states) left at }
{
    let Ok(kind) = StepKind::try_from(bytes[at]) else {
        return Err(Fault::BadModelRecord.at(at));
    };
    if left == 0 {
        return Err(Fault::TooManySteps.at(at));
    }
    let (from, label, to) = match (kind, &bytes[at + 1..]) {
        (StepKind::Code, &[from, label, to, ..]) => (from, u16::from(label), to),
        (StepKind::Silent, &[from, to, ..]) => (from, SILENT, to),
        _ => return Err(Fault::ModelEnds.at(bytes.len())),
    };
    if states <= usize::from(from) || states <= usize::from(to) {
        return Err(Fault::NoSuchState.at(at));
    }
    Ok(Step { from, label, to })
}

// How many bytes the record of a step has.
pub(crate) fn record_length(step: Step) -> usize
    ensures { result ≡ record_length step }
{
    if step.label == SILENT { 3 } else { 4 }
}
