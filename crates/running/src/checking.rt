// Refusals 15 and 16. A table and its count stay two parameters, as in the promise of `run`: a struct would be made for two calls and taken apart in them.
ghost use Rattle.std.specs.Prelude.{◌≡◌};
ghost use Rattle.reading.specs.Refusals.{as_outcome};
ghost use Rattle.synthesis.specs.Monitor.{mark, most};
ghost use Rattle.running.specs.Running.{in_range, entries_in_range, is_well_formed, fits, has_room, run_of, checked_of};

use crate::State;
use reading::{Fault, Refusal};
use synthesis::{DROPPED, MOST};

// Whether an entry is the mark for dropped or the number of an equation.
fn in_range(entry: u16, count: u16) -> bool
    ensures { result ≡ in_range mark count entry }
{
    entry == DROPPED || entry < count
}

// Whether all entries are in range. There is no way out before the last, so that many can be looked at in one step.
#[tactic(auto, using(crate::proofs::ListTests::all_last), unfolding(crate::specs::Lists::all))]
fn entries_in_range(entries: &[u16], count: u16) -> bool
    ensures { result ≡ entries_in_range mark count entries.now }
{
    let mut all = true;
    for entry in entries {
        all &= in_range(*entry, count);
    }
    all
}

// Whether the table is well formed for so many equations.
#[tactic(auto, unfolding(crate::specs::Running::is_well_formed))]
fn is_well_formed(table: &[u16], count: usize) -> bool
    ensures { result ≡ is_well_formed most mark table.now count }
{
    if count == 0 || MOST < count {
        return false;
    }
    let end = 256 * count;
    end <= table.len() && entries_in_range(&table[..end], count as u16)
}

// Whether it is, and the state's equation is one of them.
#[tactic(auto, unfolding(crate::specs::Running::fits))]
pub(crate) fn fits(table: &[u16], count: usize, state: State) -> bool
    ensures { result ≡ fits most mark table.now count state }
{
    is_well_formed(table, count) && state.equation < count
}

// Whether an output and verdicts of these lengths have room for every scan.
pub(crate) fn has_room(scans: &[u8], output: usize, verdicts: usize) -> bool
    ensures { result ≡ has_room scans.now output verdicts }
{
    scans.len() <= output && scans.len() <= verdicts
}

// Whether a run is refused: 15 comes before 16.
#[tactic(auto, unfolding(crate::specs::Running::run_of))]
pub(crate) fn check(
    table: &[u16],
    count: usize,
    state: State,
    scans: &[u8],
    output: usize,
    verdicts: usize,
) -> Result<(), Refusal>
    ensures { as_outcome result ≡ checked_of (run_of most mark table.now count state scans.now output verdicts) }
{
    if !has_room(scans, output, verdicts) {
        return Err(Fault::NoRoom.at(0));
    }
    if !fits(table, count, state) {
        return Err(Fault::Unfit.at(0));
    }
    Ok(())
}
