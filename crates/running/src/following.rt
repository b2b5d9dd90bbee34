// The loop over the scans of a call.
ghost use Rattle.std.specs.Prelude.{◌≡◌, ◌≤◌, ◌<◌, length, get_or};
ghost use Rattle.synthesis.specs.Monitor.{mark, most, row_of};
ghost use Rattle.running.specs.Running.{run_from, overlay};

use crate::State;
use std::hint::select_unpredictable;
use synthesis::{DROPPED, row};

// Where a loop over scans ends: the state, and how many scans were kept.
#[derive(Drop)]
pub(crate) struct End<S> {
    pub(crate) state: S,
    pub(crate) kept: usize,
}

// What an entry is for a dropped code. Entries are as wide as an index here: u16 is slower, since each would be widened on the way to the next scan's row.
pub(crate) const MARK: usize = DROPPED as usize;

// The entry of an equation for a code, from the row of the equation; MARK where the row has none.
pub(crate) fn entry(table: &[u16], equation: usize, code: u8) -> usize
    ensures value { result ≡ get_or (row_of 256 table.now equation) code mark }
    ensures upper_bound { result < 65536 }
{
    row(table, equation)
        .get(usize::from(code))
        .map_or(MARK, |entry| usize::from(*entry))
}

// Runs over the scans. What goes from scan to scan is where the row of the equation begins. For a dropped scan the byte of the output is
// written back as it was: so nothing in the compiled loop jumps on an entry.
pub(crate) fn follow(
    table: &[u16],
    state: State,
    scans: &[u8],
    output: &mut [u8],
    verdicts: &mut [u8],
) -> End<State>
    requires { (state.equation < most) × (length scans.now ≤ length output.old) × (length scans.now ≤ length verdicts.old) }
    ensures state_value { result.state ≡ (run_from mark table.now state scans.now).state }
    ensures kept_value { result.kept ≡ length (run_from mark table.now state scans.now).kept }
    ensures output_after { output.new ≡ overlay (run_from mark table.now state scans.now).kept output.old }
    ensures verdicts_after { verdicts.new
        ≡ overlay (run_from mark table.now state scans.now).verdicts verdicts.old }
{
    let mut from = 256 * state.equation;
    let mut kept = 0;
    for (i, &code) in scans.iter().enumerate() {
        let entry = entry(table, from / 256, code);
        let is_dropped = entry == MARK;
        from = select_unpredictable(is_dropped, from, 256 * entry);
        verdicts[i] = u8::from(is_dropped);
        output[kept] = select_unpredictable(is_dropped, output[kept], code);
        kept += usize::from(!is_dropped);
    }
    End {
        state: State {
            equation: from / 256,
        },
        kept,
    }
}
