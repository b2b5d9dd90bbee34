// Why a scan is dropped.
ghost use Rattle.std.specs.Prelude.{◌≡◌};
ghost use Rattle.reading.specs.Refusals.{as_outcome};
ghost use Rattle.synthesis.specs.Reason.{lowest_reason, followed};
ghost use Rattle.synthesis.specs.Arrays.{answer_by};

use crate::graph::Graph;
use reading::{Fault, Refusal};

// The equation to which scans lead from the first one, or the refusal of the first scan that is dropped.
pub(crate) fn follow(graph: &Graph, scans: &[u8]) -> Result<u64, Refusal>
    ensures { as_outcome result ≡ followed (answer_by graph.now) graph.now.first 0 scans.now }
{
    let mut e = graph.first;
    for (i, scan) in scans.iter().enumerate() {
        e = graph
            .answer(e, *scan as usize)
            .ok_or(Fault::AlreadyViolated.at(i))?;
    }
    Ok(e)
}

// What is said of a scan that opens these ff nodes: the lowest of them, or none where the scan is kept.
pub(crate) fn lowest(set: u64) -> Option<u8>
    ensures { result ≡ lowest_reason set }
{
    if set == 0 {
        None
    } else {
        Some(set.trailing_zeros() as u8)
    }
}
