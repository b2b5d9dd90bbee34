// Reads a list of pairs of states, first of one model and then of another, into the relation that it is.
ghost use Rattle.std.specs.Prelude.{◌≡◌, ◌^◌, ◌≤◌, ◌<◌, List, ℕ, length, take, drop};
ghost use Rattle.reading.specs.Refusals.{as_outcome};
ghost use Rattle.models.specs.Pairs.{pair_at, pairs_of};
ghost use Rattle.models.specs.Relating.{pair_read, RelatedAs};

use reading::{Fault, Refusal};

// How many pairs a list may have.
const PAIRS: usize = 4096;

// A relation between the states of two models. Row x has the states of the second that are related to state x of the first, state y as bit y; column y has
// those of the first that are related to state y of the second.
#[derive(Drop)]
pub(crate) struct Relation {
    pub(crate) rows: [u64; 64],
    pub(crate) columns: [u64; 64],
}

// The pair that these bytes at `at` are, with `left` of the 4,096 pairs left.
fn read_pair(
    bytes: &[u8],
    first: usize,
    second: usize,
    at: usize,
    left: usize,
) -> Result<(u8, u8), Refusal>
    requires { (at < 2 ^ 63) × (0 < length bytes.now) × (length bytes.now ≤ 2) }
    ensures { (l : List ℕ) → bytes.now ≡ take 2 (drop at l) → as_outcome result ≡ pair_read (pair_at l first second at left) }
{
    let &[x, y] = bytes else {
        return Err(Fault::PairsEnd.at(at + 1));
    };
    if first <= usize::from(x) || second <= usize::from(y) {
        return Err(Fault::NoSuchPair.at(at));
    }
    if left == 0 {
        return Err(Fault::TooManyPairs.at(at));
    }
    Ok((x, y))
}

// The relation of a list of pairs, for models with so many states.
pub(crate) fn read_pairs(bytes: &[u8], first: usize, second: usize) -> Result<Relation, Refusal>
    requires { (first ≤ 64) × (second ≤ 64) }
    ensures { RelatedAs (pairs_of bytes.now first second) result }
{
    let mut rows = [0u64; 64];
    let mut columns = [0u64; 64];
    for (i, pair) in bytes.chunks(2).enumerate() {
        let (x, y) = read_pair(pair, first, second, 2 * i, PAIRS - i)?;
        rows[usize::from(x)] |= 1 << y;
        columns[usize::from(y)] |= 1 << x;
    }
    Ok(Relation { rows, columns })
}
