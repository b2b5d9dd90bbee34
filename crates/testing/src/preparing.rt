// Buffers and tables with bytes and entries that are known.
ghost use Rattle.std.specs.Prelude.{◌≡◌, ◌+◌, length, map};
ghost use Rattle.testing.specs.Preparing.{prepared};

use crate::digits::Digit;

// Sets every byte of a buffer or every entry of a table: number i is first + step × i, modulo top + 1.
#[tactic(auto, using(crate::proofs::PreparingLaws::prepared_more, crate::proofs::PreparingLaws::next_more), unfolding(crate::specs::Preparing::prepared))]
pub fn prepare<D: Digit>(digits: &mut [D], first: u64, step: D, top: D)
    ensures { map D.value_of digits.new ≡ prepared (D.value_of top + 1) first (D.value_of step) (length digits.old) }
{
    let size = top.wide() + 1;
    let mut next = first % size;
    for digit in digits.iter_mut() {
        *digit = D::narrow(next);
        next = (next + step.wide()) % size;
    }
}

// Sets the table that is lent to a call, other than before the last one: entry i is case + 263 × i, modulo 65,521.
pub fn refresh(table: &mut [u16], case: u64)
    ensures { table.new ≡ prepared 65521 case 263 (length table.old) }
{
    prepare(table, case, 263, 65520);
}
