// Pattern records: reading one, its lowest code and count, and all that a file begins with.
ghost use Rattle.std.specs.Prelude.{◌≡◌, ◌<◌, length};
ghost use Rattle.reading.specs.Pattern.{extent_of, WellFormedPattern};
ghost use Rattle.reading.specs.File.{is_pattern, pattern_format, patterns_at};
ghost use Rattle.reading.specs.Refusals.{as_outcome};
ghost use Rattle.reading.specs.Representations.{record_at, head_of};

use crate::kind::Kind;
use crate::slots::slot_set;
use crate::{Extent, Fault, Listed, Pattern, Refusal};

/// The patterns that a file begins with, and the place after them.
#[derive(Clone, Copy)]
pub(crate) struct Head {
    pub(crate) list: [Listed; 32],
    pub(crate) count: usize,
    pub(crate) next: usize,
}

// The lowest code and the count of codes of a pattern: by the trailing zeros of the mask and of the set of slots, and by their ones. One of no kind covers
// no code.
#[tactic(auto, using(crate::proofs::Measures::Extents::no_extent_lem, crate::proofs::Measures::Extents::lowest_fits))]
fn extent(p: Pattern) -> Extent
    requires { WellFormedPattern p }
    ensures { result ≡ extent_of p }
{
    if p.mask == 0 {
        return Extent {
            lowest: None,
            count: 0,
        };
    }
    let slots = slot_set(p.first, p.last);
    let lowest = p.mask.trailing_zeros() * 32 + slots.trailing_zeros();
    let count = p.mask.count_ones() * slots.count_ones();
    Extent {
        lowest: Some(lowest as u8),
        count: count as u16,
    }
}

// The pattern record at `at`, with `left` of the 32 patterns left.
fn read_pattern(bytes: &[u8], at: usize, left: usize) -> Result<Pattern, Refusal>
    requires { at < length bytes.now }
    ensures { as_outcome result ≡ record_at (pattern_format bytes.now) left at }
{
    if left == 0 {
        return Err(Fault::TooManyRecords.at(at));
    }
    let Some([_, mask, first, last]) = bytes.get(at..at + 4) else {
        return Err(Fault::FileEnds.at(bytes.len()));
    };
    if 31 < *first || 31 < *last {
        return Err(Fault::NoSuchSlot.at(at));
    }
    Ok(Pattern {
        mask: *mask,
        first: *first,
        last: *last,
    })
}

// Whether a pattern record begins at `at`.
fn is_pattern(bytes: &[u8], at: usize) -> bool
    ensures { result ≡ is_pattern bytes.now at }
{
    bytes.get(at) == Some(&(Kind::Pattern as u8))
}

// The patterns that a file begins with. A `for` over the 32 places would look for a 33rd pattern after it, so this is a `while`.
#[tactic(auto, using(crate::proofs::Functions::Heads::patterns_begun_one))]
pub(crate) fn read_patterns(bytes: &[u8]) -> Result<Head, Refusal>
    ensures { as_outcome result ≡ head_of (patterns_at 32 bytes.now 0) }
{
    let pattern = Pattern {
        mask: 0,
        first: 0,
        last: 0,
    };
    let none = Listed {
        pattern,
        extent: extent(pattern),
    };
    let mut list = [none; 32];
    let mut count = 0;
    let mut at = 0;
    while is_pattern(bytes, at) {
        let pattern = read_pattern(bytes, at, 32 - count)?;
        list[count] = Listed {
            pattern,
            extent: extent(pattern),
        };
        count += 1;
        at += 4;
    }
    Ok(Head {
        list,
        count,
        next: at,
    })
}
