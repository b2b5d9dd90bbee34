// The lines of a listing, and those of a refusal and of a judgment.
ghost use Rattle.std.specs.Prelude.{[], ◌∷◌, ◌≤◌, length};
ghost use Rattle.listing.specs.Text.{decimal};
ghost use Rattle.listing.specs.Runs.{code_run};
ghost use Rattle.listing.specs.Lines.{line, refusal_line, pattern_line, run_line};
ghost use Rattle.listing.specs.LineParts.{Prints};

use crate::Line;
use crate::text::Text;
use reading::Extent;

// A word and a number.
#[tactic(auto, using(crate::proofs::Decimals::field_lengths))]
pub(crate) fn counted(word: &[u8], n: usize) -> Line
    requires { length word.now ≤ 16 }
    ensures { Prints (line (word.now ∷ decimal n ∷ [])) result }
{
    Text::new().word(word).field(n).line()
}

// A word alone.
pub(crate) fn alone(word: &[u8]) -> Line
    requires { length word.now ≤ 16 }
    ensures { Prints (line (word.now ∷ [])) result }
{
    Text::new().word(word).line()
}

// Pattern i.
#[tactic(auto, using(crate::proofs::Decimals::field_lengths))]
pub(crate) fn pattern(i: usize, extent: Extent) -> Line
    ensures { Prints (pattern_line i extent) result }
{
    Text::new()
        .word(b"p")
        .field(i)
        .lowest(extent.lowest)
        .field(extent.count as usize)
        .line()
}

// A run of equation k.
#[tactic(auto, using(crate::proofs::Decimals::field_lengths))]
pub(crate) fn run(k: usize, first: u8, last: u8, entry: u16) -> Line
    ensures { Prints (run_line k (code_run first last entry)) result }
{
    Text::new()
        .decimal(k)
        .field(first as usize)
        .field(last as usize)
        .entry(entry)
        .line()
}

// A refusal.
#[tactic(auto, using(crate::proofs::Decimals::field_lengths))]
pub(crate) fn refusal(number: u8, place: usize) -> Line
    ensures { Prints (refusal_line number place) result }
{
    Text::new()
        .word(b"refused")
        .field(number as usize)
        .word(b" at")
        .field(place)
        .line()
}
