// The lines of a listing as an iterator.
ghost use Rattle.std.specs.Prelude.{ℕ, ◌+◌, ◌-◌, ◌*◌};
ghost use Rattle.std.specs.Iterator.{at_most};

use listing::Line;
use reading::NumberedRule;

// The lines of a listing from a position on.
#[derive(Drop)]
pub(crate) struct Lines<'a> {
    pub(crate) rule: NumberedRule,
    pub(crate) table: &'a [u16],
    pub(crate) count: usize,
    pub(crate) at: usize,
}

impl Iterator for Lines<'_> {
    type Item = Line;

    ghost use Rattle.std.specs.Prelude.{ℕ, ◌+◌, ◌-◌, ◌*◌};
    ghost use Rattle.std.specs.Iterator.{at_most};
    ghost use Rattle.commands.specs.LineByLine.{GivesLine};

    ghost next_gives = { GivesLine };

    ghost remaining = { λ s. at_most (34 + 256 * s.count - s.at) };

    #[tactic(auto, using(listing::proofs::LaterLines::listing_line_later))]
    fn next(&mut self) -> Option<Line> {
        let this = listing::listing_line(self.rule, self.table, self.count, self.at);
        self.at = this.next;
        if this.line.len == 0 {
            return None;
        }
        Some(this.line)
    }
}
