// The pairs of a state and an equation that the search has seen. State s beside equation e is pair 64 × e + s.
ghost use Rattle.std.specs.Prelude.{◌<◌};
ghost use Rattle.models.specs.Exploring.{pair_limit, ListsSeen, Enqueued, Taken};

use synthesis::MOST;

// How many pairs there may be.
pub(crate) const PAIRS: usize = 64 * MOST;

// The pairs seen, of which `found` are listed in the order in which they were found, and how many of those have been expanded. The others are the
// frontier.
#[derive(Drop)]
pub(crate) struct Worklist {
    pub(crate) seen: [bool; PAIRS],
    pub(crate) pairs: [u16; PAIRS],
    pub(crate) found: usize,
    pub(crate) expanded: usize,
}

impl Worklist {
    // Puts a pair on the list, unless it was seen before.
    pub(crate) fn enqueue(&mut self, pair: usize)
        requires { ListsSeen self.old × (pair < pair_limit) }
        ensures { Enqueued pair self.old self.new }
    {
        if self.seen[pair] {
            return;
        }
        self.seen[pair] = true;
        self.pairs[self.found] = pair as u16;
        self.found += 1;
    }

    // The first pair of the frontier, which counts as expanded from now on.
    pub(crate) fn next(&mut self) -> Option<usize>
        requires { ListsSeen self.old }
        ensures { Taken self.old self.new result }
    {
        if self.expanded == self.found {
            return None;
        }
        let pair = self.pairs[self.expanded];
        self.expanded += 1;
        Some(usize::from(pair))
    }
}
