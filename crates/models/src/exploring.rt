// The search for a step that is dropped, over the pairs of a state and an equation.
ghost use Rattle.std.specs.Prelude.{◌≡◌, ◌↔◌, true, false, ℕ, ◌+◌, ◌*◌, ◌/◌, ◌≤◌, ◌<◌, length};
ghost use Rattle.synthesis.specs.Monitor.{mark, most, lookup};
ghost use Rattle.synthesis.specs.Table.{WellFormedTable};
ghost use Rattle.models.specs.Exploring.{NeverDrops, StepsWithinLimits, model_with, Chains, ListsSeen, leads_to};
ghost use Rattle.models.specs.Searching.{Expands, DroppedStep};

use crate::links::Links;
use crate::worklist::{PAIRS, Worklist};
use crate::{SILENT, Step};
use synthesis::DROPPED;

// The equation to which a step with this label leads; none where it is dropped.
#[tactic(auto, using(crate::proofs::Pairs::Leading::leads_nowhere, crate::proofs::Pairs::Leading::leads_to_entry))]
fn equation_after(table: &[u16], equation: usize, label: u16) -> Option<usize>
    requires { (256 * equation + 256 ≤ length table.now) × (label ≤ 256) }
    ensures { result ≡ leads_to table.now equation label }
{
    if label == SILENT {
        return Some(equation);
    }
    let entry = table[256 * equation + usize::from(label)];
    if entry == DROPPED {
        return None;
    }
    Some(usize::from(entry))
}

// Whether a step of this pair is dropped. If none is, the pairs to which its steps lead are on the worklist.
fn has_dropped(
    pair: usize,
    steps: &[Step],
    links: &Links,
    table: &[u16],
    worklist: &mut Worklist,
) -> bool
    requires steps { StepsWithinLimits steps.now × Chains steps.now links.now }
    requires pair { (count : ℕ) × WellFormedTable most mark count table.now × (pair / 64 < count) }
    requires listed { ListsSeen worklist.old }
    ensures kept { result ≡ false → Expands steps.now table.now pair worklist.old worklist.new 0 }
    ensures dropped { result ≡ true → DroppedStep steps.now table.now pair }
{
    let equation = pair / 64;
    let mut next = links.last_from(pair % 64);
    while let Some(i) = next {
        let step = &steps[i];
        let Some(after) = equation_after(table, equation, step.label) else {
            return true;
        };
        worklist.enqueue(64 * after + usize::from(step.to));
        next = links.before(i);
    }
    false
}

// Whether no pair that is reached has a step that is dropped. Each pair is expanded once.
#[inline(never)]
pub(crate) fn never_drops(steps: &[Step], table: &[u16]) -> bool
    requires { StepsWithinLimits steps.now × ((count : ℕ) × WellFormedTable most mark count table.now) }
    ensures { (result ≡ true) ↔ NeverDrops (lookup 256 mark table.now) 0 (model_with steps.now) }
{
    let links = Links::new(steps);
    let mut worklist = Worklist {
        seen: [false; PAIRS],
        pairs: [0; PAIRS],
        found: 0,
        expanded: 0,
    };
    worklist.enqueue(0);
    while let Some(pair) = worklist.next() {
        if has_dropped(pair, steps, &links, table, &mut worklist) {
            return false;
        }
    }
    true
}
