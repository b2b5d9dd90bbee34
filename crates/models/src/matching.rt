// Whether a relation between the states of two models is a strong bisimulation that relates their starts.
ghost use Rattle.std.specs.Prelude.{◌≡◌, ◌↔◌, ◌<◌, true, length};
ghost use Rattle.models.specs.Exploring.{StepsWithinLimits};
ghost use Rattle.models.specs.Relating.{IsPartner, Partners, HavePartners, MatchedBy};

use crate::Step;

// Whether a step has this label and leads to one of the targets.
#[tactic(auto, unfolding(reading::specs::Pattern::bit))]
fn is_partner(step: &Step, label: u16, targets: u64) -> bool
    requires { step.now.to < 64 }
    ensures { (result ≡ true) ↔ IsPartner step.now label targets }
{
    step.label == label && (targets >> step.to) % 2 == 1
}

// The states from which a step with this label leads to one of the targets.
fn partners(steps: &[Step], label: u16, targets: u64) -> u64
    requires { StepsWithinLimits steps.now }
    ensures { Partners steps.now (length steps.now) label targets result }
{
    let mut states = 0u64;
    for step in steps {
        if is_partner(step, label, targets) {
            states |= 1 << step.from;
        }
    }
    states
}

// Whether each step of one model has a partner in the other from every state that is related to its own.
#[tactic(auto, using(crate::proofs::Matchings::PartnerLaws::next_has_partners, crate::proofs::Matchings::PartnerLaws::lacks_partners))]
fn have_partners(steps: &[Step], others: &[Step], rows: &[u64; 64]) -> bool
    requires { StepsWithinLimits steps.now × StepsWithinLimits others.now }
    ensures { (result ≡ true) ↔ HavePartners steps.now (length steps.now) others.now rows.now }
{
    for step in steps {
        let related = rows[usize::from(step.from)];
        let found = partners(others, step.label, rows[usize::from(step.to)]);
        if related & found != related {
            return false;
        }
    }
    true
}

// Whether the relation relates the starts and is a strong bisimulation: each step of the first model has partners by the rows, and each of the second by the
// columns.
pub(crate) fn are_matched(
    first: &[Step],
    second: &[Step],
    rows: &[u64; 64],
    columns: &[u64; 64],
) -> bool
    requires { StepsWithinLimits first.now × StepsWithinLimits second.now }
    ensures { (result ≡ true) ↔ MatchedBy first.now second.now rows.now columns.now }
{
    rows[0] % 2 == 1 && have_partners(first, second, rows) && have_partners(second, first, columns)
}
