// What the answers of a rule's equations are worked out from: sets of its nodes, node n as bit n.
ghost use Rattle.std.specs.Prelude.{◌≡◌, ◌+◌, ◌<◌, Some, None};
ghost use Rattle.reading.specs.Rule.{Rule};
ghost use Rattle.synthesis.specs.Monitor.{cases};
ghost use Rattle.synthesis.specs.Answering.{falsities};
ghost use Rattle.synthesis.specs.Arrays.{IsNumbered, SomeNumbered, IsOpening, Linked, AfterAll, with_node, AddedToCodes};
ghost use Rattle.synthesis.specs.Arrays.{EnabledBelow, Enabled, IsGraph, gathered, reached_by, answer_by};

use reading::{Node, NumberedRule, Pattern};

// The first equation and the ff nodes of a rule; for each node that is a necessity, what opening the formula after it gives; for each
// code, the necessities whose patterns cover it.
#[derive(Drop)]
pub(crate) struct Graph {
    pub(crate) first: u64,
    pub(crate) falsities: u64,
    pub(crate) after: [u64; 64],
    pub(crate) enabled: [u64; 256],
}

impl Graph {
    // The graph of a rule.
    pub(crate) fn of_rule(rule: &NumberedRule) -> Graph
        requires { SomeNumbered rule.now 0 }
        ensures { (r : Rule) → IsNumbered r rule.now → IsGraph r result }
    {
        Graph {
            first: opening(rule, &[0; 64], 0),
            falsities: falsities(rule),
            after: link_all(rule),
            enabled: enable_all(rule),
        }
    }

    // The nodes that an equation reaches under a code; with an ff node among them, the code is dropped.
    pub(crate) fn reached(&self, e: u64, code: usize) -> u64
        requires { code < 256 }
        ensures { result ≡ reached_by self.now e code }
    {
        gather(&self.after, e & self.enabled[code])
    }

    // The next equation, or none where the code is dropped.
    pub(crate) fn answer(&self, e: u64, code: usize) -> Option<u64>
        requires { code < 256 }
        ensures { result ≡ cases (answer_by self.now e code) None Some }
    {
        let reached = self.reached(e, code);
        if reached & self.falsities == 0 {
            Some(reached)
        } else {
            None
        }
    }
}

// The union of those sets whose indices are in `live`. It takes the lowest bit of what is left while there is one: no range or list of indices is there
// to go over.
fn gather(sets: &[u64; 64], live: u64) -> u64
    ensures { result ≡ gathered sets.now live }
{
    let mut rest = live;
    let mut all = 0;
    while rest != 0 {
        all |= sets[rest.trailing_zeros() as usize];
        rest &= rest - 1;
    }
    all
}

// What opening node k gives, where `opened` has what opening each max before it gives.
fn opening(rule: &NumberedRule, opened: &[u64; 64], k: usize) -> u64
    requires { SomeNumbered rule.now k }
    ensures { IsOpening rule.now opened.now k result }
{
    match rule.nodes[k] {
        Node::Truth => 0,
        Node::Falsity | Node::Necessity(_) => 1 << k,
        Node::Both(second) => {
            opening(rule, opened, k + 1) | opening(rule, opened, second as usize)
        }
        Node::Max => opening(rule, opened, k + 1),
        Node::Variable(max) => opened[max as usize],
    }
}

// Puts what opening node k gives, where it is a max, and what opening the formula after it gives, where it is a necessity.
fn link(rule: &NumberedRule, k: usize, opened: &mut [u64; 64], after: &mut [u64; 64])
    requires { SomeNumbered rule.now k }
    ensures { (r : Rule) → IsNumbered r rule.now → Linked r k opened.old after.old → Linked r (k + 1) opened.new after.new }
{
    match rule.nodes[k] {
        Node::Max => opened[k] = opening(rule, opened, k + 1),
        Node::Necessity(_) => after[k] = opening(rule, opened, k + 1),
        _ => {}
    }
}

// For each necessity, what opening the formula after it gives.
fn link_all(rule: &NumberedRule) -> [u64; 64]
    requires { SomeNumbered rule.now 0 }
    ensures { (r : Rule) → IsNumbered r rule.now → AfterAll r result }
{
    let mut opened = [0; 64];
    let mut after = [0; 64];
    for k in 0..rule.nnodes {
        link(rule, k, &mut opened, &mut after);
    }
    after
}

// The set with node k, where the test holds.
fn with_node(set: u64, k: usize, holds: bool) -> u64
    requires { k < 64 }
    ensures { result ≡ with_node set k holds }
{
    if holds { set | (1 << k) } else { set }
}

// The ff nodes.
fn falsities(rule: &NumberedRule) -> u64
    requires { SomeNumbered rule.now 0 }
    ensures { (r : Rule) → IsNumbered r rule.now → result ≡ falsities 0 r.formula }
{
    let mut set = 0;
    for (k, node) in rule.nodes[..rule.nnodes].iter().enumerate() {
        set = with_node(set, k, matches!(node, Node::Falsity));
    }
    set
}

// Puts node k into the set of each code that the pattern covers.
fn add_to_codes(p: Pattern, k: usize, enabled: &mut [u64; 256])
    requires { k < 64 }
    ensures { AddedToCodes p k enabled.old enabled.new }
{
    for (code, set) in enabled.iter_mut().enumerate() {
        *set = with_node(*set, k, reading::covers(p, code as u8));
    }
}

// Puts node k, where it is a necessity, into the set of each code that its pattern covers.
fn enable(rule: &NumberedRule, k: usize, enabled: &mut [u64; 256])
    requires { SomeNumbered rule.now k }
    ensures { (r : Rule) → IsNumbered r rule.now → EnabledBelow r k enabled.old → EnabledBelow r (k + 1) enabled.new }
{
    if let Node::Necessity(pattern) = rule.nodes[k] {
        add_to_codes(rule.patterns[pattern as usize].pattern, k, enabled);
    }
}

// For each code, the necessities whose patterns cover it.
fn enable_all(rule: &NumberedRule) -> [u64; 256]
    requires { SomeNumbered rule.now 0 }
    ensures { (r : Rule) → IsNumbered r rule.now → Enabled r result }
{
    let mut enabled = [0; 256];
    for k in 0..rule.nnodes {
        enable(rule, k, &mut enabled);
    }
    enabled
}
