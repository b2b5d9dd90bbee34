// Reads a rule file: patterns, then one formula in prefix order. The definitions that the contracts cite stand in specs/.
#![tactic(auto)]

mod formulas;
mod kind;
mod patterns;
mod refusals;
pub mod slots;

ghost use Rattle.std.specs.Prelude.{◌≡◌};
ghost use Rattle.reading.specs.Pattern.{covers};
ghost use Rattle.reading.specs.File.{rule_of};
ghost use Rattle.reading.specs.Refusals.{as_outcome};
ghost use Rattle.reading.specs.Numbered.{node_kind, node_argument, reading_of};

pub use kind::Kind;
pub use refusals::{Fault, Refusal};

/// A pattern as it is written: a bit for each kind, and the slots from first to last, round past 31 to 0 where first is over last. A mask of 0 has no kind.
#[derive(Clone, Copy, Debug, PartialEq, Eq)]
pub struct Pattern {
    pub mask: u8,
    pub first: u8,
    pub last: u8,
}

/// The lowest code that a pattern covers, and how many it covers. A pattern that covers none has no lowest code.
#[derive(Clone, Copy, Debug, PartialEq, Eq)]
pub struct Extent {
    pub lowest: Option<u8>,
    pub count: u16,
}

/// A pattern of a rule, with its extent.
#[derive(Clone, Copy, Debug, PartialEq, Eq)]
pub struct Listed {
    pub pattern: Pattern,
    pub extent: Extent,
}

/// A node of a rule. The first part of node k is node k + 1.
#[derive(Clone, Copy, Debug, PartialEq, Eq)]
pub enum Node {
    Truth,
    Falsity,
    /// With the node of the second part.
    Both(u8),
    /// With the number of the pattern.
    Necessity(u8),
    Max,
    /// With the node of its max.
    Variable(u8),
}

/// A rule by number: its patterns, and its nodes in the order in which they are read.
#[derive(Clone, Copy)]
pub struct NumberedRule {
    pub patterns: [Listed; 32],
    pub npatterns: usize,
    pub nodes: [Node; 64],
    pub nnodes: usize,
}

impl Node {
    /// The byte with which the node's record begins.
    pub fn kind(self) -> u8
        ensures { result ≡ node_kind self }
    {
        let kind = match self {
            Node::Truth => Kind::Truth,
            Node::Falsity => Kind::Falsity,
            Node::Both(_) => Kind::Both,
            Node::Necessity(_) => Kind::Necessity,
            Node::Max => Kind::Max,
            Node::Variable(_) => Kind::Variable,
        };
        kind as u8
    }

    /// The number that the node has with it, 0 where there is none.
    pub fn argument(self) -> u8
        ensures { result ≡ node_argument self }
    {
        match self {
            Node::Both(number) | Node::Necessity(number) | Node::Variable(number) => number,
            Node::Truth | Node::Falsity | Node::Max => 0,
        }
    }
}

/// Whether a pattern covers a code. All but the reading of a pattern record asks this and leaves mask and slots alone.
#[tactic(auto, using(crate::proofs::Measures::SlotSets::member, crate::proofs::Measures::Codes::slot_lt), unfolding(crate::specs::Pattern::covers, crate::specs::Pattern::bit))]
pub fn covers(p: Pattern, code: u8) -> bool
    ensures { result ≡ covers p code }
{
    let kind = code / 32;
    let slot = code % 32;
    (p.mask >> kind) % 2 == 1 && (slots::slot_set(p.first, p.last) >> slot) % 2 == 1
}

/// What the bytes of a rule file say.
pub fn read_rule(bytes: &[u8]) -> Result<NumberedRule, Refusal>
    ensures { as_outcome result ≡ reading_of (rule_of bytes.now) }
{
    let head = patterns::read_patterns(bytes)?;
    let mut nodes = [Node::Truth; 64];
    let scope = formulas::Scope::outermost();
    let rest = formulas::read_formula(bytes, head.count, head.next, 64, &scope, &mut nodes)?;
    if rest.next < bytes.len() {
        return Err(Fault::Misplaced.at(rest.next));
    }
    let patterns = head.list;
    Ok(NumberedRule {
        patterns,
        npatterns: head.count,
        nodes,
        nnodes: 64 - rest.left,
    })
}
