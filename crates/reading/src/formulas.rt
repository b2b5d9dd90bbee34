// Node records, and a formula in prefix order. The bytes and the number of patterns are two parameters: in a struct each clause would name `self.entry.bytes.now`.
ghost use Rattle.std.specs.Prelude.{◌≡◌, ◌+◌, ◌-◌, ◌≤◌, ◌<◌, [], ◌∷◌, false, length, get_or};
ghost use Rattle.reading.specs.Rule.{guarded};
ghost use Rattle.reading.specs.File.{necessity_at, variable_at, node_at, formula_of};
ghost use Rattle.reading.specs.Refusals.{as_outcome};
ghost use Rattle.reading.specs.Representations.{record_of, Reads};

use crate::kind::Kind;
use crate::{Fault, Node, Refusal};
use std::marker::Model;

/// The max nodes around a record, outermost first. The innermost `unguarded` of them have no necessity below them yet.
#[derive(Drop)]
pub(crate) struct Scope {
    count: usize,
    unguarded: usize,
    nodes: [u8; 64],
}

impl Model for Scope {
    ghost use Rattle.std.specs.Prelude.{◌≤◌};
    ghost use Rattle.reading.specs.Scopes.{Enclosing, last_first, guards_of};

    ghost Value = { Enclosing };

    ghost view = { λ s. record { maxes = last_first s.count s.nodes; guards = guards_of s.count s.unguarded } };

    ghost invariant = { λ s. (s.unguarded ≤ s.count) × (s.count ≤ 64) };
}

// A node without its parts, as its record has it: with the number of a pattern, or with a depth.
#[derive(Clone, Copy)]
enum Symbol {
    Truth,
    Falsity,
    Both,
    Necessity(u8),
    Max,
    Variable(u8),
}

// A node record, and the place after it.
#[derive(Clone, Copy)]
struct Record {
    symbol: Symbol,
    next: usize,
}

/// The place after a formula, and how many of the 64 nodes are left.
#[derive(Clone, Copy)]
pub(crate) struct Rest {
    pub(crate) next: usize,
    pub(crate) left: usize,
}

impl Scope {
    /// Inside no max.
    #[tactic(auto, unfolding(crate::specs::Scopes::last_first, crate::specs::Scopes::guards_of))]
    pub(crate) fn outermost() -> Self
        ensures { result ≡ record { maxes = []; guards = [] } }
    {
        Scope {
            count: 0,
            unguarded: 0,
            nodes: [0u8; 64],
        }
    }

    // Inside one more max, node k.
    #[tactic(auto, using(crate::proofs::Functions::Scopes::guards_length, crate::proofs::Functions::Scopes::guards_max, crate::proofs::Functions::Scopes::numbers_max))]
    fn inside_max(&self, k: u8) -> Self
        requires { length self.now.guards < 64 }
        ensures { result ≡ record { maxes = k ∷ self.now.maxes; guards = false ∷ self.now.guards } }
    {
        let mut nodes = self.nodes;
        nodes[self.count] = k;
        Scope {
            count: self.count + 1,
            unguarded: self.unguarded + 1,
            nodes,
        }
    }

    // Below a necessity.
    #[tactic(auto, using(crate::proofs::Functions::Scopes::guards_necessity))]
    fn guarded(&self) -> Self
        ensures { result ≡ record { maxes = self.now.maxes; guards = guarded self.now.guards } }
    {
        let nodes = self.nodes;
        let unguarded = 0;
        Scope {
            count: self.count,
            unguarded,
            nodes,
        }
    }

    // The max node of the variable of a depth.
    #[tactic(auto, using(crate::proofs::Functions::Scopes::guards_length, crate::proofs::Functions::Scopes::number_at))]
    fn max_of(&self, depth: u8) -> u8
        requires { depth < length self.now.guards }
        ensures { result ≡ get_or self.now.maxes depth 0 }
    {
        self.nodes[self.count - 1 - depth as usize]
    }
}

// The necessity at `at`, whose body is a pattern number.
fn read_necessity(bytes: &[u8], patterns: usize, at: usize) -> Result<Record, Refusal>
    requires { at < length bytes.now }
    ensures { record_of result ≡ necessity_at bytes.now patterns at }
{
    let Some(&pattern) = bytes.get(at + 1) else {
        return Err(Fault::FileEnds.at(bytes.len()));
    };
    if patterns <= pattern as usize {
        return Err(Fault::NamesNothing.at(at));
    }
    Ok(Record {
        symbol: Symbol::Necessity(pattern),
        next: at + 2,
    })
}

// The variable at `at`, whose body is a depth, inside the max nodes of a scope.
#[tactic(auto, using(crate::proofs::Functions::Scopes::guards_length, crate::proofs::Functions::Scopes::unguarded_at, crate::proofs::Functions::Scopes::guarded_at))]
fn read_variable(bytes: &[u8], scope: &Scope, at: usize) -> Result<Record, Refusal>
    requires { at < length bytes.now }
    ensures { record_of result ≡ variable_at bytes.now scope.now.guards at }
{
    let Some(&depth) = bytes.get(at + 1) else {
        return Err(Fault::FileEnds.at(bytes.len()));
    };
    if scope.count <= depth as usize {
        return Err(Fault::NamesNothing.at(at));
    }
    if (depth as usize) < scope.unguarded {
        return Err(Fault::Unguarded.at(at));
    }
    Ok(Record {
        symbol: Symbol::Variable(depth),
        next: at + 2,
    })
}

// The node record due at `at`, with `left` of the 64 nodes left.
fn read_node(
    bytes: &[u8],
    patterns: usize,
    at: usize,
    left: usize,
    scope: &Scope,
) -> Result<Record, Refusal>
    ensures { record_of result ≡ node_at bytes.now patterns at left scope.now.guards }
{
    let Some(&byte) = bytes.get(at) else {
        return Err(Fault::FileEnds.at(bytes.len()));
    };
    let Ok(kind) = Kind::try_from(byte) else {
        return Err(Fault::UnknownKind.at(at));
    };
    let symbol = match kind {
        Kind::Pattern => return Err(Fault::Misplaced.at(at)),
        _ if left == 0 => return Err(Fault::TooManyRecords.at(at)),
        Kind::Truth => Symbol::Truth,
        Kind::Falsity => Symbol::Falsity,
        Kind::Both => Symbol::Both,
        Kind::Max => Symbol::Max,
        Kind::Necessity => return read_necessity(bytes, patterns, at),
        Kind::Variable => return read_variable(bytes, scope, at),
    };
    Ok(Record {
        symbol,
        next: at + 1,
    })
}

/// A formula: a node, then its parts. The first of the `left` nodes that are left is node 64 - left; each node goes to its number in `nodes`.
pub(crate) fn read_formula(
    bytes: &[u8],
    patterns: usize,
    at: usize,
    left: usize,
    scope: &Scope,
    nodes: &mut [Node; 64],
) -> Result<Rest, Refusal>
    requires { length scope.now.guards + left ≤ 64 }
    ensures { Reads (formula_of bytes.now patterns at left scope.now.guards) (64 - left) scope.now.maxes nodes.old nodes.new result }
{
    let record = read_node(bytes, patterns, at, left, scope)?;
    let next = record.next;
    let k = 64 - left;
    let others = left - 1;
    match record.symbol {
        Symbol::Truth => nodes[k] = Node::Truth,
        Symbol::Falsity => nodes[k] = Node::Falsity,
        Symbol::Variable(depth) => nodes[k] = Node::Variable(scope.max_of(depth)),
        Symbol::Necessity(pattern) => {
            nodes[k] = Node::Necessity(pattern);
            return read_formula(bytes, patterns, next, others, &scope.guarded(), nodes);
        }
        Symbol::Max => {
            nodes[k] = Node::Max;
            return read_formula(
                bytes,
                patterns,
                next,
                others,
                &scope.inside_max(k as u8),
                nodes,
            );
        }
        Symbol::Both => {
            let first = read_formula(bytes, patterns, next, others, scope, nodes)?;
            nodes[k] = Node::Both((64 - first.left) as u8);
            return read_formula(bytes, patterns, first.next, first.left, scope, nodes);
        }
    }
    Ok(Rest { next, left: others })
}
