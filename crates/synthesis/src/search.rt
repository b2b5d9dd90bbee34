// The search for the equations of a rule.
ghost use Rattle.std.specs.Prelude.{◌≡◌, ◌≤◌, ◌<◌, ◌==◌, ◌&&◌, [], eqb, ltb, length, slice_index};
ghost use Rattle.std.specs.List.{position};
ghost use Rattle.synthesis.specs.Monitor.{most};
ghost use Rattle.synthesis.specs.Search.{insert, explored, expanded, found};
ghost use Rattle.synthesis.specs.Arrays.{answer_by, Found, FoundFrom};

use crate::MOST;
use crate::graph::Graph;
use reading::{Fault, Refusal};
use std::marker::Model;

// How many hints there are.
const HINTS: usize = 4096;

// A set has two hints, at its number modulo the two largest primes up to their count.
const HINT_MODULUS: u64 = 4093;

const SECOND_MODULUS: u64 = 4091;

// The equations found so far, numbered by their indices in an array of node sets, and the most that there may be. Hints say where a set may stand.
#[derive(Drop)]
pub(crate) struct Equations {
    limit: usize,
    count: usize,
    found: [u64; MOST],
    hints: [u16; HINTS],
}

// Clauses see the limit, and the list of the equations.
impl Model for Equations {
    ghost use Rattle.std.specs.Prelude.{take};
    ghost use Rattle.synthesis.specs.Arrays.{Found, FoundWithin};

    ghost Value = { Found };

    ghost view = { λ s. record { limit = s.limit; equations = take s.count s.found } };

    ghost invariant = { λ s. FoundWithin s.limit s.count s.found };
}

impl Equations {
    // No equations yet.
    pub(crate) fn new(limit: usize) -> Equations
        requires { limit ≤ most }
        ensures { result ≡ record { limit = limit; equations = [] } }
    {
        Equations {
            limit,
            count: 0,
            found: [0; MOST],
            hints: [0; HINTS],
        }
    }

    // How many there are.
    pub(crate) fn len(&self) -> usize
        ensures value { result ≡ length self.now.equations }
        ensures within { (result ≤ self.now.limit) × (self.now.limit ≤ most) }
    {
        self.count
    }

    // Equation k.
    pub(crate) fn get(&self, k: usize) -> u64
        requires { k < length self.now.equations }
        ensures { result ≡ slice_index self.now.equations k }
    {
        self.found[..self.count][k]
    }

    // Whether a set is equation i.
    fn stands_at(&self, i: usize, e: u64) -> bool
        ensures { result ≡ ltb i (length self.now.equations) && eqb (slice_index self.now.equations i) e }
    {
        i < self.count && self.found[i] == e
    }

    // The number of an equation, if it was found. Its hints are tried first, and one is believed only where the set stands there. After a search both are
    // what was found; or the count, which is the number that a new set gets.
    pub(crate) fn find(&mut self, e: u64) -> Option<usize>
        ensures value { result ≡ position (λ x. x == e) self.old.equations }
        ensures same { self.new ≡ self.old }
    {
        let first = (e % HINT_MODULUS) as usize;
        let hint = self.hints[first] as usize;
        if self.stands_at(hint, e) {
            return Some(hint);
        }
        let second = (e % SECOND_MODULUS) as usize;
        let other = self.hints[second] as usize;
        if self.stands_at(other, e) {
            return Some(other);
        }
        let place = position(&self.found[..self.count], e);
        let index = place.unwrap_or(self.count) as u16;
        self.hints[first] = index;
        self.hints[second] = index;
        place
    }

    // Puts a set last if it is new.
    fn insert(&mut self, e: u64) -> Result<(), Refusal>
        ensures { FoundFrom self.old result self.new (insert self.old.equations e) }
    {
        if self.find(e).is_some() {
            return Ok(());
        }
        if self.count == self.limit {
            return Err(Fault::TooManyEquations.at(0));
        }
        self.found[self.count] = e;
        self.count += 1;
        Ok(())
    }

    // Inserts what an equation answers to each code.
    fn explore(&mut self, graph: &Graph, e: u64) -> Result<(), Refusal>
        ensures { FoundFrom self.old result self.new
            (explored 256 (answer_by graph.now) e 256 self.old.equations) }
    {
        for code in 0..256 {
            if let Some(next) = graph.answer(e, code) {
                self.insert(next)?;
            }
        }
        Ok(())
    }

    // Explores equation k, if there is one.
    fn expand(&mut self, graph: &Graph, k: usize) -> Result<(), Refusal>
        ensures { FoundFrom self.old result self.new (expanded 256 (answer_by graph.now) k self.old.equations) }
    {
        if k < self.count {
            let e = self.found[k];
            return self.explore(graph, e);
        }
        Ok(())
    }
}

// The place of a set in a list.
fn position(list: &[u64], e: u64) -> Option<usize>
    ensures { result ≡ position (λ x. x == e) list.now }
{
    list.iter().position(|x| *x == e)
}

// Finds the equations from the first on, where there are none yet.
pub(crate) fn search(graph: &Graph, equations: &mut Equations) -> Result<(), Refusal>
    requires { equations.old.equations ≡ [] }
    ensures { FoundFrom equations.old result equations.new
        (found 256 (answer_by graph.now) equations.old.limit graph.now.first) }
{
    equations.insert(graph.first)?;
    for k in 0..equations.limit {
        equations.expand(graph, k)?;
    }
    Ok(())
}
