// Merges equations of a table that drop alike, by partition refinement. A class has the number of its first equation.
ghost use Rattle.std.specs.Prelude.{◌≡◌, ◌&&◌, ◌≤◌, ◌<◌, eqb, length, get_or, take, replicate};
ghost use Rattle.reading.specs.Pattern.{least, every};
ghost use Rattle.synthesis.specs.Monitor.{mark, most, meaning, lookup};
ghost use Rattle.synthesis.specs.Table.{InRange, RowInRange, WellFormedTable};
ghost use Rattle.synthesis.specs.Merging.{up_to, same_answer, together, refined, rounds};
ghost use Rattle.synthesis.specs.Arrays.{CanRefine};

use crate::{DROPPED, row};

// A long table and the classes of its equations before a round.
#[derive(Clone, Copy)]
struct Round<'a> {
    long: &'a [u16],
    classes: &'a [u16],
}

impl Round<'_> {
    // Whether two entries are the same up to classes.
    fn is_same(&self, x: u16, y: u16) -> bool
        requires { InRange mark (length self.now.classes.now) x × InRange mark (length self.now.classes.now) y }
        ensures { result ≡ same_answer (up_to self.now.classes.now (meaning mark x)) (up_to self.now.classes.now (meaning mark y)) }
    {
        if x == DROPPED || y == DROPPED {
            return x == y;
        }
        self.classes[x as usize] == self.classes[y as usize]
    }

    // Whether two rows are the same up to classes.
    fn are_alike(&self, a: &[u16], b: &[u16]) -> bool
        requires { RowInRange mark (length self.now.classes.now) a.now × RowInRange mark (length self.now.classes.now) b.now }
        ensures { result ≡ every 256 (λ c. same_answer
            (up_to self.now.classes.now (meaning mark (get_or a.now c mark)))
            (up_to self.now.classes.now (meaning mark (get_or b.now c mark)))) }
    {
        a.len() == b.len() && a.iter().zip(b).all(|(x, y)| self.is_same(*x, *y))
    }

    // Whether equations k and l stay together.
    #[tactic(auto, unfolding(crate::specs::Merging::together))]
    fn stay_together(&self, k: usize, l: usize) -> bool
        requires { CanRefine self.now.long.now self.now.classes.now × (k < length self.now.classes.now) × (l < length self.now.classes.now) }
        ensures { result ≡ together 256 (lookup 256 mark self.now.long.now) self.now.classes.now k l }
    {
        self.classes[k] == self.classes[l] && self.are_alike(row(self.long, k), row(self.long, l))
    }

    // Whether equation k stays together with l, which is the first of its class after the round.
    fn joins(&self, next: &[u16], k: usize, l: usize) -> bool
        requires { CanRefine self.now.long.now self.now.classes.now × (k < length self.now.classes.now) × (l < length self.now.classes.now)
            × (length next.now ≡ length self.now.classes.now) }
        ensures { result ≡ eqb (get_or next.now l 0) l && together 256 (lookup 256 mark self.now.long.now) self.now.classes.now k l }
    {
        next[l] as usize == l && self.stay_together(k, l)
    }

    // The class of equation k after the round: the first equation with which it stays together. Before the first of its old class there is none. `next` has
    // the classes of the equations before k; of each class only the first equation is asked.
    fn class_after(&self, next: &[u16], k: usize) -> usize
        requires { CanRefine self.now.long.now self.now.classes.now × (k < length self.now.classes.now) × (length next.now ≡ length self.now.classes.now)
            × (take k next.now ≡ refined 256 (lookup 256 mark self.now.long.now) self.now.classes.now k) }
        ensures value { result ≡ least k (together 256 (lookup 256 mark self.now.long.now) self.now.classes.now k) }
        ensures upper_bound { result ≤ k }
    {
        let first = self.classes[k] as usize;
        (first..k).find(|l| self.joins(next, k, *l)).unwrap_or(k)
    }

    // Puts the classes after the round into `next`.
    #[tactic(auto, unfolding(crate::specs::Merging::refined, crate::specs::Merging::tabulate))]
    fn refine(&self, next: &mut [u16])
        requires { CanRefine self.now.long.now self.now.classes.now × (length next.old ≡ length self.now.classes.now) }
        ensures { next.new ≡ refined 256 (lookup 256 mark self.now.long.now) self.now.classes.now (length self.now.classes.now) }
    {
        for k in 0..self.classes.len() {
            next[k] = self.class_after(next, k) as u16;
        }
    }
}

// The classes after as many rounds as there are equations, with `next` for room. After a round that changes nothing no other does.
pub(crate) fn merge(long: &[u16], classes: &mut [u16], next: &mut [u16])
    requires { WellFormedTable most mark (length classes.old) long.now × (length next.old ≡ length classes.old)
        × (classes.old ≡ replicate (length classes.old) 0) }
    ensures { classes.new
        ≡ rounds 256 (lookup 256 mark long.now) (length classes.old) (length classes.old) }
{
    for _round in 0..classes.len() {
        Round { long, classes }.refine(next);
        if &*classes == &*next {
            return;
        }
        classes.copy_from_slice(next);
    }
}
