// Numbers the classes of the equations of a table, and fills the short table, which has a row for each class.
ghost use Rattle.std.specs.Prelude.{◌≤◌, ◌<◌, get_or};
ghost use Rattle.synthesis.specs.Monitor.{most};

use crate::merging::merge;
use crate::{DROPPED, MOST, row};

// The numbers of the classes of equations, in the order of their first equations: how many equations there are and how many classes, the first equation of
// each class, and the number of each equation's class.
#[derive(Drop)]
pub(crate) struct Numbering {
    pub(crate) equations: usize,
    pub(crate) count: usize,
    firsts: [u16; MOST],
    numbers: [u16; MOST],
    ghost few: { equations ≤ most },
    ghost counted: { count ≤ equations },
    ghost firsts_inside: { (i : _) → i < count → get_or firsts i 0 < equations },
}

impl Numbering {
    ghost use Rattle.std.specs.Prelude.{◌≡◌, ℕ, ◌+◌, ◌*◌, ◌≤◌, ◌<◌, List, length, get_or};
    ghost use Rattle.synthesis.specs.Monitor.{mark, most, meaning, row_of, lookup};
    ghost use Rattle.synthesis.specs.Table.{InRange, RowInRange, WellFormedTable, entry_of, entries_of, filled};
    ghost use Rattle.synthesis.specs.Merging.{up_to, merged, rounds};
    ghost use Rattle.synthesis.specs.Numbering.{IsNumberingOf, AreNumbered, listed};

    // Of no equations.
    #[tactic(auto, unfolding(crate::specs::Merging::firsts))]
    fn empty() -> Self
        ensures none { result.equations ≡ 0 }
        ensures numbered { (classes : List ℕ) → IsNumberingOf classes result }
    {
        Numbering {
            equations: 0,
            count: 0,
            firsts: [0; MOST],
            numbers: [0; MOST],
        }
    }

    // Adds the next equation, which is of this class: a class gets the next number where the equation is its first.
    fn add(&mut self, class: u16)
        requires { (class ≤ self.old.equations) × (self.old.equations < most) }
        ensures one_more { self.new.equations ≡ self.old.equations + 1 }
        ensures numbered { (classes : List ℕ) → get_or classes self.old.equations 0 ≡ class → get_or classes class 0 ≡ class
            → IsNumberingOf classes self.old → IsNumberingOf classes self.new }
    {
        let equation = self.equations;
        if class as usize == equation {
            self.firsts[self.count] = class;
            self.numbers[equation] = self.count as u16;
            self.count += 1;
        } else {
            self.numbers[equation] = self.numbers[class as usize];
        }
        self.equations += 1;
    }

    // Of the classes of equations that drop alike in a long table of n rows.
    pub(crate) fn of_table(long: &[u16], n: usize) -> Self
        requires { WellFormedTable most mark n long.now }
        ensures all { result.equations ≡ n }
        ensures numbered { IsNumberingOf (rounds 256 (lookup 256 mark long.now) n n) result }
    {
        let classes = &mut [0u16; MOST][..n];
        let next = &mut [0u16; MOST][..n];
        merge(long, classes, next);
        let mut numbering = Self::empty();
        for class in classes.iter() {
            numbering.add(*class);
        }
        numbering
    }

    // The entry of the short table for one of the long table: the number of its class for that of an equation.
    fn renumbered(&self, entry: u16) -> u16
        requires { InRange mark self.now.equations entry }
        ensures { (classes : List ℕ) → AreNumbered classes self.now → result ≡ entry_of mark (listed self.now) (up_to classes (meaning mark entry)) }
    {
        if entry == DROPPED {
            return DROPPED;
        }
        self.numbers[entry as usize]
    }

    // Fills the row of the short table for equation k of the long one.
    fn fill_row(&self, long: &[u16], k: usize, short: &mut [u16])
        requires { RowInRange mark self.now.equations (row_of 256 long.now k) × (length short.old ≡ 256) }
        ensures { (classes : List ℕ) → AreNumbered classes self.now
            → short.new ≡ entries_of mark (merged classes (lookup 256 mark long.now)) (listed self.now) k 256 }
    {
        for (c, entry) in row(long, k).iter().enumerate() {
            short[c] = self.renumbered(*entry);
        }
    }

    // Fills a row for the first equation of each class.
    pub(crate) fn fill(&self, long: &[u16], table: &mut [u16])
        requires { WellFormedTable most mark self.now.equations long.now × (256 * self.now.count ≤ length table.old) }
        ensures { (classes : List ℕ) → AreNumbered classes self.now
            → table.new ≡ filled mark (merged classes (lookup 256 mark long.now)) (listed self.now) 256 table.old }
    {
        for (i, first) in self.firsts[..self.count].iter().enumerate() {
            let from = 256 * i;
            self.fill_row(long, *first as usize, &mut table[from..from + 256]);
        }
    }
}
