// Why inputs are refused, and where.
ghost use Rattle.std.specs.Prelude.{◌≡◌, Some};
ghost use Rattle.reading.specs.Refusals.{number, refusal_text};

use std::fmt;

/// Why an input is refused. The numbers are those that desks know.
#[derive(Clone, Copy, Debug, PartialEq, Eq)]
pub enum Fault {
    /// The rule file ends before its formula is whole.
    FileEnds = 1,
    /// A kind of record that no rule has.
    UnknownKind = 2,
    /// A byte after the whole formula, or a pattern once the formula has begun.
    Misplaced = 3,
    /// A 33rd pattern or a 65th node.
    TooManyRecords = 4,
    /// A pattern with a slot over 31.
    NoSuchSlot = 5,
    /// A pattern number or a depth that names nothing.
    NamesNothing = 6,
    /// A variable with no necessity between it and its max.
    Unguarded = 7,
    /// A rule that no model satisfies.
    Unsatisfiable = 8,
    /// A rule of more equations than there may be.
    TooManyEquations = 9,
    /// A table with under 256 entries for each equation.
    TableTooShort = 10,
    /// A model file that is empty, or ends inside a record.
    ModelEnds = 11,
    /// A kind of record that doesn't stand there in a model, or a count of states that isn't 1 to 64.
    BadModelRecord = 12,
    /// A state that isn't under the count.
    NoSuchState = 13,
    /// A 513th step.
    TooManySteps = 14,
    /// An output, or verdicts, shorter than the scans.
    NoRoom = 15,
    /// A table, a count or a state with which no run can begin.
    Unfit = 16,
    /// Kept scans that violate the rule already.
    AlreadyViolated = 17,
    /// A rule of more equations than the rule page has room for.
    TooManyForPage = 18,
    /// A fifth rule that comes on duty.
    DutyIsFull = 19,
    /// A rule that comes on duty under a number that is on duty.
    AlreadyOnDuty = 20,
    /// A rule that goes off duty and isn't on it.
    NotOnDuty = 21,
    /// A list of pairs that ends inside a pair.
    PairsEnd = 22,
    /// A pair with a state that its model doesn't have.
    NoSuchPair = 23,
    /// A 4,097th pair.
    TooManyPairs = 24,
}

/// That an input is refused: why, and at which place.
#[derive(Clone, Copy, Debug, PartialEq, Eq)]
pub struct Refusal {
    pub fault: Fault,
    pub place: usize,
}

impl Fault {
    /// The refusal with this fault at a place.
    pub fn at(self, place: usize) -> Refusal
        ensures { result ≡ record { fault = self; place = place } }
    {
        Refusal { fault: self, place }
    }

    /// The number that desks know the fault by.
    pub fn number(self) -> u8
        ensures { result ≡ number self }
    {
        self as u8
    }
}

impl fmt::Display for Refusal {
    ghost output = { λ r. Some (refusal_text r) };

    fn fmt<W: fmt::Write>(&self, f: &mut fmt::Formatter<W>) -> fmt::Result {
        write!(f, "refused {} at {}", self.fault.number(), self.place)
    }
}
