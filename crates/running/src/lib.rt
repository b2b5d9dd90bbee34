// Runs the monitor of a table over scans, in any number of calls, or those of up to four rules that are on duty. The definitions that the contracts
// cite stand in specs/.
#![tactic(auto)]

mod checking;
mod following;
mod roster;
mod serving;

ghost use Rattle.std.specs.Prelude.{◌≡◌, ◌-◌, ◌≤◌, Ok, Err, length};
ghost use Rattle.reading.specs.File.{accepted, and_then};
ghost use Rattle.reading.specs.Refusals.{as_outcome};
ghost use Rattle.synthesis.specs.Monitor.{mark, most};
ghost use Rattle.running.specs.Running.{start, run_of, checked_of, returned, result_of, output_after, verdicts_after};
ghost use Rattle.running.specs.Duty.{nobody, changed_by, duty_of, coming_of, going_of, change_returned, changed_of, duty_run_of, duty_ran_of};

use checking::check;
use following::{End, follow};
use reading::{Fault, Refusal};
use roster::Roster;
use serving::{admitted, fits_at, follow_all};

/// The state of a run: the number of its equation.
#[derive(Clone, Copy)]
pub struct State {
    pub equation: usize,
}

/// What a run hands back: whether it was refused, the state in which it ended, and how many scans it kept and dropped.
#[derive(Clone, Copy, Debug, PartialEq, Eq)]
pub struct RunResult<S> {
    pub checked: Result<(), Refusal>,
    pub state: S,
    pub kept: usize,
    pub dropped: usize,
}

/// A rule on duty: its number, where its table begins in what is lent, the count of its equations, and the equation in which it is.
#[derive(Clone, Copy)]
pub struct OnDuty {
    pub number: u8,
    pub base: usize,
    pub count: usize,
    pub equation: usize,
}

/// The state of the rules on duty: they have the first `count` places, in order of arrival.
#[derive(Clone, Copy)]
pub struct Duty {
    pub rules: [OnDuty; 4],
    pub count: usize,
}

/// What a coming or a going hands back: whether it was refused, and the state after it.
#[derive(Clone, Copy)]
pub struct Changed {
    pub checked: Result<(), Refusal>,
    pub duty: Duty,
}

/// The state in which every run begins.
pub fn start() -> State
    ensures { result ≡ start }
{
    State { equation: 0 }
}

impl<S> RunResult<S> {
    // What a refused run hands back, with the state that it was given.
    fn refused(refusal: Refusal, state: S) -> Self
        ensures { result ≡ record { checked = Err refusal; state = state; kept = 0; dropped = 0 } }
    {
        RunResult {
            checked: Err(refusal),
            state,
            kept: 0,
            dropped: 0,
        }
    }

    // What any other run hands back, of so many scans.
    fn ended(end: End<S>, scans: usize) -> Self
        requires { end.kept ≤ scans }
        ensures { result ≡ record { checked = Ok tt; state = end.state; kept = end.kept; dropped = scans - end.kept } }
    {
        RunResult {
            checked: Ok(()),
            state: end.state,
            kept: end.kept,
            dropped: scans - end.kept,
        }
    }
}

/// Runs the monitor of a table with `count` equations over scans. The kept scans go to the front of the output, and one verdict a scan
/// to the front of the verdicts: 0 kept, 1 dropped. A refused call changes nothing and hands back the state that it was given.
pub fn run(
    table: &[u16],
    count: usize,
    state: State,
    scans: &[u8],
    output: &mut [u8],
    verdicts: &mut [u8],
) -> RunResult<State>
    ensures value { returned result ≡ result_of state
        (run_of most mark table.now count state scans.now (length output.old) (length verdicts.old)) }
    ensures output_after { output.new ≡ output_after
        (run_of most mark table.now count state scans.now (length output.old) (length verdicts.old))
        output.old }
    ensures verdicts_after { verdicts.new ≡ verdicts_after
        (run_of most mark table.now count state scans.now (length output.old) (length verdicts.old))
        verdicts.old }
{
    if let Err(refusal) = check(table, count, state, scans, output.len(), verdicts.len()) {
        return RunResult::refused(refusal, state);
    }
    let end = follow(table, state, scans, output, verdicts);
    RunResult::ended(end, scans.len())
}

// What stands in a place that no rule has.
const VACANT: OnDuty = OnDuty {
    number: 0,
    base: 0,
    count: 0,
    equation: 0,
};

/// The state in which no rule is on duty.
pub fn nobody() -> Duty
    ensures { result ≡ nobody }
{
    Duty {
        rules: [VACANT; 4],
        count: 0,
    }
}

// What a coming or a going hands back; a refused one, the state that it was given.
fn handed_back(duty: Duty, after: Result<Duty, Refusal>) -> Changed
    ensures { result ≡ changed_by duty after }
{
    match after {
        Ok(duty) => Changed {
            checked: Ok(()),
            duty,
        },
        Err(refusal) => Changed {
            checked: Err(refusal),
            duty,
        },
    }
}

// The state after a rule comes on.
#[tactic(auto, using(crate::proofs::PlaceLaws::places_length), unfolding(crate::specs::Duty::coming_of))]
fn coming(
    duty: Duty,
    number: u8,
    tables: &[u16],
    base: usize,
    count: usize,
) -> Result<Duty, Refusal>
    ensures { as_outcome result ≡ and_then (coming_of most mark duty number tables.now base count) (λ ds. accepted (duty_of ds)) }
{
    let mut roster = Roster::of(duty)?;
    if 4 <= duty.count {
        return Err(Fault::DutyIsFull.at(0));
    }
    if roster.is_on(number) {
        return Err(Fault::AlreadyOnDuty.at(0));
    }
    let rule = OnDuty {
        number,
        base,
        count,
        equation: 0,
    };
    if !fits_at(tables, rule) {
        return Err(Fault::Unfit.at(0));
    }
    roster.push(rule);
    Ok(roster.duty)
}

/// A rule comes on under a number, with `count` equations, whose table begins at `base` of what is lent. It is the last, and in its first equation. A
/// refused call hands back the state that it was given.
pub fn come_on(duty: Duty, number: u8, tables: &[u16], base: usize, count: usize) -> Changed
    ensures { change_returned result ≡ changed_of duty (coming_of most mark duty number tables.now base count) }
{
    handed_back(duty, coming(duty, number, tables, base, count))
}

// The state after a rule goes off.
#[tactic(auto, unfolding(crate::specs::Duty::going_of))]
fn going(duty: Duty, number: u8) -> Result<Duty, Refusal>
    ensures { as_outcome result ≡ and_then (going_of duty number) (λ ds. accepted (duty_of ds)) }
{
    let roster = Roster::of(duty)?;
    if !roster.is_on(number) {
        return Err(Fault::NotOnDuty.at(0));
    }
    Ok(roster.without(number).duty)
}

/// The rule with a number goes off. The others stay as they are, in their order. A refused call hands back the state that it was given.
pub fn go_off(duty: Duty, number: u8) -> Changed
    ensures { change_returned result ≡ changed_of duty (going_of duty number) }
{
    handed_back(duty, going(duty, number))
}

/// Whether a run on duty would be refused, with an output and verdicts of these lengths.
pub fn check_on_duty(
    tables: &[u16],
    duty: Duty,
    scans: &[u8],
    output: usize,
    verdicts: usize,
) -> Result<(), Refusal>
    ensures { as_outcome result ≡ checked_of (duty_run_of most mark tables.now duty scans.now output verdicts) }
{
    admitted(tables, duty, scans, output, verdicts)?;
    Ok(())
}

/// Runs the monitors of all rules on duty over scans: a scan is kept when none of them would drop it, and then moves all of them. The buffers are
/// written as by `run`. A refused call changes nothing and hands back the state that it was given.
pub fn run_on_duty(
    tables: &[u16],
    duty: Duty,
    scans: &[u8],
    output: &mut [u8],
    verdicts: &mut [u8],
) -> RunResult<Duty>
    ensures value { returned result ≡ duty_ran_of duty
        (duty_run_of most mark tables.now duty scans.now (length output.old) (length verdicts.old)) }
    ensures output_after { output.new ≡ output_after
        (duty_run_of most mark tables.now duty scans.now (length output.old) (length verdicts.old))
        output.old }
    ensures verdicts_after { verdicts.new ≡ verdicts_after
        (duty_run_of most mark tables.now duty scans.now (length output.old) (length verdicts.old))
        verdicts.old }
{
    let roster = match admitted(tables, duty, scans, output.len(), verdicts.len()) {
        Ok(roster) => roster,
        Err(refusal) => return RunResult::refused(refusal, duty),
    };
    let end = follow_all(tables, roster, scans, output, verdicts);
    RunResult::ended(end, scans.len())
}
