// Runs under all rules on duty. Only their equations go from scan to scan.
ghost use Rattle.std.specs.Prelude.{◌≡◌, cond, map, ◌≤◌, length, get_or, drop, IfOk, MatchResult, is_none, unwrap_or};
ghost use Rattle.reading.specs.File.{accepted, refused};
ghost use Rattle.reading.specs.Refusals.{number};
ghost use Rattle.synthesis.specs.Monitor.{mark, most, row_of};
ghost use Rattle.running.specs.Lists.{all};
ghost use Rattle.running.specs.Running.{run_by, overlay};
ghost use Rattle.running.specs.Duty.{on_duty, duty_of, moved_to, some_drops, moved_by, together, fits_at, duty_run_of};
ghost use Rattle.running.specs.Places.{in_place, standing};

use crate::checking::{fits, has_room};
use crate::following::{End, MARK, entry};
use crate::roster::Roster;
use crate::{Duty, OnDuty, State};
use reading::{Fault, Refusal};
use std::hint::select_unpredictable;

// Whether a rule's table is well formed, and its equation one of the table's.
#[tactic(auto, using(crate::proofs::RosterLaws::no_table))]
pub(crate) fn fits_at(tables: &[u16], rule: OnDuty) -> bool
    ensures { result ≡ fits_at most mark tables.now rule }
{
    let Some(table) = tables.get(rule.base..) else {
        return false;
    };
    let state = State {
        equation: rule.equation,
    };
    fits(table, rule.count, state)
}

// Whether each of the rules is fit.
pub(crate) fn all_fit(tables: &[u16], rules: &[OnDuty]) -> bool
    ensures { result ≡ all (fits_at most mark tables.now) rules.now }
{
    rules.iter().all(|rule| fits_at(tables, *rule))
}

// The rules on duty under which a run goes, or why it is refused, with an output and verdicts of these lengths.
#[tactic(auto, unfolding(crate::specs::Duty::duty_run_of))]
pub(crate) fn admitted(
    tables: &[u16],
    duty: Duty,
    scans: &[u8],
    output: usize,
    verdicts: usize,
) -> Result<Roster, Refusal>
    ensures room { IfOk result (λ _. (length scans.now ≤ output) × (length scans.now ≤ verdicts)) }
    ensures rules { IfOk result (λ roster. on_duty roster.duty ≡ on_duty duty) }
    ensures outcome { let outcome = duty_run_of most mark tables.now duty scans.now output verdicts in
        let ran = accepted (run_by (together mark tables.now) (on_duty duty) scans.now) in
        MatchResult result (λ _. outcome ≡ ran) (λ refusal. outcome ≡ refused (number refusal.fault) refusal.place) }
{
    if !has_room(scans, output, verdicts) {
        return Err(Fault::NoRoom.at(0));
    }
    let roster = Roster::of(duty)?;
    if !all_fit(tables, roster.rules()) {
        return Err(Fault::Unfit.at(0));
    }
    Ok(roster)
}

// The entry for a code in the table that begins at `base`; MARK where there is none.
fn own_entry(tables: &[u16], base: usize, equation: usize, code: u8) -> usize
    ensures { result ≡ get_or (row_of 256 (drop base tables.now) equation) code mark }
{
    match tables.get(base..) {
        Some(table) => entry(table, equation, code),
        None => MARK,
    }
}

// The equation to which a scan leads the rule in a place, or none if the rule would drop the scan. Where no rule has the place, the equation stays.
#[tactic(auto, using(crate::proofs::Entries::entry_drops, crate::proofs::Entries::entry_moves), unfolding(crate::specs::Lists::any))]
fn look_in_place(
    tables: &[u16],
    taken: bool,
    rule: OnDuty,
    equation: usize,
    code: u8,
) -> Option<usize>
    ensures drops_value { is_none result ≡ some_drops mark tables.now (in_place taken (moved_to rule equation)) code }
    ensures equation_value { in_place taken (moved_to rule (unwrap_or result equation))
        ≡ map (moved_by mark tables.now code) (in_place taken (moved_to rule equation)) }
{
    if !taken {
        return Some(equation);
    }
    let entry = own_entry(tables, rule.base, equation, code);
    if entry == MARK { None } else { Some(entry) }
}

// What a scan does: whether a rule would drop it, and the equations in which it leaves the rules. A flag and no Option, so that each equation is chosen
// without a jump.
#[derive(Drop)]
struct Looked {
    drops: bool,
    equations: [usize; 4],
}

// Looks the scan up in the table of each rule. There is no loop over the places, so that the equations need not stand in memory.
fn look(tables: &[u16], roster: Roster, equations: [usize; 4], code: u8) -> Looked
    ensures drops_value { result.drops
        ≡ some_drops mark tables.now (standing roster.duty.count roster.duty.rules equations) code }
    ensures equations_value { let stand = standing roster.duty.count roster.duty.rules equations in
        standing roster.duty.count roster.duty.rules result.equations
        ≡ cond result.drops stand (map (moved_by mark tables.now code) stand) }
{
    let n = roster.duty.count;
    let a = look_in_place(tables, 0 < n, roster.duty.rules[0], equations[0], code);
    let b = look_in_place(tables, 1 < n, roster.duty.rules[1], equations[1], code);
    let c = look_in_place(tables, 2 < n, roster.duty.rules[2], equations[2], code);
    let d = look_in_place(tables, 3 < n, roster.duty.rules[3], equations[3], code);
    let drops = a.is_none() | b.is_none() | c.is_none() | d.is_none();
    Looked {
        drops,
        equations: [
            select_unpredictable(drops, equations[0], a.unwrap_or(equations[0])),
            select_unpredictable(drops, equations[1], b.unwrap_or(equations[1])),
            select_unpredictable(drops, equations[2], c.unwrap_or(equations[2])),
            select_unpredictable(drops, equations[3], d.unwrap_or(equations[3])),
        ],
    }
}

// The state in which the rules are in these equations.
fn placed(roster: Roster, equations: [usize; 4]) -> Duty
    ensures { result ≡ duty_of (standing roster.duty.count roster.duty.rules equations) }
{
    let mut moved = Roster::new();
    for (i, rule) in roster.rules().iter().enumerate() {
        moved.push(OnDuty {
            equation: equations[i],
            ..*rule
        });
    }
    moved.duty
}

// Runs over the scans under the rules. A kept scan moves every rule, a dropped one none. The three lines that write stand in `follow` too: a trait
// over both monitors is longer than they are.
pub(crate) fn follow_all(
    tables: &[u16],
    roster: Roster,
    scans: &[u8],
    output: &mut [u8],
    verdicts: &mut [u8],
) -> End<Duty>
    requires { (length scans.now ≤ length output.old) × (length scans.now ≤ length verdicts.old) }
    ensures state_value { result.state ≡ duty_of (run_by (together mark tables.now) (on_duty roster.duty) scans.now).state }
    ensures kept_value { result.kept ≡ length (run_by (together mark tables.now) (on_duty roster.duty) scans.now).kept }
    ensures output_after { output.new
        ≡ overlay (run_by (together mark tables.now) (on_duty roster.duty) scans.now).kept output.old }
    ensures verdicts_after { verdicts.new
        ≡ overlay (run_by (together mark tables.now) (on_duty roster.duty) scans.now).verdicts verdicts.old }
{
    let mut equations = roster.duty.rules.map(|rule| rule.equation);
    let mut kept = 0;
    for (i, code) in scans.iter().enumerate() {
        let looked = look(tables, roster, equations, *code);
        let is_dropped = looked.drops;
        verdicts[i] = u8::from(is_dropped);
        output[kept] = select_unpredictable(is_dropped, output[kept], *code);
        kept += usize::from(!is_dropped);
        equations = looked.equations;
    }
    End {
        state: placed(roster, equations),
        kept,
    }
}
