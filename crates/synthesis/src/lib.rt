// Counts the equations of a rule, fills tables with its monitor, and explains why it drops a scan. The definitions that the contracts cite stand in specs/.
#![tactic(auto)]

mod explaining;
mod filling;
mod graph;
mod merging;
mod renumbering;
mod search;
mod shortening;

ghost use Rattle.std.specs.Prelude.{◌≡◌, min, [], length};
ghost use Rattle.reading.specs.Refusals.{number, as_outcome};
ghost use Rattle.synthesis.specs.Monitor.{mark, most, row_of};
ghost use Rattle.synthesis.specs.Building.{synthesis_of, filling_of, preview_of, preview_filling_of, short_of, short_filling_of, counted_of, table_after, page_number};
ghost use Rattle.synthesis.specs.Reason.{explanation_of, reason_of};
ghost use Rattle.synthesis.specs.Plans.{IsPlan};

use graph::Graph;
use reading::{Fault, Refusal};
use search::Equations;

// The entry of a code that is dropped.
pub const DROPPED: u16 = 65535;

// The most equations that a rule may have.
pub const MOST: usize = 1000;

// The most that the rule page shows.
const PREVIEW_LIMIT: usize = 32;

// The entries of the rows of a rule with the most equations.
const LONGEST: usize = 256 * MOST;

// What the table of a rule is filled from, besides its equations: its graph, and how many equations there are.
#[derive(Drop)]
struct Plan {
    graph: Graph,
    count: usize,
}

// Reads a rule file and finds the equations of its rule, where there are none yet. They are lent, since they are too long to be handed back.
fn plan_of(rule: &[u8], equations: &mut Equations) -> Result<Plan, Refusal>
    requires { equations.old.equations ≡ [] }
    ensures { IsPlan (synthesis_of equations.old.limit rule.now) result equations.new }
{
    let numbered = reading::read_rule(rule)?;
    let graph = Graph::of_rule(&numbered);
    if graph.first & graph.falsities != 0 {
        return Err(Fault::Unsatisfiable.at(0));
    }
    search::search(&graph, equations)?;
    let count = equations.len();
    Ok(Plan { graph, count })
}

// Answers how many equations the rule of a file has, or a refusal of 1 to 9; 9 where they are over the limit. A limit over the most counts as the most.
pub fn count_within(rule: &[u8], limit: usize) -> Result<usize, Refusal>
    ensures { as_outcome result ≡ counted_of (synthesis_of (min limit most) rule.now) }
{
    let mut equations = Equations::new(limit.min(MOST));
    let plan = plan_of(rule, &mut equations)?;
    Ok(plan.count)
}

// Fills a table with a row for each of these equations, and answers how many there are. It is refused as counting is, and then with 10 where the rows
// don't fit. A refused call leaves the table as it was.
pub fn fill_within(rule: &[u8], limit: usize, table: &mut [u16]) -> Result<usize, Refusal>
    ensures value { as_outcome result ≡ counted_of (filling_of (min limit most) rule.now (length table.old)) }
    ensures table_after { table.new
        ≡ table_after mark (filling_of (min limit most) rule.now (length table.old)) table.old }
{
    let mut equations = Equations::new(limit.min(MOST));
    let plan = plan_of(rule, &mut equations)?;
    if table.len() < 256 * plan.count {
        return Err(Fault::TableTooShort.at(0));
    }
    filling::fill_table(&plan.graph, &mut equations, table);
    Ok(plan.count)
}

// The same under the most equations that a rule may have.
pub fn count(rule: &[u8]) -> Result<usize, Refusal>
    ensures { as_outcome result ≡ counted_of (synthesis_of most rule.now) }
{
    count_within(rule, MOST)
}

// Fills a table under the most equations that a rule may have.
pub fn fill(rule: &[u8], table: &mut [u16]) -> Result<usize, Refusal>
    ensures value { as_outcome result ≡ counted_of (filling_of most rule.now (length table.old)) }
    ensures table_after { table.new ≡ table_after mark (filling_of most rule.now (length table.old)) table.old }
{
    fill_within(rule, MOST, table)
}

// A refusal as the rule page gives it: 18 stands in the place of 9.
fn on_page(refusal: Refusal) -> Refusal
    ensures numbered { number result.fault ≡ page_number (number refusal.fault) }
    ensures same_place { result.place ≡ refusal.place }
{
    if refusal.fault == Fault::TooManyEquations {
        return Fault::TooManyForPage.at(refusal.place);
    }
    refusal
}

// Answers how many equations the rule of a file has, as the rule page shows it: a refusal of 1 to 8, or 18 where there are over 32.
pub fn count_preview(rule: &[u8]) -> Result<usize, Refusal>
    ensures { as_outcome result ≡ counted_of (preview_of rule.now) }
{
    count_within(rule, PREVIEW_LIMIT).map_err(on_page)
}

// Fills a table with their rows, and answers how many there are. It is refused as counting on the page is, and then with 10 where the rows don't fit. A
// refused call leaves the table as it was.
pub fn fill_preview(rule: &[u8], table: &mut [u16]) -> Result<usize, Refusal>
    ensures value { as_outcome result ≡ counted_of (preview_filling_of rule.now (length table.old)) }
    ensures table_after { table.new ≡ table_after mark (preview_filling_of rule.now (length table.old)) table.old }
{
    fill_within(rule, PREVIEW_LIMIT, table).map_err(on_page)
}

// Answers how many equations the short table of the rule of a file has, one for each class of equations that drop alike, or a refusal of 1 to 9.
pub fn count_short(rule: &[u8]) -> Result<usize, Refusal>
    ensures { as_outcome result ≡ counted_of (short_of most rule.now) }
{
    let mut long = [0u16; LONGEST];
    let classes = shortening::short_plan_of(rule, &mut long)?;
    Ok(classes.count)
}

// Fills a table with a row for each of these classes, and answers how many there are. It is refused as counting is, and then with 10 where the rows don't
// fit. A refused call leaves the table as it was.
pub fn fill_short(rule: &[u8], table: &mut [u16]) -> Result<usize, Refusal>
    ensures value { as_outcome result ≡ counted_of (short_filling_of most rule.now (length table.old)) }
    ensures table_after { table.new ≡ table_after mark (short_filling_of most rule.now (length table.old)) table.old }
{
    let mut long = [0u16; LONGEST];
    let numbering = shortening::short_plan_of(rule, &mut long)?;
    if table.len() < 256 * numbering.count {
        return Err(Fault::TableTooShort.at(0));
    }
    numbering.fill(&long, table);
    Ok(numbering.count)
}

// The row of equation k, a part of the table; empty where it isn't wholly inside.
pub fn row(table: &[u16], k: usize) -> &[u16]
    ensures { result.now ≡ row_of 256 table.now k }
{
    match table.as_chunks::<256>().0.get(k) {
        Some(row) => row,
        None => &[],
    }
}

// Answers why a scan is dropped after the scans kept so far, by the lowest ff node that it opens, or none where it is kept. A refusal of 1 to 9, or 17
// where the kept scans violate the rule themselves.
pub fn explain(rule: &[u8], kept: &[u8], scan: u8) -> Result<Option<u8>, Refusal>
    ensures { as_outcome result ≡ reason_of (explanation_of most rule.now kept.now scan) }
{
    let mut equations = Equations::new(MOST);
    let plan = plan_of(rule, &mut equations)?;
    let e = explaining::follow(&plan.graph, kept)?;
    let reached = plan.graph.reached(e, scan as usize);
    Ok(explaining::lowest(reached & plan.graph.falsities))
}
