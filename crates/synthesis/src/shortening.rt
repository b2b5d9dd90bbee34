// What the short table of a rule is filled from.
ghost use Rattle.std.specs.Prelude.{◌≡◌, ◌*◌, length};
ghost use Rattle.synthesis.specs.Monitor.{most};
ghost use Rattle.synthesis.specs.Building.{synthesis_of};
ghost use Rattle.synthesis.specs.Plans.{IsShortPlan};

use crate::filling::fill_table;
use crate::renumbering::Numbering;
use crate::search::Equations;
use crate::{MOST, plan_of};
use reading::Refusal;

// Reads a rule file, fills its long table, and numbers the classes of equations that drop alike.
pub(crate) fn short_plan_of(rule: &[u8], long: &mut [u16]) -> Result<Numbering, Refusal>
    requires { length long.old ≡ 256 * most }
    ensures { IsShortPlan (synthesis_of most rule.now) result long.new }
{
    let mut equations = Equations::new(MOST);
    let plan = plan_of(rule, &mut equations)?;
    fill_table(&plan.graph, &mut equations, long);
    Ok(Numbering::of_table(long, plan.count))
}
