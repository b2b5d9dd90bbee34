// Fills the rows of a table.
ghost use Rattle.std.specs.Prelude.{◌≡◌, ◌*◌, ◌≤◌, ◌<◌, length};
ghost use Rattle.synthesis.specs.Monitor.{mark};
ghost use Rattle.synthesis.specs.Table.{entry_of, entries_of, filled};
ghost use Rattle.synthesis.specs.Arrays.{answer_by};

use crate::DROPPED;
use crate::graph::Graph;
use crate::search::Equations;

// The entry for what an equation answers to a code: dropped, or the number of the next equation.
fn entry(graph: &Graph, equations: &mut Equations, e: u64, code: usize) -> u16
    requires { code < 256 }
    ensures value { result ≡ entry_of mark equations.old.equations (answer_by graph.now e code) }
    ensures same { equations.new ≡ equations.old }
{
    match graph.answer(e, code) {
        Some(next) => equations.find(next).unwrap_or(equations.len()) as u16,
        None => DROPPED,
    }
}

// Fills the row of an equation.
fn fill_row(graph: &Graph, equations: &mut Equations, e: u64, row: &mut [u16])
    requires { length row.old ≡ 256 }
    ensures filled { row.new ≡ entries_of mark (answer_by graph.now) equations.old.equations e 256 }
    ensures same { equations.new ≡ equations.old }
{
    for (code, place) in row.iter_mut().enumerate() {
        *place = entry(graph, equations, e, code);
    }
}

// Fills the rows of all equations.
pub(crate) fn fill_table(graph: &Graph, equations: &mut Equations, table: &mut [u16])
    requires { 256 * length equations.old.equations ≤ length table.old }
    ensures { table.new ≡ filled mark (answer_by graph.now) equations.old.equations 256 table.old }
{
    // By numbers, since to fill a row is to look equations up, and a proof learns nothing of what is written through `chunks_exact_mut`.
    for k in 0..equations.len() {
        let e = equations.get(k);
        let from = 256 * k;
        fill_row(graph, equations, e, &mut table[from..from + 256]);
    }
}
