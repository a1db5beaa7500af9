// The stretches of atoms and of pairs that the schemas of a table have, one behind another.
ghost use Rattle.std.specs.Prelude.{suc, ◌<◌, ◌≡◌, true, length};
ghost use Rattle.task.specs.Table.{task_of, is_table};
ghost use Rattle.task.specs.Turns.{first_atom, first_pair};

use task::layout::{pairs_base, rows_base};
use task::limits::{ATOM_SIZE, PAIR_SIZE, PAIRS, SCHEMA_ATOMS};
use task::table::schemas::run_end;
use words::runs::word;

// Where the atoms of a schema end, and where its pairs do.
#[derive(Clone, Copy)]
pub struct Ends {
    pub atoms: usize,
    pub pairs: usize,
}

// Those of schema s, whose atoms begin at `from` and whose pairs begin at `pair`.
pub fn schema_ends(table: &[u16], s: usize, from: usize, pair: usize) -> Ends
    requires table_value { is_table table.now ≡ true }
    requires s_in_bounds { s < length (task_of table.now).schemas }
    requires from_value { from ≡ first_atom (task_of table.now) s }
    requires pair_value { pair ≡ first_pair (task_of table.now) s }
    ensures atoms_value { result.atoms ≡ first_atom (task_of table.now) (suc s) }
    ensures pairs_value { result.pairs ≡ first_pair (task_of table.now) (suc s) }
{
    let atoms = word(table, SCHEMA_ATOMS);
    let pairs = word(table, PAIRS);
    Ends {
        atoms: run_end(table, rows_base(table), ATOM_SIZE, atoms, s, from),
        pairs: run_end(table, pairs_base(table), PAIR_SIZE, pairs, s, pair),
    }
}
