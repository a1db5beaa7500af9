// The table "with fresh parts": all its words stay but the parts of its schema atoms.
ghost use Rattle.std.specs.Prelude.{ℕ, ◌≤◌, ◌≡◌, true, length};
ghost use Rattle.words.specs.Lists.{over};
ghost use Rattle.task.specs.Limits.{table_words};
ghost use Rattle.task.specs.Table.{task_of, words_of, is_table};
ghost use Rattle.proposals.specs.Proposal.{proposed_task};
ghost use Rattle.proposals.specs.Scratch.{HaveParts};

use crate::Parts;
use task::layout::row_of;
use task::limits::{PART, SCHEMA_ATOMS, TABLE_WORDS};
use words::putting::copy;
use words::runs::word;

// Writes the table of the task proposed, whose parts these are.
pub fn write_proposed(table: &[u16], parts: &Parts, proposed: &mut [u16])
    requires table_value { is_table table.now ≡ true }
    requires table_words_in_bounds { table_words ≤ length proposed.old }
    ensures { (width : ℕ) →
        HaveParts width (task_of table.now) (length (task_of table.now).schemas)
        parts.now →
        proposed.new ≡
        over (words_of (proposed_task width (task_of table.now))) proposed.old }
{
    copy(table, 0, TABLE_WORDS, proposed, 0);
    let atoms = word(table, SCHEMA_ATOMS);
    for i in 0..atoms {
        proposed[row_of(table, i) + PART] = parts[i];
    }
}
