// The split written as a table, front to back, each word once.
ghost use Rattle.std.specs.Prelude.{◌+◌, ◌*◌, ◌≤◌, ◌<◌, ◌≡◌, true, [], ◌++◌, length};
ghost use Rattle.words.specs.Lists.{concat_map, over};
ghost use Rattle.task.specs.Layout.{head_in, params_base};
ghost use Rattle.task.specs.Limits.{table_words, head_words, atom_size};
ghost use Rattle.task.specs.Task.{initial, goal_role};
ghost use Rattle.task.specs.Table.{task_of, is_table, atom_words, fact_words, words_of};
ghost use Rattle.words.specs.Words.{words_at, word_bound};
ghost use Rattle.tokens.specs.Split.{split_task, token};
ghost use Rattle.words.specs.Putting.{Puts};
ghost use Rattle.tokens.specs.Acceptance.{AcceptedKept};
ghost use Rattle.tokens.specs.Writing.{count_words, arity_words};

use crate::kept::Kept;
use crate::measure::Sizes;
use crate::pairs::all_pairs;
use crate::part_atoms::bare_token;
use crate::schemas::{all_params, all_parts};
use task::layout::facts_base;
use task::limits::{
    ATOM_SIZE, GOAL, GOAL_ATOMS, HEAD_WORDS, INITIAL, INITIAL_ATOMS, OBJECTS, PREDICATES, SCHEMAS,
    TABLE_WORDS,
};
use words::putting::{copy, fill, four};
use words::runs::{word, word_at};

// The seven counts.
fn head(table: &[u16], sizes: Sizes, out: &mut [u16]) -> usize
    requires head_words_in_bounds { head_words ≤ length table.now }
    requires pars_bound { (head_in table.now).predicates + 1 + sizes.later + sizes.pars < word_bound }
    requires schemas_lt_word_bound { (sizes.schemas < word_bound) × (sizes.atoms < word_bound) }
    requires table_bound { ((head_in table.now).initial_atoms + 1 < word_bound) ×
        ((head_in table.now).goal_atoms + 1 < word_bound) × (sizes.pairs < word_bound) }
    requires head_words_in_bounds_2 { head_words ≤ length out.old }
    ensures { Puts out.old 0 (count_words table.now sizes) out.new result }
{
    let predicates = word(table, PREDICATES) + 1 + sizes.later + sizes.pars;
    let next = four(
        out,
        0,
        word_at(table, OBJECTS),
        predicates as u16,
        sizes.schemas as u16,
        sizes.atoms as u16,
    );
    out[next] = word_at(table, INITIAL_ATOMS) + 1;
    out[next + 1] = word_at(table, GOAL_ATOMS) + 1;
    out[next + 2] = sizes.pairs as u16;
    next + 3
}

// The arities: the old ones, 0 for procnone and each do, 1 for each par.
fn arities(table: &[u16], sizes: Sizes, out: &mut [u16], at: usize) -> usize
    requires table_in_bounds { params_base table.now ≤ length table.now }
    requires pars_in_bounds { at + (head_in table.now).predicates + 1 + sizes.later + sizes.pars ≤ length out.old }
    ensures { Puts out.old at (arity_words table.now sizes) out.new result }
{
    let old = copy(table, HEAD_WORDS, word(table, PREDICATES), out, at);
    let bare = fill(out, old, sizes.later + 1, 0);
    fill(out, bare, sizes.pars, 1)
}

// Initial or goal atoms: the `count` old ones, whose words begin at `from`, and procnone.
fn facts(table: &[u16], from: usize, count: usize, role: u16, out: &mut [u16], at: usize) -> usize
    requires head_words_in_bounds { head_words ≤ length table.now }
    requires count_in_bounds { from + atom_size * count ≤ length table.now }
    requires atom_size_in_bounds { at + atom_size * count + atom_size ≤ length out.old }
    ensures puts { Puts out.old at
        (words_at table.now from (atom_size * count) ++
        atom_words 0 (token role (head_in table.now).predicates []))
        out.new result }
    ensures value { result ≡ at + atom_size * count + atom_size }
{
    let old = copy(table, from, ATOM_SIZE * count, out, at);
    bare_token(0, role, word_at(table, PREDICATES), out, old)
}

// The initial atoms, then the goal atoms.
fn all_facts(table: &[u16], out: &mut [u16], at: usize) -> usize
    requires table_value { is_table table.now ≡ true }
    requires table_in_bounds { at + atom_size * ((head_in table.now).initial_atoms + 1 + ((head_in table.now).goal_atoms + 1)) ≤
        length out.old }
    ensures { Puts out.old at
        (concat_map (fact_words initial) (split_task (task_of table.now)).init ++
        concat_map (fact_words goal_role) (split_task (task_of table.now)).goal) out.new result }
{
    let inits = word(table, INITIAL_ATOMS);
    let goals = word(table, GOAL_ATOMS);
    let from = facts_base(table);
    let started = facts(table, from, inits, INITIAL, out, at);
    facts(table, from + ATOM_SIZE * inits, goals, GOAL, out, started)
}

// The split of a table whose split is accepted, with zeros up to a table's words.
pub fn write_split(table: &[u16], kept: &Kept, sizes: Sizes, out: &mut [u16])
    requires accepted_kept { AcceptedKept table.now sizes kept.now }
    requires table_words_in_bounds { table_words ≤ length out.old }
    ensures { out.new ≡ over (words_of (split_task (task_of table.now))) out.old }
{
    let counted = head(table, sizes, out);
    let named = arities(table, sizes, out, counted);
    let sized = all_params(kept, word(table, SCHEMAS), out, named);
    let paired = all_pairs(table, kept, out, sized);
    let split = all_parts(table, kept, sizes, out, paired);
    let ended = all_facts(table, out, split);
    fill(out, ended, TABLE_WORDS - ended, 0);
}
