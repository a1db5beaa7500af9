// The bytes of the split's text. An atom or a pair of the split is made as splitting makes it, one at a time, and its
// line is counted by the writer of lines, run on no bytes.
ghost use Rattle.std.specs.Prelude.{◌^◌, ◌≤◌, ◌<◌, ◌≡◌, true, [], length};
ghost use Rattle.words.specs.Sets.{word_bits};
ghost use Rattle.task.specs.Limits.{most_parameters, most_predicates};
ghost use Rattle.task.specs.Layout.{head_in};
ghost use Rattle.task.specs.Table.{task_of, is_table, atom_in, pair_in};
ghost use Rattle.arcs.specs.Stretches.{IsSchemaAtom, IsStretch, IsPairStretch, pair_stretch_in};
ghost use Rattle.text.specs.Text.{write};
ghost use Rattle.tokens.specs.Split.{orders, split_schema, split_task, token};
ghost use Rattle.tokens.specs.Acceptance.{AcceptedKept, SizesTold, part_schemas, most_part_atoms};
ghost use Rattle.tokens.specs.Writing.{par_bound, par_in, renumbered, renumbered_pair};
ghost use Rattle.forecast.specs.Counting.{row_line, atoms_bytes, pair_bytes, pairs_bytes, part_line_bytes};
ghost use Rattle.forecast.specs.Counting.{old_here, pars_here, tokens_here, part_tokens, head_bytes, facts_bytes};
ghost use Rattle.forecast.specs.Counting.{schema_bytes, schemas_bytes};

use arcs::atoms::{argument_count, part_of};
use task::Parameter;
use task::layout::{role_at, row_of};
use task::limits::{
    ADDITION, ATOM_SIZE, DELETION, GOAL, HEAD_WORDS, INITIAL, LOWER, OBJECTS, PAIR_SIZE,
    PRECONDITION, PREDICATES, SCHEMAS,
};
use text::sizes::{facts_size, further_size, list_line_size, number_line_size, row_size};
use tokens::kept::{Kept, count_of, pair_end_of, pair_of};
use tokens::measure::{Sizes, part_size};
use tokens::pairs::{carries_pair, put_pair};
use tokens::part_atoms::{PartPlace, PartTokens, bare_token, old_atom, par_atom};
use tokens::schemas::{place_of, tokens_of};
use words::runs::{word, word_at};
use words::sets;

// The line of an old atom, renumbered for a part with these parameters.
fn old_line(table: &[u16], i: usize, own: u64) -> usize
    requires { IsSchemaAtom table.now i }
    ensures { let a = atom_in table.now i in
        result ≡ length (row_line (renumbered own a.role a)) }
{
    let mut row = [0u16; ATOM_SIZE];
    let role = role_at(table, row_of(table, i));
    old_atom(table, i, own, 0, role, &mut row, 0);
    row_size(&row, 0, argument_count(table, i))
}

// Those of a part's old atoms.
fn old_lines(table: &[u16], here: PartPlace) -> usize
    requires stretch { IsStretch table.now here.from here.to }
    requires here_bound { atoms_bytes (old_here table.now here) < 2 ^ 64 }
    ensures { result ≡ atoms_bytes (old_here table.now here) }
{
    (here.from..here.to)
        .filter(|i| part_of(table, *i).0 == here.part.0)
        .map(|i| old_line(table, i, here.own))
        .sum()
}

// The line of a bare token: procnone or a do.
fn bare_line(role: u16, predicate: u16) -> usize
    ensures { result ≡ length (row_line (token role predicate [])) }
{
    let mut row = [0u16; ATOM_SIZE];
    bare_token(0, role, predicate, &mut row, 0);
    row_size(&row, 0, 0)
}

// The line of a parameter's par.
fn par_line(here: PartPlace, role: u16, x: Parameter) -> usize
    requires x_lt_word_bits { x.0 < word_bits }
    requires par_lt_par_bound { here.par < par_bound }
    ensures { result ≡ length (row_line (par_in here.own here.par role x.0)) }
{
    let mut row = [0u16; ATOM_SIZE];
    par_atom(here, role, x, &mut row, 0);
    row_size(&row, 0, 1)
}

// Those of the parameters in a set.
fn par_lines(here: PartPlace, role: u16, which: u64) -> usize
    requires params_le_most_parameters { here.params ≤ most_parameters }
    requires par_lt_par_bound { here.par < par_bound }
    requires which_bound { atoms_bytes (pars_here here role which) < 2 ^ 64 }
    ensures { result ≡ atoms_bytes (pars_here here role which) }
{
    (0..here.params)
        .filter(|x| sets::has(which, *x))
        .map(|x| par_line(here, role, Parameter(x as u16)))
        .sum()
}

// Those of one role: a bare token and pars.
fn role_lines(here: PartPlace, role: u16, bare: u16, which: u64) -> usize
    requires params_le_most_parameters { here.params ≤ most_parameters }
    requires par_lt_par_bound { here.par < par_bound }
    requires which_bound { atoms_bytes (tokens_here here role bare which) < 2 ^ 64 }
    ensures { result ≡ atoms_bytes (tokens_here here role bare which) }
{
    bare_line(role, bare) + par_lines(here, role, which)
}

// Those of all roles: the only part of a schema has tokens among its preconditions alone.
fn token_lines(here: PartPlace, tokens: PartTokens) -> usize
    requires params_le_most_parameters { here.params ≤ most_parameters }
    requires par_lt_par_bound { here.par < par_bound }
    requires tokens_bound { atoms_bytes (part_tokens here tokens) < 2 ^ 64 }
    ensures { result ≡ atoms_bytes (part_tokens here tokens) }
{
    let pars = tokens.pars;
    let required = role_lines(here, PRECONDITION, tokens.required, pars.later);
    if tokens.lone {
        return required;
    }
    required
        + role_lines(here, ADDITION, tokens.handed, pars.first)
        + role_lines(here, DELETION, tokens.required, pars.last)
}

// The `differ` line of a pair, renumbered for a part with these parameters.
fn pair_line(table: &[u16], own: u64, i: usize) -> usize
    requires table_value { is_table table.now ≡ true }
    requires i_bound { i < (head_in table.now).pairs }
    ensures { result ≡ pair_bytes (renumbered_pair own (pair_in table.now i)) }
{
    let mut row = [0u16; PAIR_SIZE];
    put_pair(table, own, 0, i, &mut row, 0);
    list_line_size(b"differ=", &row, LOWER, 1, PAIR_SIZE - LOWER)
}

// Those of the pairs `from` to `to - 1` that the part carries.
fn pair_lines(table: &[u16], own: u64, from: usize, to: usize) -> usize
    requires pair_stretch { IsPairStretch table.now from to }
    requires to_bound { pairs_bytes own (pair_stretch_in table.now from to) < 2 ^ 64 }
    ensures { result ≡ pairs_bytes own (pair_stretch_in table.now from to) }
{
    (from..to)
        .filter(|i| carries_pair(table, own, *i))
        .map(|i| pair_line(table, own, i))
        .sum()
}

// A `part` line with a 0 for each of n atoms.
fn part_line(n: usize) -> usize
    requires { (1 ≤ n) × (n ≤ most_part_atoms) }
    ensures { result ≡ part_line_bytes n }
{
    number_line_size(b"part=", 0) + (n - 1) * further_size(0)
}

// The text of the schema that the part at position j of schema s becomes.
fn part_bytes(table: &[u16], kept: &Kept, counted: Sizes, s: usize, j: usize) -> usize
    requires accepted_kept { AcceptedKept table.now counted kept.now }
    requires s_in_bounds { s < length (task_of table.now).schemas }
    requires j_in_bounds { j < length (orders (task_of table.now) s) }
    requires j_bound { schema_bytes (split_schema (task_of table.now) s (orders (task_of table.now) s) j) < 2 ^ 64 }
    ensures { result ≡
        schema_bytes (split_schema (task_of table.now) s (orders (task_of table.now) s) j) }
{
    let here = place_of(table, kept, counted, s, j);
    let tokens = tokens_of(table, kept, s, j);
    let params = number_line_size(b"schema=", sets::size(here.own) as u16);
    let pairs = pair_lines(table, here.own, pair_of(kept, s), pair_end_of(kept, s));
    let atoms = old_lines(table, here) + token_lines(here, tokens);
    params + pairs + atoms + part_line(part_size(table, kept, s, j))
}

// Those of all parts of schema s.
fn parts_bytes(table: &[u16], kept: &Kept, counted: Sizes, s: usize) -> usize
    requires accepted_kept { AcceptedKept table.now counted kept.now }
    requires s_in_bounds { s < length (task_of table.now).schemas }
    requires s_bound { schemas_bytes (part_schemas (task_of table.now) s) < 2 ^ 64 }
    ensures { result ≡ schemas_bytes (part_schemas (task_of table.now) s) }
{
    (0..count_of(kept, s))
        .map(|j| part_bytes(table, kept, counted, s, j))
        .sum()
}

// Those of all schemas of the split.
fn schemas_bytes(table: &[u16], kept: &Kept, counted: Sizes) -> usize
    requires accepted_kept { AcceptedKept table.now counted kept.now }
    requires table_bound { schemas_bytes (split_task (task_of table.now)).schemas < 2 ^ 64 }
    ensures { result ≡ schemas_bytes (split_task (task_of table.now)).schemas }
{
    (0..word(table, SCHEMAS))
        .map(|s| parts_bytes(table, kept, counted, s))
        .sum()
}

// The lines before the schemas: the arities are the old ones, 0 for procnone and each do, 1 for each par.
fn head_bytes(table: &[u16], counted: Sizes) -> usize
    requires table_value { is_table table.now ≡ true }
    requires sizes_told { SizesTold (task_of table.now) counted }
    requires later_le_most_predicates { (counted.later ≤ most_predicates) × (counted.pars ≤ most_predicates) }
    ensures { result ≡ head_bytes (split_task (task_of table.now)) }
{
    let predicates = word(table, PREDICATES);
    let bare = (counted.later + 1) * further_size(0);
    let pars = counted.pars * further_size(1);
    number_line_size(b"task=", 1)
        + number_line_size(b"objects=", word_at(table, OBJECTS))
        + (list_line_size(b"arity=", table, HEAD_WORDS, 1, predicates) + bare + pars)
}

// The initial and goal atoms: the old ones, and procnone among each.
fn facts_bytes(table: &[u16]) -> usize
    requires { is_table table.now ≡ true }
    ensures { result ≡ facts_bytes (split_task (task_of table.now)) }
{
    let procnone = word_at(table, PREDICATES);
    facts_size(table) + bare_line(INITIAL, procnone) + bare_line(GOAL, procnone)
}

// The whole text of an accepted split.
pub fn text_bytes(table: &[u16], kept: &Kept, counted: Sizes) -> usize
    requires { AcceptedKept table.now counted kept.now }
    ensures { result ≡ length (write (split_task (task_of table.now))) }
{
    let head = head_bytes(table, counted);
    let schemas = schemas_bytes(table, kept, counted);
    let facts = facts_bytes(table);
    head + schemas + facts + number_line_size(b"end=", 1)
}
