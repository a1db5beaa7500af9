// The sizes of the split, counted before anything is written.
ghost use Rattle.std.specs.Prelude.{◌+◌, ◌-◌, ◌≤◌, ◌<◌, max, ◌*◌, ◌≡◌, true, length, eqb};
ghost use Rattle.words.specs.Lists.{filter};
ghost use Rattle.task.specs.Table.{task_of, is_table};
ghost use Rattle.arcs.specs.Stretches.{IsStretch, stretch_in};
ghost use Rattle.tokens.specs.Split.{orders, split_schema, split_task, within_limits};
ghost use Rattle.tokens.specs.Acceptance.{SchemaSized, SizesCounted, SizesTold, most_part_atoms, are_within};
ghost use Rattle.tokens.specs.Acceptance.{part_schemas};
ghost use Rattle.task.specs.Task.{schema_pairs};
ghost use Rattle.task.specs.Limits.{most_parts, most_schemas, most_pairs};
ghost use Rattle.tokens.specs.Kept.{kept_count, PartsKept, SchemaKept};

use crate::kept::{Kept, count_of, end_of, own_at, pair_end_of, pair_of, part_at, start_of};
use crate::pairs::carried;
use crate::pars::{pars_at, shared_in};
use arcs::atoms::part_of;
use task::Part;
use task::limits::{
    GOAL_ATOMS, INITIAL_ATOMS, MOST_ATOMS, MOST_GOAL, MOST_INITIAL, MOST_PAIRS, MOST_PREDICATES,
    MOST_SCHEMA_ATOMS, MOST_SCHEMAS, PREDICATES, SCHEMAS,
};
use words::runs::word;
use words::sets::{bound, size};

// The sizes that a table limits: later parts, pars, schemas, schema atoms, the most atoms of one schema, and pairs; and
// whether all limits are kept.
#[derive(Clone, Copy, Debug, PartialEq, Eq)]
pub struct Sizes {
    pub later: usize,
    pub pars: usize,
    pub schemas: usize,
    pub atoms: usize,
    pub largest: usize,
    pub pairs: usize,
    pub within: bool,
}

// Of one schema: how many atoms its parts have, the most that one of them has, one more than the largest parameter
// found in two parts, or 0, and how many pairs its parts carry.
#[derive(Clone, Copy, Debug, PartialEq, Eq)]
pub struct Measured {
    pub atoms: usize,
    pub largest: usize,
    pub shared: usize,
    pub pairs: usize,
}

// How many of the atoms `from` to `to - 1` are in a part.
fn atoms_in(table: &[u16], from: usize, to: usize, part: Part) -> usize
    requires { IsStretch table.now from to }
    ensures value { result ≡ length (filter (λ a. eqb part.0 a.part) (stretch_in table.now from to)) }
    ensures upper_bound { result ≤ to - from }
{
    (from..to)
        .filter(|i| part_of(table, *i).0 == part.0)
        .count()
}

// The atoms of the part at position j of schema s: its old ones, procnone or do, and pars.
pub fn part_size(table: &[u16], kept: &Kept, s: usize, j: usize) -> usize
    requires schema_kept { SchemaKept table.now s kept.now }
    requires j_bound { j < kept_count kept.now s }
    ensures value { result ≡
        length (split_schema (task_of table.now) s (orders (task_of table.now) s) j).atoms }
    ensures upper_bound { result ≤ most_part_atoms }
{
    let old = atoms_in(
        table,
        start_of(kept, s),
        end_of(kept, s),
        part_at(kept, s, j),
    );
    let pars = pars_at(kept, s, j);
    let required = old + 1 + size(pars.later);
    if count_of(kept, s) == 1 {
        return required;
    }
    required + (1 + size(pars.first) + (1 + size(pars.last)))
}

// How many pairs the parts of schema s carry; several may carry one. Where it has none, no part is asked.
fn pairs_carried(table: &[u16], kept: &Kept, s: usize) -> usize
    requires { SchemaKept table.now s kept.now }
    ensures value { result ≡ schema_pairs (part_schemas (task_of table.now) s) }
    ensures upper_bound { result ≤ most_parts * most_pairs }
{
    let from = pair_of(kept, s);
    let to = pair_end_of(kept, s);
    if from == to {
        return 0;
    }
    let mut n = 0;
    for j in 0..count_of(kept, s) {
        n += carried(table, own_at(kept, s, j), from, to);
    }
    n
}

// Of one schema: its parts' atoms, the most of one part, its shared parameters, and its parts' pairs.
fn measure_schema(table: &[u16], kept: &Kept, s: usize) -> Measured
    requires { SchemaKept table.now s kept.now }
    ensures { SchemaSized (task_of table.now) s result }
{
    let mut atoms = 0;
    let mut largest = 0;
    for j in 0..count_of(kept, s) {
        let n = part_size(table, kept, s, j);
        atoms += n;
        largest = n.max(largest);
    }
    Measured {
        atoms,
        largest,
        shared: bound(shared_in(kept, s)),
        pairs: pairs_carried(table, kept, s),
    }
}

// The sizes of some schemas and of one more, which has `count` parts.
fn with_schema(sizes: Sizes, one: Measured, count: usize) -> Sizes
    requires le_count { (1 ≤ count) × (count ≤ most_parts) }
    requires later_bound { (sizes.later ≤ most_parts * most_schemas) × (sizes.schemas ≤ most_parts * most_schemas) }
    requires atoms_bound { sizes.atoms ≤ most_parts * most_part_atoms * most_schemas }
    requires atoms_bound_2 { one.atoms ≤ most_parts * most_part_atoms }
    requires pairs_bound { (sizes.pairs ≤ most_parts * most_pairs * most_schemas) × (one.pairs ≤ most_parts * most_pairs) }
    ensures later_value { result.later ≡ sizes.later + (count - 1) }
    ensures pars_value { result.pars ≡ max sizes.pars one.shared }
    ensures schemas_value { result.schemas ≡ sizes.schemas + count }
    ensures atoms_value { result.atoms ≡ sizes.atoms + one.atoms }
    ensures largest_value { result.largest ≡ max sizes.largest one.largest }
    ensures pairs_value { result.pairs ≡ sizes.pairs + one.pairs }
    ensures within_value { result.within ≡ sizes.within }
{
    Sizes {
        later: sizes.later + (count - 1),
        pars: sizes.pars.max(one.shared),
        schemas: sizes.schemas + count,
        atoms: sizes.atoms + one.atoms,
        largest: sizes.largest.max(one.largest),
        pairs: sizes.pairs + one.pairs,
        within: sizes.within,
    }
}

// The limits of a table that a split can pass, by what it would have.
fn are_within(
    predicates: usize,
    schemas: usize,
    atoms: usize,
    largest: usize,
    initial: usize,
    goal: usize,
    pairs: usize,
) -> bool
    ensures { result ≡ are_within predicates schemas atoms largest initial goal pairs }
{
    predicates <= MOST_PREDICATES
        && schemas <= MOST_SCHEMAS
        && atoms <= MOST_SCHEMA_ATOMS
        && largest <= MOST_ATOMS
        && initial <= MOST_INITIAL
        && goal <= MOST_GOAL
        && pairs <= MOST_PAIRS
}

// Whether the split has no more than a table can, by its sizes.
pub fn within_limits(table: &[u16], sizes: Sizes) -> bool
    requires table_value { is_table table.now ≡ true }
    requires sizes_counted { SizesCounted (task_of table.now) sizes }
    ensures { result ≡ within_limits (split_task (task_of table.now)) }
{
    let old = word(table, PREDICATES);
    let initial = word(table, INITIAL_ATOMS);
    let goal = word(table, GOAL_ATOMS);
    let predicates = old + 1 + sizes.later + sizes.pars;
    are_within(
        predicates,
        sizes.schemas,
        sizes.atoms,
        sizes.largest,
        initial + 1,
        goal + 1,
        sizes.pairs,
    )
}

// The sizes of the split of a table whose parts are kept, also where the split passes a limit.
pub fn sizes_of(table: &[u16], kept: &Kept) -> Sizes
    requires table_value { is_table table.now ≡ true }
    requires parts_kept { PartsKept (task_of table.now) (length (task_of table.now).schemas) kept.now }
    ensures { SizesTold (task_of table.now) result }
{
    // `within` is told once all are counted.
    let mut sizes = Sizes {
        later: 0,
        pars: 0,
        schemas: 0,
        atoms: 0,
        largest: 0,
        pairs: 0,
        within: true,
    };
    for s in 0..word(table, SCHEMAS) {
        let one = measure_schema(table, kept, s);
        sizes = with_schema(sizes, one, count_of(kept, s));
    }
    let within = within_limits(table, sizes);
    Sizes { within, ..sizes }
}
