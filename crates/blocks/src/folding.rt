// Folding: a list of split steps is taken apart into whole blocks; it looks at schemas and objects, not at states.
ghost use Rattle.std.specs.Prelude.{ℕ, ◌+◌, ◌*◌, ◌≤◌, ◌<◌, ◌≡◌, List, length, get_or};
ghost use Rattle.words.specs.Lists.{all, up_to, over, put};
ghost use Rattle.task.specs.Limits.{most_parameters, most_parts, most_schemas, step_size};
ghost use Rattle.task.specs.Task.{Task};
ghost use Rattle.task.specs.Table.{task_of};
ghost use Rattle.task.specs.Run.{Step, step_words, is_step_at, bad_step, steps_in};
ghost use Rattle.tokens.specs.Split.{orders, split_task, first_of};
ghost use Rattle.tokens.specs.Kept.{kept_count};
ghost use Rattle.tokens.specs.Acceptance.{AcceptedKept};
ghost use Rattle.blocks.specs.Blocks.{fold_steps, folded, list_words};
ghost use Rattle.blocks.specs.Unfolding.{BlocksKept, TableKept};
ghost use Rattle.blocks.specs.FoldCode.{BeginsKept, ParamsNoted, origin_place, OriginsKept};
ghost use Rattle.blocks.specs.FoldCode.{PartNoted, PartsNoted, PartPlaced, PlacesNoted, PairsNoted};
ghost use Rattle.blocks.specs.FoldCode.{object_in, agrees_at, gathered};
ghost use Rattle.blocks.specs.FoldCode.{is_part, StepsKnown, BlocksKnown, GoodBefore, SplitStepsKept};
ghost use Rattle.blocks.specs.FoldCode.{begun_word, KeepApart, EqualTold, reached_by, TakenTold, judged_of};

use task::layout::{object_count, param_count, schema_count};
use task::limits::{MOST_PAIRS, MOST_PARAMETERS, MOST_SCHEMAS, PAIR_SIZE, STEP_SIZE};
use task::steps::{Limits, are_within, keep_apart, limits_of, object_of, schema_at};
use task::{Object, Parameter, Reason, Refusal};
use tokens::kept::{Kept, count_of, first_of, own_at};
use tokens::measure::Sizes;
use tokens::pairs::all_pairs;
use words::putting::fill;
use words::runs::wide;
use words::sets;

// For each schema of the split: which schema's block it begins, by that one's number and one; 0 for none.
pub type Begins = [u16; MOST_SCHEMAS];

// For each schema of the split: how many parameters it has.
pub type Params = [u16; MOST_SCHEMAS];

// For each parameter of each schema of the task: the word of a block at which the first part that has the parameter
// gives its object.
const ORIGIN_WORDS: usize = MOST_PARAMETERS * MOST_SCHEMAS;

pub type Origins = [u16; ORIGIN_WORDS];

// For each parameter of each schema of the split: the origin of the task's parameter that it is.
type Places = [u16; ORIGIN_WORDS];

// The pairs that the schemas of the split carry: how many there are, then a row for each, as in a table.
const PAIR_WORDS: usize = 1 + PAIR_SIZE * MOST_PAIRS;

type Pairs = [u16; PAIR_WORDS];

// Which schema's block each schema of the split begins.
pub fn begins_of(kept: &Kept, schemas: u16) -> Begins
    requires { (t : Task) × BlocksKept t kept.now × (schemas ≡ length t.schemas) }
    ensures { (t : Task) → BlocksKept t kept.now → schemas ≡ length t.schemas →
        BeginsKept t result }
{
    let mut begins = [0; MOST_SCHEMAS];
    for s in 0..schemas {
        let first = first_of(kept, s as usize);
        begins[first] = s + 1;
    }
    begins
}

// How many parameters each schema of the split has.
pub fn params_of(kept: &Kept, schemas: u16) -> Params
    requires { (t : Task) × BlocksKept t kept.now × (schemas ≡ length t.schemas) }
    ensures { (t : Task) → BlocksKept t kept.now → schemas ≡ length t.schemas →
        ParamsNoted t (first_of t (length t.schemas)) result }
{
    let mut params = [0; MOST_SCHEMAS];
    for s in 0..schemas {
        note_params(kept, s as usize, &mut params);
    }
    params
}

// Those of the parts of schema s are noted.
fn note_params(kept: &Kept, s: usize, params: &mut Params)
    requires { (t : Task) × BlocksKept t kept.now × (s < length t.schemas) ×
        ParamsNoted t (first_of t s) params.old }
    ensures { (t : Task) → BlocksKept t kept.now → s < length t.schemas →
        ParamsNoted t (first_of t s) params.old → ParamsNoted t (first_of t (s + 1)) params.new }
{
    let first = first_of(kept, s);
    let parts = count_of(kept, s);
    for j in 0..parts {
        params[first + j] = sets::size(own_at(kept, s, j)) as u16;
    }
}

// Where a block gives the object of each parameter of its schema.
pub fn origins_of(kept: &Kept, schemas: u16) -> Origins
    requires schemas_le_most_schemas { schemas ≤ most_schemas }
    requires by_index { (s : ℕ) → s < schemas → kept_count kept.now s ≤ most_parts }
    ensures { OriginsKept kept.now schemas result }
{
    let mut origins = [0; ORIGIN_WORDS];
    for s in 0..schemas {
        note_origins(kept, s as usize, &mut origins);
    }
    origins
}

// Those of the parameters of schema s are noted, from its last part to its first, so that the first that has one
// stands.
fn note_origins(kept: &Kept, s: usize, origins: &mut Origins)
    requires { (s < most_schemas) × (kept_count kept.now s ≤ most_parts) }
    ensures { PartsNoted kept.now s 0 origins.old origins.new }
{
    for j in (0..count_of(kept, s)).rev() {
        note_part(own_at(kept, s, j), s, j, origins);
    }
}

// Those of the part at position j, as it gives them.
fn note_part(own: u64, s: usize, j: usize, origins: &mut Origins)
    requires { (s < most_schemas) × (j < most_parts) }
    ensures { PartNoted own s j most_parameters origins.old origins.new }
{
    let mut next = STEP_SIZE * j + 1;
    for p in 0..MOST_PARAMETERS {
        if sets::has(own, p) {
            origins[MOST_PARAMETERS * s + p] = next as u16;
            next += 1;
        }
    }
}

// The origins of the parameters of the split's schemas, by those of the task's.
fn places_of(kept: &Kept, schemas: u16, origins: &Origins) -> Places
    requires { (t : Task) × BlocksKept t kept.now × (schemas ≡ length t.schemas) }
    ensures { (t : Task) → BlocksKept t kept.now → schemas ≡ length t.schemas →
        PlacesNoted t kept.now origins.now (first_of t (length t.schemas)) result }
{
    let mut places = [0; ORIGIN_WORDS];
    for s in 0..schemas {
        note_places(kept, s as usize, origins, &mut places);
    }
    places
}

// Those of the parts of schema s are noted.
fn note_places(kept: &Kept, s: usize, origins: &Origins, places: &mut Places)
    requires { (t : Task) × BlocksKept t kept.now × (s < length t.schemas) }
    ensures { (t : Task) → BlocksKept t kept.now → s < length t.schemas →
        PlacesNoted t kept.now origins.now (first_of t s) places.old →
        PlacesNoted t kept.now origins.now (first_of t (s + 1)) places.new }
{
    let first = first_of(kept, s);
    let parts = count_of(kept, s);
    for j in 0..parts {
        place_part(own_at(kept, s, j), s, first + j, origins, places);
    }
}

// Those of one part of schema s, by its number in the split: its own parameters are those of the set, ascending.
fn place_part(own: u64, s: usize, number: usize, origins: &Origins, places: &mut Places)
    requires { (s < most_schemas) × (number < most_schemas) }
    ensures { PartPlaced own s number most_parameters origins.now places.old
        places.new }
{
    let mut next = MOST_PARAMETERS * number;
    for p in 0..MOST_PARAMETERS {
        if sets::has(own, p) {
            places[next] = origins[MOST_PARAMETERS * s + p];
            next += 1;
        }
    }
}

// The pairs of an accepted split: "A part that has both parameters carries the line, renumbered".
fn pairs_of(table: &[u16], kept: &Kept, sizes: Sizes) -> Pairs
    requires { AcceptedKept table.now sizes kept.now }
    ensures { PairsNoted (task_of table.now) result }
{
    let mut pairs = [0; PAIR_WORDS];
    pairs[0] = sizes.pairs as u16;
    all_pairs(table, kept, &mut pairs, 1);
    pairs
}

// The schema whose block the step whose words begin at `at` can begin, if any.
fn begun_at(steps: &[u16], at: usize, begins: &Begins) -> Option<usize>
    requires { at < length steps.now }
    ensures { begun_word result ≡ get_or begins.now (get_or steps.now at 0) 0 }
{
    let begun = begins.get(schema_at(steps, at))?;
    wide(*begun).checked_sub(1)
}

// The object that the block which begins at the word `begin` gives for a parameter of schema s: one of the task, by its
// origins, or one of the split, by its places.
fn object_in(
    steps: &[u16],
    origins: &Origins,
    begin: usize,
    s: usize,
    parameter: Parameter,
) -> Object
    requires s_lt_most_schemas { (s < most_schemas) × (parameter.0 < most_parameters) }
    requires parameter_in_bounds { begin + get_or origins.now (origin_place s parameter.0) 0 < length steps.now }
    ensures { result.0 ≡ object_in steps.now origins.now begin s parameter.0 }
{
    Object(steps[begin + wide(origins[MOST_PARAMETERS * s + wide(parameter.0)])])
}

// Whether the objects of the step whose words begin at `at`, of the split's schema with that number and so many
// parameters, are those that its block gives. In the first part that has a parameter its object is compared with
// itself.
fn agree(
    steps: &[u16],
    places: &Places,
    begin: usize,
    at: usize,
    number: usize,
    params: u16,
) -> bool
    requires step_size_in_bounds { at + step_size ≤ length steps.now }
    requires number_lt_most_schemas { (number < most_schemas) × (params ≤ most_parameters) }
    requires by_index { (k : ℕ) → k < params → begin + get_or places.now (origin_place number k) 0 < length steps.now }
    ensures { result ≡ all (agrees_at steps.now places.now begin at number) (up_to params) }
{
    for k in 0..params {
        let given = object_of(steps, at, Parameter(k));
        let first = object_in(steps, places, begin, number, Parameter(k));
        if given.0 != first.0 {
            return false;
        }
    }
    true
}

// Whether the whole step at index i, of the split's schema with that number, is one of the split: behind the schema
// objects of the task, then zeros, and different objects at each pair that the schema carries. Where the split has no
// pair, nothing more is asked of it.
fn is_schema_step(
    steps: &[u16],
    i: usize,
    number: usize,
    params: &Params,
    limits: &Limits,
    pairs: &Pairs,
) -> bool
    requires step_size_in_bounds { step_size * i + step_size ≤ length steps.now }
    requires number_value { number ≡ get_or steps.now (step_size * i) 0 }
    requires steps_known { (t : Task) × StepsKnown t params.now limits.now pairs.now ×
        (number < first_of t (length t.schemas)) }
    ensures { (t : Task) → StepsKnown t params.now limits.now pairs.now →
        number < first_of t (length t.schemas) → result ≡ is_step_at (split_task t) steps.now i }
{
    let at = STEP_SIZE * i;
    if !are_within(steps, at, wide(params[number]), limits) {
        return false;
    }
    let count = wide(pairs[0]);
    if count == 0 {
        return true;
    }
    keep_apart(pairs, 1, count, steps, at, number)
}

// Whether what stands at position j of the block that begins at split step i is a step of the split, the part of schema
// s there, and agrees with the parts before it. Of no step are equal objects at a pair left to tell.
fn part_fits(
    steps: &[u16],
    i: usize,
    s: usize,
    j: usize,
    kept: &Kept,
    params: &Params,
    places: &Places,
    limits: &Limits,
) -> bool
    requires { (t : Task) × (origins : List ℕ) × (pairs : List ℕ) ×
        BlocksKnown t kept.now params.now origins places.now limits.now pairs × KeepApart t steps.now ×
        (s < length t.schemas) × (j < length (orders t s)) × (step_size * (i + j) ≤ length steps.now) }
    ensures { (t : Task) (origins pairs : List ℕ) →
        BlocksKnown t kept.now params.now origins places.now limits.now
        pairs → KeepApart t steps.now → s < length t.schemas → j < length (orders t s) →
        result ≡ is_part t steps.now origins i s j }
{
    let at = STEP_SIZE * (i + j);
    if steps.len() - at < STEP_SIZE {
        return false;
    }
    let number = first_of(kept, s) + j;
    if schema_at(steps, at) != number {
        return false;
    }
    if !are_within(steps, at, wide(params[number]), limits) {
        return false;
    }
    agree(steps, places, STEP_SIZE * i, at, number, params[number])
}

// What a list is taken apart into: so many steps; or the step that fits no block, or the step count where the last block
// is unfinished. "Folding stops at the first step in any block that disagrees." Here it also stops at one that isn't
// the split's.
fn take_apart(
    steps: &[u16],
    kept: &Kept,
    begins: &Begins,
    params: &Params,
    places: &Places,
    limits: &Limits,
) -> Result<u64, u64>
    requires { (t : Task) × (origins : List ℕ) × (pairs : List ℕ) ×
        BlocksKnown t kept.now params.now origins places.now limits.now pairs × KeepApart t steps.now ×
        BeginsKept t begins.now }
    ensures { (t : Task) (origins pairs : List ℕ) →
        BlocksKnown t kept.now params.now origins places.now limits.now
        pairs → KeepApart t steps.now → BeginsKept t begins.now →
        TakenTold t steps.now result }
{
    let count = steps.len() / STEP_SIZE;
    let mut taken: u64 = 0;
    let mut i = 0;
    'list: loop {
        if i == count {
            break 'list Ok(taken);
        }
        let begun = begun_at(steps, STEP_SIZE * i, begins);
        let Some(s) = begun else {
            break 'list Err(i as u64);
        };
        let parts = count_of(kept, s);
        for j in 0..parts {
            if !part_fits(steps, i, s, j, kept, params, places, limits) {
                break 'list Err((i + j) as u64);
            }
        }
        i += parts;
        taken += 1;
    }
}

// Up to which step a list was taken apart, of so many.
fn reached(taken: Result<u64, u64>, count: usize) -> usize
    ensures { result ≡ reached_by count taken }
{
    match taken {
        Ok(_) => count,
        Err(i) => i as usize,
    }
}

// Whether the list's words have a whole step of the split at index i, of a split with so many schemas.
fn is_split_step(
    steps: &[u16],
    i: usize,
    splits: usize,
    params: &Params,
    limits: &Limits,
    pairs: &Pairs,
) -> bool
    requires i_in_bounds { step_size * i ≤ length steps.now }
    requires steps_known { (t : Task) × StepsKnown t params.now limits.now pairs.now ×
        (splits ≡ first_of t (length t.schemas)) }
    ensures { (t : Task) → StepsKnown t params.now limits.now pairs.now →
        splits ≡ first_of t (length t.schemas) → result ≡ is_step_at (split_task t) steps.now i }
{
    let at = STEP_SIZE * i;
    if steps.len() - at < STEP_SIZE {
        return false;
    }
    let number = schema_at(steps, at);
    if splits <= number {
        return false;
    }
    is_schema_step(steps, i, number, params, limits, pairs)
}

// The first bad step of a list of which the steps before one are the split's.
fn bad_from(
    steps: &[u16],
    from: usize,
    splits: usize,
    params: &Params,
    limits: &Limits,
    pairs: &Pairs,
) -> Option<u64>
    requires { (t : Task) × StepsKnown t params.now limits.now pairs.now ×
        (splits ≡ first_of t (length t.schemas)) }
    ensures { (t : Task) → StepsKnown t params.now limits.now pairs.now →
        splits ≡ first_of t (length t.schemas) → GoodBefore t steps.now from →
        result ≡ bad_step (split_task t) steps.now }
{
    let begun = (steps.len() + STEP_SIZE - 1) / STEP_SIZE;
    (from..begun)
        .find(|i| !is_split_step(steps, *i, splits, params, limits, pairs))
        .map(|i| i as u64)
}

// Where the split has pairs, the first bad step of the list, by all that 12 judges; where it has none, no step has
// equal objects at one, and no pass is made.
fn equal_step(
    steps: &[u16],
    splits: usize,
    params: &Params,
    limits: &Limits,
    pairs: &Pairs,
) -> Option<u64>
    requires { (t : Task) × StepsKnown t params.now limits.now pairs.now ×
        (splits ≡ first_of t (length t.schemas)) }
    ensures { (t : Task) → StepsKnown t params.now limits.now pairs.now →
        splits ≡ first_of t (length t.schemas) → EqualTold t steps.now result }
{
    if pairs[0] == 0 {
        return None;
    }
    bad_from(steps, 0, splits, params, limits, pairs)
}

// "folding's list is judged by 12 against the split task", and taken apart: in one pass, and only where it stops before
// the list's end the steps behind are judged by 12 alone. A split with pairs takes a pass for them before.
pub fn judge(
    table: &[u16],
    kept: &Kept,
    sizes: Sizes,
    steps: &[u16],
    begins: &Begins,
    origins: &Origins,
) -> Result<u64, Refusal>
    requires accepted_kept { AcceptedKept table.now sizes kept.now }
    requires begins_kept { BeginsKept (task_of table.now) begins.now }
    requires origins_kept { OriginsKept kept.now (length (task_of table.now).schemas) origins.now }
    ensures { result ≡ judged_of (bad_step (split_task (task_of table.now)) steps.now)
        (fold_steps (task_of table.now)
        (steps_in (split_task (task_of table.now)) steps.now)) }
{
    let schemas = schema_count(table);
    let params = params_of(kept, schemas);
    let places = places_of(kept, schemas, origins);
    let limits = limits_of(object_count(table));
    let pairs = pairs_of(table, kept, sizes);
    if let Some(i) = equal_step(steps, sizes.schemas, &params, &limits, &pairs) {
        return Err(Refusal::at_step(Reason::NotAStep, i));
    }
    let taken = take_apart(steps, kept, begins, &params, &places, &limits);
    let bad = bad_from(
        steps,
        reached(taken, steps.len() / STEP_SIZE),
        sizes.schemas,
        &params,
        &limits,
        &pairs,
    );
    if let Some(i) = bad {
        return Err(Refusal::at_step(Reason::NotAStep, i));
    }
    taken.map_err(|i| Refusal::at_step(Reason::Misfit, i))
}

// "schema, one object per parameter, zeros": the step of schema s, with so many parameters, whose block begins at the
// word `begin` is put from `to` on.
fn put_gathered(
    steps: &[u16],
    origins: &Origins,
    begin: usize,
    s: usize,
    params: usize,
    out: &mut [u16],
    to: usize,
)
    requires s_lt_most_schemas { (s < most_schemas) × (params ≤ most_parameters) }
    requires step_size_in_bounds { to + step_size ≤ length out.old }
    requires by_index { (p : ℕ) → p < params → begin + get_or origins.now (origin_place s p) 0 < length steps.now }
    ensures { out.new ≡ put out.old to
        (step_words (gathered steps.now origins.now begin s params)) }
{
    out[to] = s as u16;
    fill(out, to + 1, MOST_PARAMETERS, 0);
    for p in 0..params {
        let object = object_in(steps, origins, begin, s, Parameter(p as u16));
        out[to + 1 + p] = object.0;
    }
}

// "Folding takes a list apart into whole blocks": their steps, of a list that is taken apart wholly. In such a list
// each step that can begin a block does, so that no turn waits to learn how long the block before it was.
pub fn put_folded(table: &[u16], steps: &[u16], begins: &Begins, origins: &Origins, out: &mut [u16])
    requires { (kept : List ℕ) × (xs : List Step) × TableKept table.now kept ×
        SplitStepsKept (task_of table.now) steps.now kept begins.now origins.now ×
        (fold_steps (task_of table.now) (steps_in (split_task (task_of table.now)) steps.now) ≡ folded xs) ×
        (step_size * length xs ≤ length out.old) }
    ensures { (xs : List Step) →
        fold_steps (task_of table.now)
        (steps_in (split_task (task_of table.now)) steps.now) ≡ folded xs →
        out.new ≡ over (list_words xs) out.old }
{
    let count = steps.len() / STEP_SIZE;
    let mut next = 0;
    for i in 0..count {
        let begin = STEP_SIZE * i;
        if let Some(s) = begun_at(steps, begin, begins) {
            put_gathered(
                steps,
                origins,
                begin,
                s,
                param_count(table, s as u16),
                out,
                next,
            );
            next += STEP_SIZE;
        }
    }
}
