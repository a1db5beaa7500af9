// The schemas of a table as actions, each behind a space.
ghost use Rattle.std.specs.Prelude.{◌≡◌, true, suc, ◌+◌, ◌≤◌, ◌<◌, length};
ghost use Rattle.words.specs.Lists.{up_to, concat_map};
ghost use Rattle.words.specs.Putting.{Puts};
ghost use Rattle.task.specs.Layout.{head_in};
ghost use Rattle.task.specs.Limits.{most_parameters};
ghost use Rattle.task.specs.Table.{task_of, is_table};
ghost use Rattle.task.specs.Turns.{first_atom, first_pair};
ghost use Rattle.defines.specs.Pddl.{neighbours, parameter, names_up_to};
ghost use Rattle.defines.specs.ByWords.{head_text, frame_in, action_in};

use crate::atoms::put_run;
use crate::names::{PARAMETER, below_size, put_numbered};
use crate::pairs::put_pairs;
use crate::reached::Reached;
use task::layout::params_of;
use task::limits::{ADDITION, DELETION, PRECONDITION, SCHEMAS};
use text::put::{number_size, put_bytes, put_number};
use words::runs::{wide, word_at};

// The first parameter stands just inside the bracket, and has no space before it.
fn put_parameters(text: &mut [u8], at: usize, params: u16) -> usize
    requires { at + length (neighbours (names_up_to parameter params)) ≤ length text.old }
    ensures { Puts text.old at (neighbours (names_up_to parameter params)) text.new result }
{
    if params == 0 {
        return at;
    }
    let at_second = put_bytes(text, at, b"?x0");
    put_numbered(text, at_second, &PARAMETER, 1, params)
}

// An action up to its preconditions.
fn put_head(text: &mut [u8], at: usize, schema: u16, params: u16) -> usize
    requires { at + length (head_text schema params) ≤ length text.old }
    ensures { Puts text.old at (head_text schema params) text.new result }
{
    let at_number = put_bytes(text, at, b" (:action a");
    let at_bracket = put_number(text, at_number, schema);
    let at_parameters = put_bytes(text, at_bracket, b" :parameters (");
    let at_preconditions = put_parameters(text, at_parameters, params);
    put_bytes(text, at_preconditions, b") :precondition (and")
}

// How far the writer is: the place behind what it put, and the first atom and the first pair that it has not put.
#[derive(Clone, Copy)]
struct Acted {
    at: usize,
    atom: usize,
    pair: usize,
}

// The action of a schema, whose atoms begin at `from` and whose pairs at `pair`.
fn put_action(
    text: &mut [u8],
    at: usize,
    table: &[u16],
    schema: u16,
    from: usize,
    pair: usize,
) -> Acted
    requires table_value { is_table table.now ≡ true }
    requires schema_bound { schema < (head_in table.now).schemas }
    requires from_value { from ≡ first_atom (task_of table.now) schema }
    requires pair_value { pair ≡ first_pair (task_of table.now) schema }
    requires schema_in_bounds { at + length (action_in table.now schema) ≤ length text.old }
    ensures atom_value { result.atom ≡ first_atom (task_of table.now) (suc schema) }
    ensures pair_value_2 { result.pair ≡ first_pair (task_of table.now) (suc schema) }
    ensures puts { Puts text.old at (action_in table.now schema) text.new result.at }
{
    let number = wide(schema);
    let params = params_of(table, number) as u16;
    let at_preconditions = put_head(text, at, schema, params);
    let adds = put_run(text, at_preconditions, table, number, PRECONDITION, from);
    let apart = put_pairs(text, adds.at, table, number, pair);
    let at_effects = put_bytes(text, apart.at, b") :effect (and");
    let deletes = put_run(text, at_effects, table, number, ADDITION, adds.to);
    let end = put_run(text, deletes.at, table, number, DELETION, deletes.to);
    let behind = put_bytes(text, end.at, b"))");
    Acted {
        at: behind,
        atom: end.to,
        pair: apart.to,
    }
}

// The actions of all schemas. Their atoms stand one schema behind another, and so do their pairs: those of each schema
// begin where those of the one before it end.
pub fn put_actions(text: &mut [u8], at: usize, table: &[u16]) -> Reached
    requires table_value { is_table table.now ≡ true }
    requires table_in_bounds { at + length (concat_map (action_in table.now) (up_to (head_in table.now).schemas)) ≤
        length text.old }
    ensures atom_value { result.to ≡ (head_in table.now).schema_atoms }
    ensures puts { Puts text.old at
        (concat_map (action_in table.now) (up_to (head_in table.now).schemas))
        text.new result.at }
{
    let schemas = word_at(table, SCHEMAS);
    let mut acted = Acted {
        at,
        atom: 0,
        pair: 0,
    };
    for s in 0..schemas {
        acted = put_action(text, acted.at, table, s, acted.atom, acted.pair);
    }
    Reached {
        at: acted.at,
        to: acted.atom,
    }
}

// The bytes that the parameters take.
fn parameters_size(params: usize) -> usize
    requires { params ≤ most_parameters }
    ensures { result ≡ length (neighbours (names_up_to parameter params)) }
{
    if params == 0 {
        return 0;
    }
    PARAMETER.len() * params + below_size(params) - 1
}

fn head_size(schema: u16, params: usize) -> usize
    requires { params ≤ most_parameters }
    ensures { result ≡ length (head_text schema params) }
{
    b" (:action a".len()
        + number_size(schema)
        + b" :parameters (".len()
        + parameters_size(params)
        + b") :precondition (and".len()
}

// The bytes that an action takes besides its atoms and its pairs.
fn frame_size(table: &[u16], schema: u16) -> usize
    requires table_value { is_table table.now ≡ true }
    requires schema_bound { schema < (head_in table.now).schemas }
    ensures { result ≡ length (frame_in table.now schema) }
{
    head_size(schema, params_of(table, wide(schema))) + b") :effect (and))".len()
}

pub fn frames_size(table: &[u16]) -> usize
    requires { is_table table.now ≡ true }
    ensures { result ≡
        length (concat_map (frame_in table.now) (up_to (head_in table.now).schemas)) }
{
    let schemas = word_at(table, SCHEMAS);
    (0..schemas).map(|s| frame_size(table, s)).sum()
}
