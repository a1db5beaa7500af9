// The writer of both defines: the size is counted first, since refusal 18 leaves all as found; then each byte is stored
// once, in one pass over the table.
ghost use Rattle.std.specs.Prelude.{◌≡◌, true, [], ◌∷◌, ◌++◌, ◌+◌, ◌≤◌, ◌<◌, length, leb};
ghost use Rattle.words.specs.Lists.{up_to, concat_map};
ghost use Rattle.words.specs.Putting.{Puts};
ghost use Rattle.task.specs.Layout.{head_in};
ghost use Rattle.task.specs.Table.{task_of, is_table};
ghost use Rattle.text.specs.Lines.{bytes, newline};
ghost use Rattle.defines.specs.Pddl.{domain_text, problem_text, pddl};
ghost use Rattle.defines.specs.ByWords.{marked, formula, predicate_in};

use crate::LONGEST_PDDL;
use crate::actions::{frames_size, put_actions};
use crate::atoms::{items_size, put_run};
use crate::names::{OBJECT, PARAMETER, below_size, put_numbered};
use crate::pairs::{needs_size, pairs_size, put_needs};
use crate::reached::Reached;
use task::layout::arity_of;
use task::limits::{GOAL, INITIAL, OBJECTS, PREDICATES};
use text::put::{number_size, put_byte, put_bytes, put_number};
use words::runs::{wide, word, word_at};

// "`(p0 ?x0)`": a predicate with as many parameters as its arity says.
fn put_predicate(text: &mut [u8], at: usize, p: u16, arity: u16) -> usize
    requires { at + length (formula (bytes " ?x") p (up_to arity)) ≤ length text.old }
    ensures { Puts text.old at (formula (bytes " ?x") p (up_to arity)) text.new result }
{
    let at_number = put_bytes(text, at, b" (p");
    let at_parameters = put_number(text, at_number, p);
    let at_end = put_numbered(text, at_parameters, &PARAMETER, 0, arity);
    put_byte(text, at_end, b')')
}

fn put_predicates(text: &mut [u8], at: usize, table: &[u16]) -> usize
    requires table_value { is_table table.now ≡ true }
    requires table_in_bounds { at + length (concat_map (predicate_in table.now) (up_to (head_in table.now).predicates)) ≤
        length text.old }
    ensures { Puts text.old at
        (concat_map (predicate_in table.now) (up_to (head_in table.now).predicates))
        text.new result }
{
    let predicates = word_at(table, PREDICATES);
    let mut next = at;
    for p in 0..predicates {
        next = put_predicate(text, next, p, arity_of(table, wide(p)) as u16);
    }
    next
}

// "`(define (domain d) (:predicates (p0 ?x0) ..) (:action ..) ..)`", and byte 10; what pairs require stands before the
// predicates.
fn put_domain(text: &mut [u8], table: &[u16]) -> Reached
    requires table_value { is_table table.now ≡ true }
    requires newline_in_bounds { length (domain_text (task_of table.now) ++ (newline ∷ [])) ≤ length text.old }
    ensures atom_value { result.to ≡ (head_in table.now).schema_atoms }
    ensures puts { Puts text.old 0 (domain_text (task_of table.now) ++ (newline ∷ []))
        text.new result.at }
{
    let at_needs = put_bytes(text, 0, b"(define (domain d)");
    let at_key = put_needs(text, at_needs, table);
    let at_predicates = put_bytes(text, at_key, b" (:predicates");
    let at_bracket = put_predicates(text, at_predicates, table);
    let at_actions = put_byte(text, at_bracket, b')');
    let facts = put_actions(text, at_actions, table);
    let behind = put_bytes(text, facts.at, b")\n");
    Reached {
        at: behind,
        to: facts.to,
    }
}

// "`(define (problem q) (:domain d) (:objects o0 ..) (:init ..) (:goal (and ..)))`", and byte 10. The initial atoms
// begin at `from`, and the goal's stand behind them.
fn put_problem(text: &mut [u8], at: usize, table: &[u16], from: usize) -> usize
    requires table_value { is_table table.now ≡ true }
    requires from_value { from ≡ (head_in table.now).schema_atoms }
    requires newline_in_bounds { at + length (problem_text (task_of table.now) ++ (newline ∷ [])) ≤ length text.old }
    ensures { Puts text.old at (problem_text (task_of table.now) ++ (newline ∷ []))
        text.new result }
{
    let objects = word_at(table, OBJECTS);
    let at_objects = put_bytes(text, at, b"(define (problem q) (:domain d) (:objects");
    let at_initial = put_numbered(text, at_objects, &OBJECT, 0, objects);
    let at_first = put_bytes(text, at_initial, b") (:init");
    let goals = put_run(text, at_first, table, 0, INITIAL, from);
    let at_goals = put_bytes(text, goals.at, b") (:goal (and");
    let end = put_run(text, at_goals, table, 0, GOAL, goals.to);
    put_bytes(text, end.at, b")))\n")
}

pub fn put_pddl(text: &mut [u8], table: &[u16]) -> usize
    requires table_value { is_table table.now ≡ true }
    requires table_in_bounds { length (pddl (task_of table.now)) ≤ length text.old }
    ensures { Puts text.old 0 (pddl (task_of table.now)) text.new result }
{
    let problem = put_domain(text, table);
    put_problem(text, problem.at, table, problem.to)
}

// The bytes that a predicate takes.
fn predicate_size(table: &[u16], p: u16) -> usize
    requires table_value { is_table table.now ≡ true }
    requires p_bound { p < (head_in table.now).predicates }
    ensures { result ≡ length (predicate_in table.now p) }
{
    let arity = arity_of(table, wide(p));
    b" (p".len() + number_size(p) + PARAMETER.len() * arity + below_size(arity) + 1
}

fn predicates_size(table: &[u16]) -> usize
    requires { is_table table.now ≡ true }
    ensures { result ≡
        length (concat_map (predicate_in table.now) (up_to (head_in table.now).predicates)) }
{
    let predicates = word_at(table, PREDICATES);
    (0..predicates).map(|p| predicate_size(table, p)).sum()
}

// The bytes that objects take.
fn objects_size(table: &[u16]) -> usize
    requires { is_table table.now ≡ true }
    ensures { result ≡ length (marked (bytes " o") (up_to (head_in table.now).objects)) }
{
    let objects = word(table, OBJECTS);
    OBJECT.len() * objects + below_size(objects)
}

fn pddl_size(table: &[u16]) -> usize
    requires { is_table table.now ≡ true }
    ensures { result ≡ length (pddl (task_of table.now)) }
{
    let fixed = b"(define (domain d) (:predicates".len()
        + b"))\n".len()
        + b"(define (problem q) (:domain d) (:objects".len()
        + b") (:init".len()
        + b") (:goal (and".len()
        + b")))\n".len();
    fixed
        + predicates_size(table)
        + frames_size(table)
        + objects_size(table)
        + items_size(table)
        + needs_size(table)
        + pairs_size(table)
}

// Whether the text of a table's task is no longer than the lent bytes. No count is needed for bytes that hold any text.
pub fn has_room(table: &[u16], bytes: usize) -> bool
    requires { is_table table.now ≡ true }
    ensures { result ≡ leb (length (pddl (task_of table.now))) bytes }
{
    if LONGEST_PDDL <= bytes {
        return true;
    }
    pddl_size(table) <= bytes
}
