// The arcs between the parts of a stretch of atoms: for each part, the set of parts that have an arc to it.
ghost use Rattle.std.specs.Prelude.{◌≤◌, ◌<◌, ◌≡◌, List, [], ◌∷◌, length};
ghost use Rattle.task.specs.Limits.{most_parts};
ghost use Rattle.task.specs.Task.{Pair, schema_roles};
ghost use Rattle.task.specs.Table.{atom_in};
ghost use Rattle.arcs.specs.Stretches.{AreAfter, AreArcs, IsPairStretch, IsReach, IsSchemaAtom, IsStretch};
ghost use Rattle.arcs.specs.Stretches.{Joins, NoneOf, Pairing, stretch_in, pair_stretch_in, arcs_between};

use crate::atoms::{gives_arc, has_role, part_of, role_of};
use crate::pairs::partners_of;
use crate::rule::{roles_after, roles_reached};
use crate::{PartSets, PartnerSets};
use task::limits::{ADDITION, DELETION, MOST_PARTS, PRECONDITION};
use words::sets::with;

// What atoms of a role have arcs to in a stretch: the roles after it, and an end from which on no atom has one of them.
#[derive(Clone, Copy)]
struct Reach {
    after: u64,
    end: usize,
}

// The arc from atom i to atom j joins the sets, if there is one. "Arcs inside a part don't count".
fn add_arc(
    table: &[u16],
    i: usize,
    j: usize,
    after: u64,
    paired: bool,
    partners: &PartnerSets,
    before: &mut PartSets,
)
    requires schema_atom { IsSchemaAtom table.now i }
    requires schema_atom_2 { IsSchemaAtom table.now j }
    requires are_after { AreAfter (atom_in table.now i).role after }
    requires before_len { length before.old ≡ most_parts }
    ensures before_len_2 { length before.new ≡ most_parts }
    ensures joins { (pairs : List Pair) → Pairing pairs paired partners.now →
        Joins (arcs_between pairs (atom_in table.now i ∷ []) (atom_in table.now j ∷ []))
        before.old before.new }
{
    if !gives_arc(table, i, j, after, paired, partners) {
        return;
    }
    let p = usize::from(part_of(table, i).0);
    let q = usize::from(part_of(table, j).0);
    if p != q {
        before[q] = with(before[q], p);
    }
}

// Where the atoms end that a stretch begins with and whose roles are not among these.
fn first_of(table: &[u16], roles: u64, from: usize, to: usize) -> usize
    requires { IsStretch table.now from to }
    ensures { (from ≤ result) × (result ≤ to) × NoneOf table.now roles from result }
{
    (from..to)
        .find(|i| has_role(table, *i, roles))
        .unwrap_or(to)
}

// Where the atoms begin that a stretch ends with and whose roles are not among these.
fn end_of(table: &[u16], roles: u64, from: usize, to: usize) -> usize
    requires { IsStretch table.now from to }
    ensures { (from ≤ result) × (result ≤ to) × NoneOf table.now roles result to }
{
    for i in (from..to).rev() {
        if has_role(table, i, roles) {
            return i + 1;
        }
    }
    from
}

// The reach of role r.
fn reach_of(table: &[u16], r: usize, from: usize, to: usize) -> Reach
    requires r_lt_schema_roles { r < schema_roles }
    requires stretch { IsStretch table.now from to }
    ensures { IsReach table.now r from to result }
{
    let after = roles_after(r);
    Reach {
        after,
        end: end_of(table, after, from, to),
    }
}

// The arcs from atom i to the atoms of a stretch join the sets.
fn add_from(
    table: &[u16],
    i: usize,
    from: usize,
    to: usize,
    after: u64,
    paired: bool,
    partners: &PartnerSets,
    before: &mut PartSets,
)
    requires schema_atom { IsSchemaAtom table.now i }
    requires stretch { IsStretch table.now from to }
    requires are_after { AreAfter (atom_in table.now i).role after }
    requires before_len { length before.old ≡ most_parts }
    ensures before_len_2 { length before.new ≡ most_parts }
    ensures joins { (pairs : List Pair) → Pairing pairs paired partners.now →
        Joins (arcs_between pairs (atom_in table.now i ∷ []) (stretch_in table.now from to))
        before.old before.new }
{
    for j in from..to {
        add_arc(table, i, j, after, paired, partners, before);
    }
}

// For each part the set of parts that have an arc to it; the pairs are pairs `pair` to `end - 1` of the table. What no
// arc goes to is not tried: the atoms that the stretch begins with and no role comes before, and those that it ends
// with and an atom's own role doesn't come before.
pub fn arcs_of(table: &[u16], from: usize, to: usize, pair: usize, end: usize) -> PartSets
    requires stretch { IsStretch table.now from to }
    requires pair_stretch { IsPairStretch table.now pair end }
    ensures { AreArcs (pair_stretch_in table.now pair end) (stretch_in table.now from to)
        result }
{
    let paired = pair < end;
    let partners = partners_of(table, pair, end);
    let first = first_of(table, roles_reached(), from, to);
    let reaches = [
        reach_of(table, PRECONDITION as usize, first, to),
        reach_of(table, ADDITION as usize, first, to),
        reach_of(table, DELETION as usize, first, to),
    ];
    let mut before = [0; MOST_PARTS];
    for i in from..to {
        let reach = reaches[role_of(table, i)];
        add_from(
            table,
            i,
            first,
            reach.end,
            reach.after,
            paired,
            &partners,
            &mut before,
        );
    }
    before
}
