// "Each schema starts with every atom in its own part, numbered in file order": the arcs between these parts, their
// parameters and their numbers. Here a schema's atoms have the numbers of these parts, the first is 0.
ghost use Rattle.std.specs.Prelude.{ℕ, ◌+◌, ◌-◌, ◌≤◌, ◌<◌, ◌≡◌, true, false, not, ◌&&◌, List, length, get_or, eqb, ltb};
ghost use Rattle.words.specs.Lists.{put, up_to};
ghost use Rattle.words.specs.Sets.{SetBelow, member};
ghost use Rattle.task.specs.Limits.{most_atoms, most_schema_atoms};
ghost use Rattle.task.specs.Task.{Pair, names, schema_roles};
ghost use Rattle.task.specs.Table.{atom_in};
ghost use Rattle.arcs.specs.Order.{gives_arc, hold_pair, role_before};
ghost use Rattle.arcs.specs.Stretches.{ArePartners, IsPairStretch, IsStretch, Pairing, pair_stretch_in};
ghost use Rattle.proposals.specs.Outcome.{scratch_words};
ghost use Rattle.proposals.specs.Scratch.{KeepsArcs, KeepsBehind, arcs_in, arcs_to, parameters_to};

use crate::Parts;
use crate::sets::those;
use arcs::PartnerSets;
use arcs::atoms::{hold_pair, parameters_of, role_of};
use arcs::pairs::partners_of;
use arcs::rule::role_before;
use std::array;
use task::layout::predicate;
use task::limits::{MOST_ATOMS, SCHEMA_ROLES};
use words::sets::{common, held, lowest, minus, up_to, without_lowest};

// For each role the atoms whose role comes before it.
type RoleSets = [u64; SCHEMA_ROLES];

// The atoms of a stretch whose role comes before this one.
fn before_role(table: &[u16], from: usize, to: usize, role: usize) -> u64
    requires stretch { IsStretch table.now from to }
    requires from_bound { to - from ≤ most_atoms }
    requires role_lt_schema_roles { role < schema_roles }
    ensures { (p : ℕ) → member result p ≡
        ltb p (to - from) && role_before (atom_in table.now (from + p)).role role }
{
    those(
        up_to(to - from),
        |p| role_before(role_of(table, from + p), role),
    )
}

// The same for each role.
fn before_roles(table: &[u16], from: usize, to: usize) -> RoleSets
    requires stretch { IsStretch table.now from to }
    requires from_bound { to - from ≤ most_atoms }
    ensures result_len { length result ≡ schema_roles }
    ensures by_index { (role p : ℕ) → role < schema_roles → member (get_or result role 0) p ≡
        ltb p (to - from) && role_before (atom_in table.now (from + p)).role role }
{
    array::from_fn(|role| before_role(table, from, to, role))
}

// Of a set of atoms those with the predicate of atom q.
fn of_predicate(table: &[u16], from: usize, to: usize, set: u64, q: usize) -> u64
    requires stretch { IsStretch table.now from to }
    requires from_bound { (to - from ≤ most_atoms) × (q < to - from) }
    requires set_below { SetBelow (to - from) set }
    ensures { (p : ℕ) → member result p ≡ member set p &&
        eqb (atom_in table.now (from + p)).pred (atom_in table.now (from + q)).pred }
{
    let named = predicate(table, from + q);
    those(set, |p| predicate(table, from + p) == named)
}

// Of a set of atoms with the predicate of atom q those that hold no declared pair with it.
fn holding_none(
    table: &[u16],
    from: usize,
    to: usize,
    set: u64,
    q: usize,
    partners: &PartnerSets,
) -> u64
    requires stretch { IsStretch table.now from to }
    requires from_bound { (to - from ≤ most_atoms) × (q < to - from) }
    requires set_below { SetBelow (to - from) set }
    requires by_index { (p : ℕ) → member set p ≡ true →
        (atom_in table.now (from + p)).pred ≡ (atom_in table.now (from + q)).pred }
    ensures { (pairs : List Pair) → ArePartners pairs partners.now → (p : ℕ) →
        member result p ≡ member set p && not (hold_pair pairs (atom_in table.now (from + p)).args
        (atom_in table.now (from + q)).args) }
{
    those(set, |p| !hold_pair(table, from + p, from + q, partners))
}

// Of a set of atoms with the predicate of atom q those that give an arc to it.
fn arcs_among(
    table: &[u16],
    from: usize,
    to: usize,
    alike: u64,
    q: usize,
    before: &RoleSets,
    paired: bool,
    partners: &PartnerSets,
) -> u64
    requires stretch { IsStretch table.now from to }
    requires from_bound { (to - from ≤ most_atoms) × (q < to - from) }
    requires set_below { SetBelow (to - from) alike }
    requires by_index { (p : ℕ) → member alike p ≡ true →
        (atom_in table.now (from + p)).pred ≡ (atom_in table.now (from + q)).pred }
    requires before_len { length before.now ≡ schema_roles }
    requires by_index_2 { (role p : ℕ) → role < schema_roles → member (get_or before.now role 0) p ≡
        ltb p (to - from) && role_before (atom_in table.now (from + p)).role role }
    ensures { (pairs : List Pair) → Pairing pairs paired partners.now → (p : ℕ) →
        member result p ≡ member alike p &&
        gives_arc pairs (atom_in table.now (from + p)) (atom_in table.now (from + q)) }
{
    let set = common(alike, before[role_of(table, from + q)]);
    if paired {
        return holding_none(table, from, to, set, q, partners);
    }
    set
}

// The arcs between the atoms of a set, all of one predicate.
fn put_among(
    table: &[u16],
    from: usize,
    to: usize,
    alike: u64,
    before: &RoleSets,
    paired: bool,
    partners: &PartnerSets,
    scratch: &mut [u64],
)
    requires stretch { IsStretch table.now from to }
    requires from_bound { to - from ≤ most_atoms }
    requires set_below { SetBelow (to - from) alike }
    requires by_index { (p q : ℕ) → member alike p ≡ true → member alike q ≡ true →
        (atom_in table.now (from + p)).pred ≡ (atom_in table.now (from + q)).pred }
    requires before_len { length before.now ≡ schema_roles }
    requires by_index_2 { (role p : ℕ) → role < schema_roles → member (get_or before.now role 0) p ≡
        ltb p (to - from) && role_before (atom_in table.now (from + p)).role role }
    requires scratch_words_in_bounds { scratch_words ≤ length scratch.old }
    ensures keeps_behind { KeepsBehind scratch.old scratch.new }
    ensures by_index_3 { (q : ℕ) → member alike q ≡ false →
        arcs_to scratch.new q ≡ arcs_to scratch.old q }
    ensures q_after { (pairs : List Pair) → Pairing pairs paired partners.now → (p q : ℕ) →
        member alike q ≡ true → arcs_in scratch.new p q ≡ member alike p &&
        gives_arc pairs (atom_in table.now (from + p)) (atom_in table.now (from + q)) }
{
    let mut rest = alike;
    while rest != 0 {
        let q = lowest(rest);
        rest = without_lowest(rest);
        scratch[q] = arcs_among(table, from, to, alike, q, before, paired, partners);
    }
}

// The arcs between the atoms of a stretch, predicate by predicate. The pairs are pairs `pair` to `end - 1` of the
// table.
pub fn put_arcs(table: &[u16], from: usize, to: usize, pair: usize, end: usize, scratch: &mut [u64])
    requires stretch { IsStretch table.now from to }
    requires pair_stretch { IsPairStretch table.now pair end }
    requires from_bound { to - from ≤ most_atoms }
    requires scratch_words_in_bounds { scratch_words ≤ length scratch.old }
    ensures keeps_behind { KeepsBehind scratch.old scratch.new }
    ensures by_index { (p q : ℕ) → p < to - from → q < to - from →
        arcs_in scratch.new p q ≡
        gives_arc (pair_stretch_in table.now pair end) (atom_in table.now (from + p))
        (atom_in table.now (from + q)) }
{
    let paired = pair < end;
    let partners = partners_of(table, pair, end);
    let before = before_roles(table, from, to);
    let mut rest = up_to(to - from);
    while rest != 0 {
        let alike = of_predicate(table, from, to, rest, lowest(rest));
        put_among(table, from, to, alike, &before, paired, &partners, scratch);
        rest = minus(rest, alike);
    }
}

// The parameters of each atom of a stretch.
pub fn put_parameters(table: &[u16], from: usize, to: usize, scratch: &mut [u64])
    requires stretch { IsStretch table.now from to }
    requires from_bound { to - from ≤ most_atoms }
    requires scratch_words_in_bounds { scratch_words ≤ length scratch.old }
    ensures keeps_behind { KeepsBehind scratch.old scratch.new }
    ensures keeps_arcs { KeepsArcs scratch.old scratch.new }
    ensures by_index { (p x : ℕ) → p < to - from →
        member (parameters_to scratch.new p) x ≡ names x (atom_in table.now (from + p)) }
{
    for i in from..to {
        scratch[MOST_ATOMS + (i - from)] = held(parameters_of(table, i));
    }
}

// The numbers of the parts of atoms `from` to `to - 1`.
pub fn number(parts: &mut Parts, from: usize, to: usize)
    requires from_le_to { (from ≤ to) × (to ≤ most_schema_atoms) × (to - from ≤ most_atoms) }
    requires parts_len { length parts.old ≡ most_schema_atoms }
    ensures { parts.new ≡ put parts.old from (up_to (to - from)) }
{
    for i in from..to {
        parts[i] = (i - from) as u16;
    }
}
