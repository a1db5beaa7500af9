// The pairs of parameters that must differ: for each parameter, the set of those that it is a declared pair with.
ghost use Rattle.arcs.specs.Stretches.{ArePartners, IsPairStretch, pair_stretch_in};

use crate::PartnerSets;
use task::layout::{higher, lower};
use task::limits::MOST_PARAMETERS;
use words::sets::with;

// The partners of each parameter, by pairs `from` to `to - 1` of the table.
pub fn partners_of(table: &[u16], from: usize, to: usize) -> PartnerSets
    requires { IsPairStretch table.now from to }
    ensures { ArePartners (pair_stretch_in table.now from to) result }
{
    let mut partners = [0; MOST_PARAMETERS];
    for i in from..to {
        let x = lower(table, i);
        let y = higher(table, i);
        partners[y] = with(partners[y], x);
        partners[x] = with(partners[x], y);
    }
    partners
}
