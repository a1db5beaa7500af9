// The ground instances of a task and of its split, "a schema with n parameters counting objects to the power n". No
// number passes the limit: what reaches it stays there, and that is seen before a product or a sum is made.
ghost use Rattle.std.specs.Prelude.{◌+◌, ◌-◌, ◌*◌, ◌/◌, ◌≤◌, ◌≡◌, true};
ghost use Rattle.task.specs.Table.{task_of, is_table};
ghost use Rattle.tokens.specs.Split.{split_task};
ghost use Rattle.tokens.specs.Kept.{SchemaKept};
ghost use Rattle.tokens.specs.Acceptance.{AcceptedParts, part_schemas};
ghost use Rattle.forecast.specs.Forecast.{instances, instance_limit, instances_of};
ghost use Rattle.forecast.specs.Capped.{capped, ArePowers};

use task::layout::params_of;
use task::limits::{MOST_PARAMETERS, SCHEMAS};
use tokens::kept::{Kept, count_of, own_at};
use words::runs::word;
use words::sets::size;

// "2 to the power 63".
pub const INSTANCE_LIMIT: u64 = 1 << 63;

// Objects to the power of each number of parameters.
pub type Powers = [u64; MOST_PARAMETERS + 1];

// A product with objects, of which `most` is the largest factor that stays below the limit.
fn times(x: u64, objects: u64, most: u64) -> u64
    requires le_objects { 1 ≤ objects }
    requires most_value { most ≡ (instance_limit - 1) / objects }
    ensures { result ≡ capped instance_limit (x * objects) }
{
    if most < x {
        return INSTANCE_LIMIT;
    }
    x * objects
}

// A sum.
fn plus(x: u64, y: u64) -> u64
    ensures { result ≡ capped instance_limit (x + y) }
{
    if INSTANCE_LIMIT.saturating_sub(y) <= x {
        INSTANCE_LIMIT
    } else {
        x + y
    }
}

// Keeps the powers of the number of objects.
pub fn keep_powers(objects: u64, powers: &mut Powers)
    requires { 1 ≤ objects }
    ensures { ArePowers instance_limit objects powers.new }
{
    let most = (INSTANCE_LIMIT - 1) / objects;
    powers[0] = 1;
    for n in 0..MOST_PARAMETERS {
        powers[n + 1] = times(powers[n], objects, most);
    }
}

// The instances of a table's task.
pub fn instances_before(table: &[u16], powers: &Powers) -> u64
    requires table_value { is_table table.now ≡ true }
    requires are_powers { ArePowers instance_limit (task_of table.now).objects powers.now }
    ensures { result ≡ capped instance_limit (instances (task_of table.now)) }
{
    (0..word(table, SCHEMAS))
        .map(|s| powers[params_of(table, s)])
        .fold(0, plus)
}

// Those of the parts of schema s: a part has as many parameters as its set has members.
fn parts_instances(table: &[u16], kept: &Kept, s: usize, powers: &Powers) -> u64
    requires schema_kept { SchemaKept table.now s kept.now }
    requires are_powers { ArePowers instance_limit (task_of table.now).objects powers.now }
    ensures { result ≡ capped instance_limit
        (instances_of (task_of table.now).objects (part_schemas (task_of table.now) s)) }
{
    (0..count_of(kept, s))
        .map(|j| powers[size(own_at(kept, s, j))])
        .fold(0, plus)
}

// The instances of its split.
pub fn instances_after(table: &[u16], kept: &Kept, powers: &Powers) -> u64
    requires accepted_parts { AcceptedParts table.now kept.now }
    requires are_powers { ArePowers instance_limit (task_of table.now).objects powers.now }
    ensures { result ≡ capped instance_limit (instances (split_task (task_of table.now))) }
{
    let parts = |s| parts_instances(table, kept, s, powers);
    (0..word(table, SCHEMAS)).map(parts).fold(0, plus)
}
