// The rule of arcs between two roles. It stands here alone: whatever depends on it asks this table.
ghost use Rattle.std.specs.Prelude.{ℕ, ◌<◌, ◌≡◌};
ghost use Rattle.words.specs.Lists.{any, up_to};
ghost use Rattle.words.specs.Sets.{member};
ghost use Rattle.task.specs.Task.{schema_roles};
ghost use Rattle.arcs.specs.Order.{role_before};
ghost use Rattle.arcs.specs.Stretches.{AreAfter};

use task::limits::SCHEMA_ROLES;
use words::sets::{union, with};

// "from precondition to add, precondition to delete, delete to add": first role by second, in the order precondition,
// add, delete.
const ROLE_BEFORE: [[bool; SCHEMA_ROLES]; SCHEMA_ROLES] = [
    [false, true, true],
    [false, false, false],
    [false, true, false],
];

// Whether an arc goes from role r to role q.
pub fn role_before(r: usize, q: usize) -> bool
    requires r_lt_schema_roles { r < schema_roles }
    requires q_lt_schema_roles { q < schema_roles }
    ensures { result ≡ role_before r q }
{
    ROLE_BEFORE[r][q]
}

// The roles that an arc goes to from role r.
pub fn roles_after(r: usize) -> u64
    requires { r < schema_roles }
    ensures { AreAfter r result }
{
    let mut after = 0;
    for q in 0..SCHEMA_ROLES {
        if role_before(r, q) {
            after = with(after, q);
        }
    }
    after
}

// The roles that an arc goes to from any.
pub fn roles_reached() -> u64
    ensures { (q : ℕ) → member result q ≡ any (λ r. role_before r q) (up_to schema_roles) }
{
    let mut reached = 0;
    for r in 0..SCHEMA_ROLES {
        reached = union(reached, roles_after(r));
    }
    reached
}
