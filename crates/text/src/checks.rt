// Tests of the numbers that a line's list has.
ghost use Rattle.std.specs.Prelude.{◌≡◌, true, ltb};
ghost use Rattle.words.specs.Lists.{all};
ghost use Rattle.text.specs.ReadCode.{one_above, no_gap_in};
ghost use Rattle.task.specs.Limits.{most_parts};

// Whether each number is below a bound.
pub fn all_below(list: &[u32], bound: u32) -> bool
    ensures { result ≡ all (λ a. ltb a bound) list.now }
{
    list.iter().all(|number| *number < bound)
}

// One more than the highest number, 0 for none.
fn one_above(list: &[u32]) -> u32
    requires { all (λ a. ltb a most_parts) list.now ≡ true }
    ensures { result ≡ one_above list.now }
{
    let mut above = 0;
    for number in list {
        above = above.max(number + 1);
    }
    above
}

// "numbered without a gap": each number below the highest stands among them.
pub fn without_gap(list: &[u32]) -> bool
    requires { all (λ a. ltb a most_parts) list.now ≡ true }
    ensures { result ≡ no_gap_in list.now }
{
    (0..one_above(list)).all(|part| list.contains(&part))
}
