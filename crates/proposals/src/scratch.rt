// The lent scratch: first "one 64-bit word a part, a bit for each part it has an arc from", behind these a word a part
// with a bit for each of its parameters.
ghost use Rattle.std.specs.Prelude.{◌≤◌, ◌<◌, ◌≡◌, length};
ghost use Rattle.task.specs.Limits.{most_atoms};
ghost use Rattle.proposals.specs.Outcome.{cleared, scratch_words};
ghost use Rattle.proposals.specs.Scratch.{arcs_to, parameters_to};

use task::limits::MOST_ATOMS;

// "128 words of 64 bits": no schema has more than 64 atoms, so there are never more parts.
pub const SCRATCH_WORDS: usize = 2 * MOST_ATOMS;

// The parts that part q has an arc from.
pub fn arcs_to(scratch: &[u64], q: usize) -> u64
    requires scratch_words_in_bounds { scratch_words ≤ length scratch.now }
    requires q_lt_most_atoms { q < most_atoms }
    ensures { result ≡ arcs_to scratch.now q }
{
    scratch[q]
}

// The parameters of part q.
pub fn parameters_to(scratch: &[u64], q: usize) -> u64
    requires scratch_words_in_bounds { scratch_words ≤ length scratch.now }
    requires q_lt_most_atoms { q < most_atoms }
    ensures { result ≡ parameters_to scratch.now q }
{
    scratch[MOST_ATOMS + q]
}

// "again all 0 after a result or 23"
pub fn clear(scratch: &mut [u64])
    requires { scratch_words ≤ length scratch.old }
    ensures { scratch.new ≡ cleared scratch.old }
{
    scratch[..SCRATCH_WORDS].fill(0);
}
