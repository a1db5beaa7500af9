// Words in a row, as the objects of a record are, and the few zeros behind them: tests of each.
ghost use Rattle.std.specs.Prelude.{◌≡◌, ◌+◌, ◌≤◌, length, eqb, ltb};
ghost use Rattle.words.specs.Lists.{all};
ghost use Rattle.words.specs.Words.{words_at};

use crate::Object;

impl Object {
    // Object numbers count from 0, so a task of `count` objects has those below it.
    pub fn is_below(self, count: u16) -> bool
        ensures { result ≡ ltb self.0 count }
    {
        self.0 < count
    }
}

// Whether the n words from `from` on are each an object of a task with so many.
pub fn are_objects(words: &[u16], from: usize, n: usize, objects: u16) -> bool
    requires { from + n ≤ length words.now }
    ensures { result ≡ all (λ o. ltb o objects) (words_at words.now from n) }
{
    words[from..from + n]
        .iter()
        .all(|o| Object(*o).is_below(objects))
}

// Whether the n words from `from` on are each 0. They are few, so that the first that is not ends the test.
pub fn are_zero(words: &[u16], from: usize, n: usize) -> bool
    requires { from + n ≤ length words.now }
    ensures { result ≡ all (λ a. eqb a 0) (words_at words.now from n) }
{
    words[from..from + n].iter().all(|word| *word == 0)
}
