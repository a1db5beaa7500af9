// What is read so far of a task: where the fixed order stands, and how much there is of each kind. The words themselves
// stand in the table: the arities and the parameter counts at their places, the pairs behind room for 200 schemas, the
// atoms behind room for 200 pairs.
ghost use Rattle.std.specs.Prelude.{◌≡◌};
ghost use Rattle.text.specs.Holding.{Few, no_counts, pair_at, first_row, row_at, so_far, one_fact_more};

use crate::cursor::Cursor;
use crate::keys::Key;
use task::limits;

#[derive(Clone, Copy, Debug, PartialEq, Eq)]
pub struct Counts {
    pub phase: Key,
    pub objects: u16,
    pub predicates: usize,
    pub schemas: usize,
    // of the schema that is being read
    pub params: u16,
    // the atoms of whole schemas, and those of the schema that is being read
    pub closed: usize,
    pub atoms: usize,
    pub initial: usize,
    pub goal: usize,
    // the pairs of whole schemas, and those of the schema that is being read
    pub pairs: usize,
    pub apart: usize,
}

// The ground atoms are of two kinds, one a key: `init` and `goal`.
#[derive(Clone, Copy, Debug, PartialEq, Eq)]
pub enum Kind {
    Initial,
    Goal,
}

// The ground atoms of a kind: their role, how many are read, and the most there may be.
#[derive(Clone, Copy, Debug, PartialEq, Eq)]
pub struct Facts {
    pub role: u32,
    pub read: usize,
    pub most: usize,
}

// What a line does that is not refused: reading goes on at the next line, or has come to its end.
#[derive(Clone, Copy, Debug, PartialEq, Eq)]
pub enum Turn {
    GoOn(Counts, Cursor),
    Finish(Cursor),
}

// Pairs stand behind the seven counts, the arities, and room for the parameter counts of all schemas that may come;
// rows behind room for all pairs that may.
pub const PAIRS_AT: usize = limits::HEAD_WORDS + limits::MOST_SCHEMAS;

pub const ROWS_AT: usize = PAIRS_AT + limits::PAIR_SIZE * limits::MOST_PAIRS;

impl Counts {
    // Nothing is read yet.
    pub fn start() -> Counts
        ensures { result ≡ no_counts }
    {
        Counts {
            phase: Key::Task,
            objects: 0,
            predicates: 0,
            schemas: 0,
            params: 0,
            closed: 0,
            atoms: 0,
            initial: 0,
            goal: 0,
            pairs: 0,
            apart: 0,
        }
    }

    // Where the next pair comes.
    pub fn next_pair(self) -> usize
        requires { Few self }
        ensures { result ≡ pair_at self }
    {
        PAIRS_AT + self.predicates + limits::PAIR_SIZE * (self.pairs + self.apart)
    }

    // Where the next atom's row comes.
    pub fn next_row(self) -> usize
        requires { Few self }
        ensures { result ≡ row_at self }
    {
        ROWS_AT
            + self.predicates
            + limits::ATOM_SIZE * (self.closed + self.atoms + self.initial + self.goal)
    }

    // Where the rows of the schema that is being read begin.
    pub fn first_row(self) -> usize
        requires { Few self }
        ensures { result ≡ first_row self }
    {
        ROWS_AT + self.predicates + limits::ATOM_SIZE * self.closed
    }

    // "role (.. 3 initial, 4 goal)", "initial atoms (at most 500), goal atoms (at most 100)".
    pub fn facts(self, kind: Kind) -> Facts
        ensures { result ≡ so_far self kind }
    {
        match kind {
            Kind::Initial => Facts {
                role: limits::INITIAL as u32,
                read: self.initial,
                most: limits::MOST_INITIAL,
            },
            Kind::Goal => Facts {
                role: limits::GOAL as u32,
                read: self.goal,
                most: limits::MOST_GOAL,
            },
        }
    }

    // The counts behind a ground atom of a kind.
    pub fn one_fact_more(self, kind: Kind) -> Counts
        requires { Few self }
        ensures { result ≡ one_fact_more self kind }
    {
        match kind {
            Kind::Initial => Counts {
                phase: Key::Init,
                initial: self.initial + 1,
                ..self
            },
            Kind::Goal => Counts {
                phase: Key::Goal,
                goal: self.goal + 1,
                ..self
            },
        }
    }
}
