// "Each answer is either its result or a refusal with a number and a place": the refusals.
ghost use Rattle.std.specs.Prelude.{◌≡◌};
ghost use Rattle.task.specs.Answers.{reason_number};

use crate::Place;

// "What is turned back": a row of document 01's table, or of a note of document 02, with its number there.
#[derive(Clone, Copy, Debug, PartialEq, Eq)]
pub enum Reason {
    // "a lent table is shorter than 13,406 words", 14,007 since note 4
    ShortTable = 1,
    // "a table lent for reading is no such table"
    NotATable = 2,
    // "not a line the fixed order allows here; text missing (at the line lacking) or left over"
    OutOfForm = 3,
    // "a count or arity outside its limits"
    OutsideLimits = 4,
    // "predicate unknown, wrong number of arguments, argument too high"
    WrongAtom = 5,
    // "atom repeated, or not ascending"
    RepeatedAtom = 6,
    // "schema without atoms, or parameter in none"
    UnusedParameter = 7,
    // "wrong length, part 16 or more, a gap"
    WrongParts = 8,
    // "no order complies; lowest such schema"
    Circular = 9,
    // "the split task passes a table limit"
    SplitTooLarge = 10,
    // "the text is longer than the lent bytes"
    TextTooLong = 11,
    // "no step of this task, or an incomplete one"
    NotAStep = 12,
    // "the result is longer than the lent words"
    ListTooLong = 13,
    // "first step that fits no block; the step count if the last block is unfinished"
    Misfit = 14,
    // "not ascending records of this task's predicates and objects, or more than lent"
    NotAState = 15,
    // "a precondition is missing"
    MissingPrecondition = 16,
    // "the next state outgrows the lent records"
    StateTooLarge = 17,
    // "18, after 2, when the text is longer than the lent bytes": the text for planners that read PDDL
    PddlTooLong = 18,
    // "at a `differ` line that names a parameter too high, or whose pair or place doesn't ascend"
    WrongPair = 19,
    // "with the lowest such schema, when no part has both parameters of a pair"
    PairWithoutPart = 20,
    // "at the 201st such line": a `differ` line
    TooManyPairs = 21,
    // "for a width above 12 or a shorter scratch"
    NoWidth = 22,
    // "when a schema ends with more than 16 parts, with the first such schema"
    TooManyParts = 23,
    // "when either instance total is 2 to the power 63 or more"
    TooManyInstances = 24,
}

impl Reason {
    // Its number in the table of refusals.
    pub fn number(self) -> u32
        ensures { result ≡ reason_number self }
    {
        self as u32
    }
}

// A refusal: why, and where.
#[derive(Clone, Copy, Debug, PartialEq, Eq)]
pub struct Refusal {
    pub reason: Reason,
    pub place: Place,
}

impl Refusal {
    // One that has no place.
    pub fn nowhere(reason: Reason) -> Refusal
        ensures { result ≡ record { reason = reason; place = Place.Nowhere } }
    {
        Refusal {
            reason,
            place: Place::Nowhere,
        }
    }

    // One at a line of a text, the first being 1.
    pub fn at_line(reason: Reason, line: u64) -> Refusal
        ensures { result ≡ record { reason = reason; place = Place.Line line } }
    {
        Refusal {
            reason,
            place: Place::Line(line),
        }
    }

    // One at a schema, the first being 0.
    pub fn at_schema(reason: Reason, schema: u64) -> Refusal
        ensures { result ≡ record { reason = reason; place = Place.Schema schema } }
    {
        Refusal {
            reason,
            place: Place::Schema(schema),
        }
    }

    // One at a step, the first being 0.
    pub fn at_step(reason: Reason, step: u64) -> Refusal
        ensures { result ≡ record { reason = reason; place = Place.Step step } }
    {
        Refusal {
            reason,
            place: Place::Step(step),
        }
    }
}
