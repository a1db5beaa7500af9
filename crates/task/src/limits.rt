// The limits of document 01, 'Task table', each under the name that specs/Limits.antt gives it.
// "objects N (1 to 1000), predicates P (1 to 400), schemas (0 to 200), schema atoms (at most 1000), initial atoms (at
// most 500), goal atoms (at most 100)"
pub const MOST_OBJECTS: usize = 1000;

pub const MOST_PREDICATES: usize = 400;

pub const MOST_SCHEMAS: usize = 200;

pub const MOST_SCHEMA_ATOMS: usize = 1000;

pub const MOST_INITIAL: usize = 500;

pub const MOST_GOAL: usize = 100;

// "P arities (0 to 4), then each schema's parameter count (0 to 12)"
pub const MOST_ARITY: usize = 4;

pub const MOST_PARAMETERS: usize = 12;

// "A schema has 1 to 64 atoms .. It has 1 to 16 parts"
pub const MOST_ATOMS: usize = 64;

pub const MOST_PARTS: usize = 16;

// Pairs of parameters that must differ (document 02, note 4): "at most 200", of all schemas together.
pub const MOST_PAIRS: usize = 200;

// "a table then takes 14,007 words", of which seven counts stand first, each pair takes three and each atom eight
pub const TABLE_WORDS: usize = 14007;

pub const HEAD_WORDS: usize = 7;

pub const PAIR_SIZE: usize = 3;

pub const ATOM_SIZE: usize = 8;

// "A step is 13 words", a state is kept as "5-word records"
pub const STEP_SIZE: usize = 13;

pub const RECORD_SIZE: usize = 5;

// "role (0 precondition, 1 add, 2 delete, 3 initial, 4 goal)"
pub const PRECONDITION: u16 = 0;

pub const ADDITION: u16 = 1;

pub const DELETION: u16 = 2;

pub const INITIAL: u16 = 3;

pub const GOAL: u16 = 4;

// The first three are those of a schema's atoms.
pub const SCHEMA_ROLES: usize = 3;

// The places of the seven counts.
pub const OBJECTS: usize = 0;

pub const PREDICATES: usize = 1;

pub const SCHEMAS: usize = 2;

pub const SCHEMA_ATOMS: usize = 3;

pub const INITIAL_ATOMS: usize = 4;

pub const GOAL_ATOMS: usize = 5;

pub const PAIRS: usize = 6;

// "three words per pair (schema, lower, higher)": the places of a pair's words in its row, the schema's being the
// first.
pub const LOWER: usize = 1;

pub const HIGHER: usize = 2;

// "8 words each: schema, role .., predicate, part, four arguments": the places of an atom's words in its row, the
// schema's being the first.
pub const ROLE: usize = 1;

pub const PREDICATE: usize = 2;

pub const PART: usize = 3;

pub const ARGUMENTS: usize = 4;
