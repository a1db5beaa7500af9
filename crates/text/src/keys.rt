// "Each line is a key, =, a body and byte 10. Fixed order": which key stands at a cursor, and whether the order allows
// it. Keys come in such an order that those of a place follow one another, and a place is told by the first that it
// allows.
ghost use Rattle.std.specs.Prelude.{◌≡◌};
ghost use Rattle.text.specs.ReadCode.{Placed, KeyAt, OnceKeyAt, number_of, last_key, may_stand, role_place};
ghost use Rattle.text.specs.Holding.{role_of, kind_of};

use crate::cursor::Cursor;
use crate::draft::Kind;
use task::limits::{ADDITION, DELETION, PRECONDITION};

#[derive(Clone, Copy, Debug, PartialEq, Eq, PartialOrd, Ord)]
pub enum Key {
    Task,
    Objects,
    Arity,
    Differ,
    Pre,
    Add,
    Del,
    Part,
    Schema,
    Init,
    Goal,
    End,
}

impl Key {
    // "role (0 precondition, 1 add, 2 delete ..)": the key of a schema's atom of a role.
    pub fn of_role(role: u16) -> Key
        ensures { result ≡ role_place role }
    {
        if role == PRECONDITION {
            return Key::Pre;
        }
        if role == ADDITION {
            return Key::Add;
        }
        Key::Del
    }

    // The role of a schema's atom with this key: that of `del` for every key but two.
    pub fn role(self) -> u16
        ensures { result ≡ role_of self }
    {
        match self {
            Key::Pre => PRECONDITION,
            Key::Add => ADDITION,
            _ => DELETION,
        }
    }

    // The kind of ground atoms with this key: that of `goal` for every key but one.
    pub fn kind(self) -> Kind
        ensures { result ≡ kind_of self }
    {
        match self {
            Key::Init => Kind::Initial,
            _ => Kind::Goal,
        }
    }
}

// The key at a cursor, and the cursor at its body.
pub fn key_at(text: &[u8], from: Cursor) -> Option<(Key, Cursor)>
    requires { Placed text.now from }
    ensures { KeyAt text.now from result }
{
    if let Some(body) = from.word(text, b"pre=") {
        return Some((Key::Pre, body));
    }
    if let Some(body) = from.word(text, b"add=") {
        return Some((Key::Add, body));
    }
    if let Some(body) = from.word(text, b"del=") {
        return Some((Key::Del, body));
    }
    if let Some(body) = from.word(text, b"part=") {
        return Some((Key::Part, body));
    }
    if let Some(body) = from.word(text, b"schema=") {
        return Some((Key::Schema, body));
    }
    if let Some(body) = from.word(text, b"differ=") {
        return Some((Key::Differ, body));
    }
    if let Some(body) = from.word(text, b"init=") {
        return Some((Key::Init, body));
    }
    if let Some(body) = from.word(text, b"goal=") {
        return Some((Key::Goal, body));
    }
    head_key_at(text, from)
}

// The key of a line that stands once, at a cursor where no other key stands.
fn head_key_at(text: &[u8], from: Cursor) -> Option<(Key, Cursor)>
    requires { Placed text.now from }
    ensures { OnceKeyAt text.now from result }
{
    if let Some(body) = from.word(text, b"task=") {
        return Some((Key::Task, body));
    }
    if let Some(body) = from.word(text, b"objects=") {
        return Some((Key::Objects, body));
    }
    if let Some(body) = from.word(text, b"arity=") {
        return Some((Key::Arity, body));
    }
    if let Some(body) = from.word(text, b"end=") {
        return Some((Key::End, body));
    }
    None
}

// The last key that a place of the order allows.
fn last_key(phase: Key) -> Key
    ensures { number_of result ≡ last_key (number_of phase) }
{
    match phase {
        Key::Task | Key::Objects | Key::Arity => phase,
        Key::Differ | Key::Pre | Key::Add | Key::Del | Key::Part => Key::Part,
        Key::Schema | Key::Init | Key::Goal | Key::End => Key::End,
    }
}

// Whether the order allows a key at a place.
pub fn allowed(phase: Key, key: Key) -> bool
    ensures { result ≡ may_stand (number_of phase) (number_of key) }
{
    phase <= key && key <= last_key(phase)
}
