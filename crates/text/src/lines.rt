// What each line of a task's text does to the draft, by what its body is.
pub mod atom;
pub mod differ;
pub mod head;
pub mod part;
