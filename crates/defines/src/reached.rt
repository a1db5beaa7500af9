// How far the writer of a run of atoms or of pairs is: the place behind what it put, and the first that it has not
// put.
#[derive(Clone, Copy)]
pub struct Reached {
    pub at: usize,
    pub to: usize,
}
