// Where a get finds its block: at a byte of the settled bytes, of the waiting ones or of work memory, or nowhere.
// Stays a case of four, not an Option of three: a refused get hands out a part of no bytes, at the front of the settled ones (`part_at`).
#[derive(Clone, Copy)]
pub enum Place {
    Settled(usize),
    Waiting(usize),
    Work(usize),
    Nowhere,
}
