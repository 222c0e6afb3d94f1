// An entry of a group, and tests on the entries of a group.
#![tactic(auto)]

pub mod pair;
pub mod single;
pub mod stages;

// What became of an entry: nothing yet; joined to another or dropped; widened to the full mask by
// recovering; rewritten as Xor by it.
#[derive(Clone, Copy, PartialEq, Eq)]
pub enum Mark {
    Live,
    Consumed,
    Widened,
    Rewritten,
}

// A term of a group: its coefficient, its mask, the number of its atom, and its mark.
#[derive(Clone, Copy)]
pub struct Entry {
    pub coeff: u64,
    pub mask: u64,
    pub atom: u64,
    pub mark: Mark,
}

impl Entry {
    // What stands where no entry was put.
    pub const BLANK: Entry = Entry {
        coeff: 0,
        mask: 0,
        atom: 0,
        mark: Mark::Live,
    };
}
