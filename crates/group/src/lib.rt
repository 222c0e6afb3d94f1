// The group of a pass: the terms of one basis, and the steps of refining on them.
#![tactic(auto)]

pub mod collapse;
pub mod gather;
pub mod keys;
pub mod merge;
pub mod settle;
pub mod stages;
pub mod steps;

ghost use Rattle.std.specs.Prelude.{◌≡◌, ◌≤◌, length};
ghost use Rattle.base.specs.Limits.{group_entries};
ghost use Rattle.group.specs.Group.{used};

use base::limits;
use entries::Entry;

// A basis, by the bytes of its tree and their hash.
#[derive(Clone, Copy)]
pub struct Basis<'a> {
    pub bytes: &'a [u8],
    pub hash: u64,
}

// At most 256 entries, of which the first `len` are taken.
#[derive(Drop)]
pub struct Group {
    pub entries: [Entry; limits::GROUP_ENTRIES],
    pub len: usize,
}

impl Group {
    // The entries that are taken.
    pub fn used(&self) -> &[Entry]
        requires { self.now.len ≤ group_entries }
        ensures { (result.now ≡ used self.now) × (length result.now ≡ self.now.len) }
    {
        &self.entries[..self.len]
    }
}
