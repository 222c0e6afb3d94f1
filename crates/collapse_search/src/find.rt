// The three entries of a collapse.
ghost use Rattle.std.specs.Prelude.{◌<◌, ◌≤◌, length};
ghost use Rattle.collapse_search.specs.Links.{lent, FoundTwo, FoundThree};
ghost use Rattle.base.specs.Limits.{group_entries};

use crate::links;
use base::limits;
use entries::Entry;

// The second and the third entry of a collapse.
#[derive(Drop)]
pub struct Two {
    pub second: usize,
    pub third: usize,
}

// The three entries of a collapse.
#[derive(Drop)]
pub struct Three {
    pub first: usize,
    pub second: usize,
    pub third: usize,
}

// The first entry after i that has a third, and its first third entry.
pub fn find_second(entries: &[Entry], w: u32, i: usize) -> Option<Two>
    requires { (length entries.now ≤ group_entries) × (i < length entries.now) }
    ensures { FoundTwo w (lent entries.now) i result }
{
    let e = &entries[i];
    if !e.is_live() || !links::any_apart(entries, e.mask) {
        return None;
    }
    let n = entries.len();
    let none = n as u16;
    let mut first = [none; links::FOLDS];
    let mut next = [0u16; limits::GROUP_ENTRIES];
    links::put_links(entries, e.mask, &mut first, &mut next);
    for j in i + 1..n {
        if let Some(third) = links::third_for(entries, &first, &next, i, j, w) {
            return Some(Two { second: j, third });
        }
    }
    None
}

// The first entry that has a second and a third, its first second, and the first third of both.
pub fn find_three(entries: &[Entry], w: u32) -> Option<Three>
    requires { length entries.now ≤ group_entries }
    ensures { FoundThree w (lent entries.now) result }
{
    if entries.len() < 3 {
        return None;
    }
    for first in 0..entries.len() {
        if let Some(two) = find_second(entries, w, first) {
            return Some(Three {
                first,
                second: two.second,
                third: two.third,
            });
        }
    }
    None
}
