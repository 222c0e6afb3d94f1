// The group of a basis: the rows that have it.
ghost use Rattle.std.specs.Prelude.{◌≡◌, ◌≤◌};
ghost use Rattle.group.specs.Group.{empty_group};
ghost use Rattle.views.specs.Views.{Readable};
ghost use Rattle.group.specs.Gathered.{gathered};
ghost use Rattle.base.specs.Limits.{group_entries};

use crate::Group;
use base::limits;
use entries::{Entry, Mark};
use views::View;

impl Group {
    // A group without entries.
    #[inline(always)]
    pub fn empty() -> Self
        ensures { result ≡ empty_group }
    {
        Group {
            entries: [Entry::BLANK; limits::GROUP_ENTRIES],
            len: 0,
        }
    }

    // The rows, of n, that have the basis b with this hash are put into a group without entries. A pass gathers so, where
    // the group stands: `gather` copies its 8 KB.
    pub fn gather_rows(&mut self, n: usize, hash: u64, b: &[u8], views: &[Option<View>], f: &[u8])
        requires { (self.old ≡ empty_group) × Readable f.now views.now n × (n ≤ group_entries) }
        ensures { self.new ≡ gathered f.now views.now hash
            b.now n }
    {
        for i in 0..n {
            if views::has_basis(views, i, hash, b, f) {
                let v = views[i].unwrap();
                self.entries[self.len] = Entry {
                    coeff: v.coeff,
                    mask: v.mask,
                    atom: i as u64,
                    mark: Mark::Live,
                };
                self.len += 1;
            }
        }
    }

    // The rows, of n, that have the basis b with this hash.
    pub fn gather(n: usize, hash: u64, b: &[u8], views: &[Option<View>], f: &[u8]) -> Self
        requires { Readable f.now views.now n × (n ≤ group_entries) }
        ensures { result ≡ gathered f.now views.now hash
            b.now n }
    {
        let mut g = Group::empty();
        g.gather_rows(n, hash, b, views, f);
        g
    }
}
