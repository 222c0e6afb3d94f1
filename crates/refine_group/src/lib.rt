// Refining one group.
#![tactic(auto)]

ghost use Rattle.record.specs.Decode.{decode};
ghost use Rattle.group.specs.Gathered.{gathered};
ghost use Rattle.group.specs.Ready.{GroupReady};
ghost use Rattle.refiner_laws.specs.Refining.{GroupRefined};

use collapse_search::find;
use entries::stages;
use group::{Basis, Group, settle};
use made::Made;
use views::View;

// One group: the rows, of n, that have the basis b with this hash are gathered, the steps are taken
// in the Rust's order, and what is left is added to the rows. A stage that would leave the group as it
// is is not taken.
pub fn refine_group(
    hash: u64,
    b: &[u8],
    n: usize,
    views: &[Option<View>],
    f: &[u8],
    w: u8,
    made: &mut Made,
    coeffs: &mut [u64],
    out: &mut [u8],
)
    requires { GroupReady w 262144 hash b.now f.now views.now n made.old out.old }
    ensures { GroupRefined w 262144 (decode b.now)
        (gathered f.now views.now hash b.now n)
        made.old out.old coeffs.old
        made.new out.new coeffs.new }
{
    let mut g = Group::empty();
    g.gather_rows(n, hash, b, views, f);
    let basis = Basis { bytes: b, hash };
    if stages::any_single(g.used(), u32::from(w)) {
        g.cut_and_drop(basis, w, made, out);
    }
    if stages::any_merge(g.used(), u32::from(w)) {
        g.merge_all(basis, w, made, out);
    }
    if let Some(three) = find::find_three(g.used(), u32::from(w)) {
        g.collapse(three.first, three.second, three.third, basis, w, made, out);
    }
    settle::settle(g.used(), coeffs, u32::from(w));
}
