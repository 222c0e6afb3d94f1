// The rows of a form as a pass sees them, in a lent array: the view of each row that is in a group.
// Each atom is split once.
#![tactic(auto)]

pub mod bases;

ghost use Rattle.std.specs.Prelude.{◌≡◌, ◌+◌, ◌-◌, ◌≤◌, length, take, drop};
ghost use Rattle.record.specs.Decode.{decode};
ghost use Rattle.semilinear.specs.Items.{after_atoms};
ghost use Rattle.semilinear.specs.DecodeForm.{read_rows};
ghost use Rattle.views.specs.Views.{only_of, found_at, ViewsTree, ViewReady};
ghost use Rattle.views.specs.Views.{ViewsReady, ViewsRead, Readable, has_basis};

use base::limits;
use record::kinds::Kind;
use semilinear::items::Rows;

// The view of a row that is in a group: its coefficient, the hash of the basis, where the basis
// starts and ends in the form, and the mask.
#[derive(Clone, Copy)]
pub struct View {
    pub coeff: u64,
    pub hash: u64,
    pub start: usize,
    pub end: usize,
    pub mask: u64,
}

// The view of an atom with the coefficient c, whose tree stands in f from `from` to `to`, where it
// is in a group; `only`: only variables count as bases.
fn view_of(f: &[u8], from: usize, to: usize, c: u64, w: u8, only: bool) -> Option<View>
    requires { ViewReady w f.now from to }
    ensures { ViewsTree (only_of only) w f.now
        (decode (take (to - from) (drop from f.now))) c result }
{
    if c == 0 {
        return None;
    }
    let Some(found) = decompose::decompose_atom(&f[from..to], w as u32) else {
        return None;
    };
    let start = from + found.start;
    let end = from + found.end;
    let b = &f[start..end];
    if only && record::kind(b) != Kind::Variable as u8 {
        return None;
    }
    Some(View {
        coeff: c,
        hash: expr::hash::structural_hash(b),
        start,
        end,
        mask: found.mask,
    })
}

// The views of all rows of f, whose terms begin at `terms`, and the coefficients of the rows that
// are in no group; returns how many rows there are.
pub fn read_views(
    f: &[u8],
    terms: usize,
    w: u8,
    only: bool,
    views: &mut [Option<View>],
    coeffs: &mut [u64],
) -> usize
    requires { ViewsReady w f.now terms views.old coeffs.old }
    ensures { ViewsRead (only_of only) w f.now
        (read_rows 0 f.now (after_atoms f.now))
        coeffs.old views.new coeffs.new result }
{
    let mut at = 0;
    let mut number = 0;
    for row in Rows::of(f, terms) {
        let end = at + row.atom.len();
        let coeff = row.coeff.unwrap_or(0);
        let view = view_of(f, at + limits::RECORD_LENGTH, end, coeff, w, only);
        views[number] = view;
        coeffs[number] = if view.is_some() { 0 } else { coeff };
        at = end;
        number += 1;
    }
    number
}

// Whether row i has the basis b with this hash. The hash is compared before the bytes.
pub fn has_basis(views: &[Option<View>], i: usize, hash: u64, b: &[u8], f: &[u8]) -> bool
    requires { Readable f.now views.now (i + 1) }
    ensures { result ≡ has_basis f.now (found_at views.now i) hash
        b.now }
{
    match &views[i] {
        Some(v) => v.hash == hash && record::same_bytes(&f[v.start..v.end], b),
        None => false,
    }
}
