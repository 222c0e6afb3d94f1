// A basis that one row alone has. Most groups are such, and need no group to be gathered.
#![tactic(auto)]

ghost use Rattle.std.specs.Prelude.{◌≡◌, true, false, ℕ, ◌<◌, ◌≤◌};
ghost use Rattle.views.specs.Views.{found_at, view_at, has_basis, Readable};
ghost use Rattle.group.specs.Gathered.{gathered};
ghost use Rattle.lone.specs.Lone.{LoneReady, FirstReady, lone_group, Stays, StaysAlone};

use entries::Entry;
use views::View;

// Whether no row from a to below n has the basis b with this hash.
fn none_has(a: usize, n: usize, hash: u64, b: &[u8], views: &[Option<View>], f: &[u8]) -> bool
    requires { Readable f.now views.now n }
    ensures { result ≡ true → (k : ℕ) → a ≤ k → k < n
        → has_basis f.now (found_at views.now k) hash b.now ≡ false }
{
    for i in a..n {
        if views::has_basis(views, i, hash, b, f) {
            return false;
        }
    }
    true
}

// Whether of n rows only `first`, which has it, has the basis b with this hash.
pub fn is_lone(
    first: usize,
    n: usize,
    hash: u64,
    b: &[u8],
    views: &[Option<View>],
    f: &[u8],
) -> bool
    requires { LoneReady f.now views.now hash b.now first n }
    ensures { result ≡ true
        → gathered f.now views.now hash b.now n
        ≡ lone_group (view_at views.now first) first }
{
    none_has(0, first, hash, b, views, f) && first_is_lone(first, n, hash, b, views, f)
}

// The same where no row before `first` has the basis: those behind it are looked at.
pub fn first_is_lone(
    first: usize,
    n: usize,
    hash: u64,
    b: &[u8],
    views: &[Option<View>],
    f: &[u8],
) -> bool
    requires { FirstReady f.now views.now hash b.now first n }
    ensures { result ≡ true
        → gathered f.now views.now hash b.now n
        ≡ lone_group (view_at views.now first) first }
{
    none_has(first + 1, n, hash, b, views, f)
}

// Whether refining leaves an entry of the coefficient c and the mask m, which is alone, as it is.
fn stays(c: u64, m: u64, w: u32) -> bool
    requires { w ≤ 64 }
    ensures { result ≡ true → Stays w c m }
{
    let e = Entry {
        coeff: c,
        mask: m,
        ..Entry::BLANK
    };
    e.cut_mask(w) == m && !e.drops(w) && !e.becomes_minus_one(w)
}

// Whether row `first` alone, of n, has the basis b with this hash, and refining leaves it as it is.
pub fn stays_alone(
    first: usize,
    n: usize,
    hash: u64,
    b: &[u8],
    views: &[Option<View>],
    f: &[u8],
    w: u32,
) -> bool
    requires { (w ≤ 64) × LoneReady f.now views.now hash b.now first n }
    ensures { result ≡ true → StaysAlone w f.now views.now hash
        b.now n first }
{
    let v = views[first].unwrap();
    stays(v.coeff, v.mask, w) && is_lone(first, n, hash, b, views, f)
}

// The same where no row before `first` has the basis.
pub fn first_stays_alone(
    first: usize,
    n: usize,
    hash: u64,
    b: &[u8],
    views: &[Option<View>],
    f: &[u8],
    w: u32,
) -> bool
    requires { (w ≤ 64) × FirstReady f.now views.now hash b.now first n }
    ensures { result ≡ true → StaysAlone w f.now views.now hash
        b.now n first }
{
    let v = views[first].unwrap();
    stays(v.coeff, v.mask, w) && first_is_lone(first, n, hash, b, views, f)
}
