// The live entries of a group that share no bit with a mask, linked by a fold of their
// coefficients: the third entry of a collapse is found along them, without a look at every entry.
ghost use Rattle.std.specs.Prelude.{◌≡◌, false, ℕ, ◌<◌, ◌≤◌, length, get_or, replicate};
ghost use Rattle.collapse_search.specs.Links.{folds, fold_of, apart_of, rest_of, lent, Linked};
ghost use Rattle.collapse_search.specs.Links.{ThirdReady, third_in};
ghost use Rattle.entries.specs.Marks.{blank};
ghost use Rattle.entries.specs.Found.{found_below};
ghost use Rattle.base.specs.Limits.{group_entries};

use base::limits;
use entries::Entry;

// How many folds there are.
pub const FOLDS: usize = 1024;

// The fold of a coefficient, a number below FOLDS.
#[tactic(auto, unfolding(crate::specs::Links::fold_of))]
fn fold(c: u64) -> usize
    ensures { result ≡ fold_of c }
{
    let a = c ^ (c >> 35);
    let b = a ^ (a >> 19);
    ((b ^ (b >> 10)) & 1023) as usize
}

// Whether the entry is live and shares no bit with m.
#[tactic(auto, unfolding(crate::specs::Links::apart_of))]
fn apart(e: &Entry, m: u64) -> bool
    ensures { result ≡ apart_of e.now m }
{
    m & e.mask == 0 && e.is_live()
}

// Whether a live entry shares no bit with m.
pub fn any_apart(entries: &[Entry], m: u64) -> bool
    ensures { result ≡ false → (k : ℕ) → k < length entries.now
        → apart_of (get_or entries.now k blank) m ≡ false }
{
    entries.iter().any(|e| apart(e, m))
}

// Links the live entries that share no bit with m: first[h] is the first one with the fold h,
// next[k] the next one after k with the fold of k; the number of entries is none. An Option would have a tag beside its
// two bytes, and the links are cleared for each entry that is tried.
pub fn put_links(
    entries: &[Entry],
    m: u64,
    first: &mut [u16; FOLDS],
    next: &mut [u16; limits::GROUP_ENTRIES],
)
    requires { (length entries.now ≤ group_entries)
        × (first.old ≡ replicate folds (length entries.now)) }
    ensures { Linked (lent entries.now) m 0 first.new next.new }
{
    let n = entries.len();
    for t in 0..n {
        let k = n - 1 - t;
        let e = &entries[k];
        if apart(e, m) {
            let h = fold(e.coeff);
            next[k] = first[h];
            first[h] = k as u16;
        }
    }
}

// Whether the entry e, number k, is none of i and j, has the coefficient c and shares no bit with m.
#[tactic(auto, unfolding(crate::specs::Links::rest_of))]
fn third_fits(k: usize, i: usize, j: usize, e: &Entry, c: u64, m: u64) -> bool
    ensures { result ≡ rest_of k i j e.now c m }
{
    e.coeff == c && m & e.mask == 0 && k != i && k != j
}

// The first third entry for i and j, by the links of the entries that share no bit with the mask
// of i; none where j is consumed.
pub fn third_for(
    entries: &[Entry],
    first: &[u16; FOLDS],
    next: &[u16; limits::GROUP_ENTRIES],
    i: usize,
    j: usize,
    w: u32,
) -> Option<usize>
    requires { ThirdReady entries.now first.now next.now i j }
    ensures { result ≡ found_below (length entries.now) (third_in w (lent entries.now) i j) }
{
    let second = &entries[j];
    if !second.is_live() {
        return None;
    }
    let c = arith::mod_add(entries[i].coeff, second.coeff, w);
    let h = fold(c);
    // By the links, not by a count.
    let mut k = first[h] as usize;
    while k < entries.len() {
        if third_fits(k, i, j, &entries[k], c, second.mask) {
            return Some(k);
        }
        k = next[k] as usize;
    }
    None
}
