// The classes in the words of the result: for each its mask, then its profile. They stay words at
// computed places: the C interface fixes the result slice.
#![tactic(auto)]

ghost use Rattle.std.specs.Prelude.{MatchOption, ◌≡◌, ℕ, ◌+◌, ◌*◌, ◌<◌, ◌≤◌, length};
ghost use Rattle.base.specs.Lists.{eq_list};
ghost use Rattle.base.specs.Loop.{first_in};
ghost use Rattle.partition_laws.specs.Classes.{has_profile, add_place, Joins};

// Whether a and b hold the same words. A loop: by `==` on slices the columns of 64 classes take a sixth longer.
fn same_words(a: &[u64], b: &[u64]) -> bool
    requires { length a.now ≡ length b.now }
    ensures { result ≡ eq_list a.now b.now }
{
    for i in 0..a.len() {
        if a[i] != b[i] {
            return false;
        }
    }
    true
}

// The first of k classes with this profile.
fn find_class(profile: &[u64], k: usize, out: &[u64]) -> Option<usize>
    requires { k * (length profile.now + 1) ≤ length out.now }
    ensures { MatchOption result (first_in (has_profile out.now profile.now) 0 k ≡ k)
        (λ j. (j ≡ first_in (has_profile out.now profile.now) 0 k) × (j < k)) }
{
    let n = profile.len();
    for j in 0..k {
        let from = j * (n + 1) + 1;
        if same_words(&out[from..from + n], profile) {
            return Some(j);
        }
    }
    None
}

// Place p is put into the class whose words start at index `at`.
pub fn add_place(at: usize, p: u32, out: &mut [u64])
    requires { (at < length out.old) × (p < 64) }
    ensures { out.new ≡ add_place at p out.old }
{
    out[at] |= 1 << p;
}

// Place p is put into the first of k classes with this profile, or into one of its own behind them;
// returns the number of its class.
pub fn join_class(profile: &[u64], p: u32, k: usize, out: &mut [u64]) -> usize
    requires { ((k + 1) * (length profile.now + 1) ≤ length out.old) × (p < 64) }
    ensures { Joins p profile.now out.old k out.new result }
{
    let width = profile.len() + 1;
    if let Some(class) = find_class(profile, k, out) {
        add_place(class * width, p, out);
        return class;
    }
    let at = k * width;
    base::write::put(out, at, &[1 << p]);
    base::write::put(out, at + 1, profile);
    k
}
