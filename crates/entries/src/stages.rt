// The tests of two stages of refining: whether a stage would change the group.
ghost use Rattle.std.specs.Prelude.{◌≡◌, false, ◌≤◌};
ghost use Rattle.entries.specs.Tests.{NoSingle, NoMerge};

use crate::{Entry, pair, single};

// Whether a mask would be cut or a term dropped.
pub fn any_single(entries: &[Entry], w: u32) -> bool
    ensures { result ≡ false → NoSingle w entries.now }
{
    single::any_cut(entries, w) || single::any_zero(entries, w)
}

// Whether two entries would join or a coefficient become 2^w - 1.
pub fn any_merge(entries: &[Entry], w: u32) -> bool
    requires { w ≤ 64 }
    ensures { result ≡ false → NoMerge w entries.now }
{
    single::any_minus_one(entries, w) || pair::any_pair(entries, w)
}
