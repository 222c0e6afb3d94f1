// A copy into a lent slice.
ghost use Rattle.std.specs.Prelude.{◌≡◌, ◌+◌, ◌≤◌, length};
ghost use Rattle.base.specs.Put.{put};

// Puts s into d from index `at` on. A loop: `copy_from_slice` would have the archive for C ask for `memmove`.
pub fn put<T: Copy>(d: &mut [T], at: usize, s: &[T])
    requires { at + length s.now ≤ length d.old }
    ensures { d.new ≡ put d.old at s.now }
{
    for i in 0..s.len() {
        d[at + i] = s[i];
    }
}
