// Bytes set to 0.
ghost use Rattle.std.specs.Prelude.{◌≡◌, ◌+◌, ◌≤◌, length, replicate};
ghost use Rattle.fields.specs.Parts.{written};

// The `n` bytes of `out` at `at` become 0.
pub fn clear(out: &mut [u8], at: usize, n: usize)
    requires { at + n ≤ length out.old }
    ensures { out.new ≡ written at (replicate n 0) out.old }
{
    out[at..at + n].fill(0);
}
