// Writes a byte, and numbers of four and eight bytes, each of which the compiler makes one store.
// A line for each width and order is no longer than a trait over them would be.
ghost use Rattle.std.specs.Prelude.{◌≡◌, [], ◌∷◌, ◌+◌, ◌≤◌, length};
ghost use Rattle.fields.specs.Numbers.{le_bytes, be_bytes};
ghost use Rattle.fields.specs.Parts.{written};

pub fn put_u8(out: &mut [u8], at: usize, v: u8)
    requires { at + 1 ≤ length out.old }
    ensures { out.new ≡ written at (v ∷ []) out.old }
{
    out[at] = v;
}

pub fn put_u32_le(out: &mut [u8], at: usize, v: u32)
    requires { at + 4 ≤ length out.old }
    ensures { out.new ≡ written at (le_bytes 4 v) out.old }
{
    out[at..at + 4].copy_from_slice(&v.to_le_bytes());
}

pub fn put_u32_be(out: &mut [u8], at: usize, v: u32)
    requires { at + 4 ≤ length out.old }
    ensures { out.new ≡ written at (be_bytes 4 v) out.old }
{
    out[at..at + 4].copy_from_slice(&v.to_be_bytes());
}

pub fn put_u64_le(out: &mut [u8], at: usize, v: u64)
    requires { at + 8 ≤ length out.old }
    ensures { out.new ≡ written at (le_bytes 8 v) out.old }
{
    out[at..at + 8].copy_from_slice(&v.to_le_bytes());
}

pub fn put_u64_be(out: &mut [u8], at: usize, v: u64)
    requires { at + 8 ≤ length out.old }
    ensures { out.new ≡ written at (be_bytes 8 v) out.old }
{
    out[at..at + 8].copy_from_slice(&v.to_be_bytes());
}
