// Reads numbers of four and eight bytes. Eight bytes are two reads of four, so that each proof meets four bytes at most. With the
// lowest byte first the compiler makes one load of them while the function is still small; with the highest first it does so late.
// So a number that stands highest byte first is read as if it stood lowest first and then byte-swapped, which is one instruction.
// With `from_le_bytes` and `from_be_bytes` `leaf_edit_split` takes 8,290 ns for 2,000 items, not 4,310.
ghost use Rattle.std.specs.Prelude.{◌≡◌, [], ◌∷◌, ◌+◌, ◌*◌, ◌≤◌, length};
ghost use Rattle.fields.specs.Numbers.{le, be, be_bytes};
ghost use Rattle.fields.specs.Parts.{part};

// Four bytes, lowest first.
fn join_bytes(a: u8, b: u8, c: u8, d: u8) -> u32
    ensures { result ≡ le (a ∷ b ∷ c ∷ d ∷ []) }
{
    (a as u32) + (b as u32) * 256 + (c as u32) * 65536 + (d as u32) * 16777216
}

// Two halves.
fn join_halves(low: u32, high: u32) -> u64
    ensures { result ≡ low + 4294967296 * high }
{
    (low as u64) + (high as u64) * 4294967296
}

// The same bytes in the other order.
fn swapped_u32(v: u32) -> u32
    ensures { result ≡ le (be_bytes 4 v) }
{
    let a = (v % 256) as u8;
    let b = (v / 256 % 256) as u8;
    let c = (v / 256 / 256 % 256) as u8;
    let d = (v / 256 / 256 / 256 % 256) as u8;
    join_bytes(d, c, b, a)
}

fn swapped_u64(v: u64) -> u64
    ensures { result ≡ le (be_bytes 8 v) }
{
    let low = (v % 4294967296) as u32;
    let high = (v / 4294967296) as u32;
    join_halves(swapped_u32(high), swapped_u32(low))
}

pub fn get_u32_le(s: &[u8], at: usize) -> u32
    requires { at + 4 ≤ length s.now }
    ensures { result ≡ le (part at 4 s.now) }
{
    join_bytes(s[at], s[at + 1], s[at + 2], s[at + 3])
}

pub fn get_u32_be(s: &[u8], at: usize) -> u32
    requires { at + 4 ≤ length s.now }
    ensures { result ≡ be (part at 4 s.now) }
{
    swapped_u32(get_u32_le(s, at))
}

pub fn get_u64_le(s: &[u8], at: usize) -> u64
    requires { at + 8 ≤ length s.now }
    ensures { result ≡ le (part at 8 s.now) }
{
    join_halves(get_u32_le(s, at), get_u32_le(s, at + 4))
}

pub fn get_u64_be(s: &[u8], at: usize) -> u64
    requires { at + 8 ≤ length s.now }
    ensures { result ≡ be (part at 8 s.now) }
{
    swapped_u64(get_u64_le(s, at))
}
