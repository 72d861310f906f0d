// The CRC32C register of RFC 3720, by rows of 256 constants.
//
// A constant array is copied to the stack where it is named. A long run over a slice makes one copy of sixteen rows and lends it to
// each step; a word step takes the entries of four rows one by one and makes none.
#![tactic(auto)]

mod sixteen;

ghost use Rattle.std.specs.Prelude.{◌≡◌, ◌++◌, ◌<◌, length};
ghost use Rattle.crc32c.specs.Register.{crc32c, all_ones, table_of, byte_step, word_step, crc_run, inverted};
ghost use Rattle.fields.specs.Numbers.{le, le_bytes};

// From about so many bytes on a run is worth the copy of the rows, 16 KB.
const LONG: usize = 512;

// The register after one more byte, by a lent table.
fn byte_in(t: &[u32; 256], register: u32, b: u8) -> u32
    requires { t.now ≡ table_of crc32c }
    ensures { result ≡ byte_step crc32c register b }
{
    let x = register ^ (b as u32);
    let low = (x % 256) as usize;
    (register >> 8) ^ t[low]
}

// The register after one more byte.
pub fn byte_step(register: u32, b: u8) -> u32
    ensures { result ≡ byte_step crc32c register b }
{
    let t = crc32c_tables::table();
    byte_in(&t, register, b)
}

// The number of fewer than eight bytes, lowest first.
fn last_number(bytes: &[u8]) -> u64
    requires { length bytes.now < 8 }
    ensures { result ≡ le bytes.now }
{
    let mut x = 0;
    for i in (0..bytes.len()).rev() {
        x = x * 256 + (bytes[i] as u64);
    }
    x
}

// The register after fewer than eight bytes, all at once: they are the last ones of a run over eight from 0 whose first are zeros, and
// zeros leave 0 as it is. What of the register stands above them goes down by itself.
fn last_in(register: u32, bytes: &[u8]) -> u32
    requires { (0 < length bytes.now) × (length bytes.now < 8) }
    ensures { result ≡ crc_run crc32c register bytes.now }
{
    let x = last_number(bytes);
    let bits = 8 * bytes.len();
    let above = ((register as u64) >> bits) as u32;
    above ^ u64_in(0, ((register as u64) ^ x) << (64 - bits))
}

// The register after a run over bytes, eight at a time.
fn run(register: u32, bytes: &[u8]) -> u32
    ensures { result ≡ crc_run crc32c register bytes.now }
{
    let (numbers, last) = bytes.as_chunks::<8>();
    let mut r = register;
    for number in numbers {
        r = u64_in(r, fields::get_u64_le(number, 0));
    }
    if last.is_empty() {
        return r;
    }
    last_in(r, last)
}

// The same sixteen at a time.
// The position is counted by hand: over `as_chunks::<16>()` 16,352 bytes took 2.5 to 5.3 % longer in four measurements.
fn long_run(register: u32, bytes: &[u8]) -> u32
    ensures { result ≡ crc_run crc32c register bytes.now }
{
    let rows = crc32c_tables::sixteen_rows();
    let mut r = register;
    let mut at = 0;
    while 16 <= bytes.len() - at {
        r = sixteen::bytes_in(&rows, r, bytes, at);
        at += 16;
    }
    run(r, &bytes[at..])
}

// The register after a run over bytes.
pub fn update(register: u32, bytes: &[u8]) -> u32
    ensures { result ≡ crc_run crc32c register bytes.now }
{
    if bytes.len() < LONG {
        return run(register, bytes);
    }
    long_run(register, bytes)
}

// The register after one more word: all four bytes are xored in at once, and each goes its own way, by a row. Three bytes more follow
// the lowest, so it goes by the last row. No read waits for another. LLVM puts a function as long as a row into its caller only where
// that is the one call of it, so each row is read here alone.
pub fn word_step(register: u32, word: u32) -> u32
    ensures { result ≡ word_step crc32c register word }
{
    let y = register ^ word;
    let a = crc32c_tables::row_0::entry((y / 16777216 % 256) as u8);
    let b = crc32c_tables::row_1::entry((y / 65536 % 256) as u8);
    let c = crc32c_tables::row_2::entry((y / 256 % 256) as u8);
    let d = crc32c_tables::row_3::entry((y % 256) as u8);
    a ^ b ^ c ^ d
}

// The register after a run over the eight bytes of `x`, lowest first: two word steps. A loop, so that the word step too is called in
// one place alone.
pub fn u64_in(register: u32, x: u64) -> u32
    ensures { result ≡ crc_run crc32c register (le_bytes 8 x) }
{
    let mut r = register;
    let mut rest = x;
    for i in 0..2u32 {
        r = word_step(r, (rest % 4294967296) as u32);
        rest = rest >> 32;
    }
    r
}

// The word step for callers other than the hash, which keeps `word_step` to itself. A word goes into a register as their xor goes
// into 0, and zero bytes leave 0 as it is: so it is the second word of a run from 0.
pub fn word_in(register: u32, word: u32) -> u32
    ensures { result ≡ word_step crc32c register word }
{
    u64_in(0, ((register as u64) ^ (word as u64)) << 32)
}

// From all ones: the register after a run over the eight bytes of `a`, lowest first.
pub fn run_one(a: u64) -> u32
    ensures { result ≡ crc_run crc32c all_ones (le_bytes 8 a) }
{
    u64_in(0xffff_ffff, a)
}

// The same over `b` and then `c`.
pub fn run_two(b: u64, c: u64) -> u32
    ensures { result ≡ crc_run crc32c all_ones (le_bytes 8 b ++ le_bytes 8 c) }
{
    let first = u64_in(0xffff_ffff, b);
    u64_in(first, c)
}

// The finished checksum: the register inverted.
pub fn finish(register: u32) -> u32
    ensures { result ≡ inverted register }
{
    !register
}
