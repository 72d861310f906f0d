// Sixteen bytes go into the register at once, by sixteen rows that are lent.
ghost use Rattle.std.specs.Prelude.{◌≡◌, ◌++◌, ◌+◌, ◌*◌, ◌≤◌, length};
ghost use Rattle.fields.specs.Numbers.{le_bytes};
ghost use Rattle.fields.specs.Parts.{part};
ghost use Rattle.crc32c_steps.specs.Steps.{rows_of};
ghost use Rattle.crc32c.specs.Register.{crc32c, steps, crc_run};

// A word after its own four bytes and as many zero bytes behind them as `row` says.
fn word_on(rows: &[[u32; 256]; 16], row: usize, word: u32) -> u32
    requires { (rows.now ≡ rows_of crc32c 16) × (row + 4 ≤ 16) }
    ensures { result ≡ steps crc32c (8 * (row + 4)) word }
{
    let a = rows[row][(word / 16777216 % 256) as usize];
    let b = rows[row + 1][(word / 65536 % 256) as usize];
    let c = rows[row + 2][(word / 256 % 256) as usize];
    let d = rows[row + 3][(word % 256) as usize];
    a ^ b ^ c ^ d
}

// The register after four more words. Each goes its own way over those behind it, the first with the register xored in. That one is
// xored last: the compiler keeps the order, and what does not wait for the register is then at hand.
fn words_in(rows: &[[u32; 256]; 16], register: u32, a: u32, b: u32, c: u32, d: u32) -> u32
    requires { rows.now ≡ rows_of crc32c 16 }
    ensures { result ≡ crc_run crc32c register (le_bytes 4 a ++ (le_bytes 4 b ++ (le_bytes 4 c ++ le_bytes 4 d))) }
{
    word_on(rows, 8, b)
        ^ word_on(rows, 4, c)
        ^ word_on(rows, 0, d)
        ^ word_on(rows, 12, register ^ a)
}

// The register after the sixteen bytes at a position.
pub fn bytes_in(rows: &[[u32; 256]; 16], register: u32, bytes: &[u8], at: usize) -> u32
    requires { (rows.now ≡ rows_of crc32c 16) × (at + 16 ≤ length bytes.now) }
    ensures { result ≡ crc_run crc32c register (part at 16 bytes.now) }
{
    let a = fields::get_u32_le(bytes, at);
    let b = fields::get_u32_le(bytes, at + 4);
    let c = fields::get_u32_le(bytes, at + 8);
    let d = fields::get_u32_le(bytes, at + 12);
    words_in(rows, register, a, b, c, d)
}
