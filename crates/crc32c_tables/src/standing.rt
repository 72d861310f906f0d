// The table and the rows that stand in the library, read over all entries together, and the generator's result beside them. Of the rows
// that a long run reads, which are handed out as they stand, `crc32c_tables::sixteen_rows` says it.
ghost use Rattle.std.specs.Prelude.{◌≡◌, ◌+◌, ◌*◌, ◌<◌};
ghost use Rattle.crc32c_steps.specs.Steps.{crc32c, steps, table_entries};
ghost use Rattle.crc32c_tables.specs.Generated.{Generated};

#[derive(Drop)]
pub struct Tables {
    // What the generator makes of CRC32C's polynomial.
    pub generated: [u32; 256],
    // The array that is lent.
    pub lent: [u32; 256],
    // The rows, as the hash reads them.
    pub row_0: [u32; 256],
    pub row_1: [u32; 256],
    pub row_2: [u32; 256],
    pub row_3: [u32; 256],
}

// Entry n of row k, as the hash reads it.
fn read_entry(k: usize, n: u8) -> u32
    requires { k < 4 }
    ensures { result ≡ steps crc32c (8 * (k + 1)) n }
{
    match k {
        0 => crate::row_0::entry(n),
        1 => crate::row_1::entry(n),
        2 => crate::row_2::entry(n),
        _ => crate::row_3::entry(n),
    }
}

// Row k, as the hash reads it.
fn read_row(k: usize) -> [u32; 256]
    requires { k < 4 }
    ensures { result ≡ table_entries (steps crc32c (8 * (k + 1))) 256 0 }
{
    std::array::from_fn(|n| read_entry(k, n as u8))
}

// "The table in the library equals the generator's result, shown over all entries together": so says what it promises.
pub fn all() -> Tables
    ensures { Generated result }
{
    Tables {
        generated: crc32c_steps::table_of(crc32c_steps::CRC32C),
        lent: crate::table(),
        row_0: read_row(0),
        row_1: read_row(1),
        row_2: read_row(2),
        row_3: read_row(3),
    }
}
