// Sixteen rows of constants, by which as many bytes go into the CRC32C register at once. Row 0 is the polynomial's table; each later
// entry is the one above it run on over a zero byte. They stand once, the first four in constants.rt and the others in further.rt.
//
// A constant array is copied to the stack wherever it is named. A long run makes one copy of all rows; the hash and short runs do not
// read the rows themselves, and go by the first four: row_0.rt to row_3.rt read their entries when the program is compiled, and a
// `match` whose arms are constants becomes a table in the program's read-only data. LLVM makes it one table only where all arms stand
// in one `match`, so such a function is as long as its row. The arms are numbered from 256 on: LLVM narrows a `match` on a byte to a
// signed byte, and then spends an instruction on each read to move the number up by 128; numbers from 256 on fit in no byte, and it
// does not. So the last arm is never taken.
#![tactic(auto)]

mod constants;
mod further;
pub mod row_0;
pub mod row_1;
pub mod row_2;
pub mod row_3;
pub mod standing;

ghost use Rattle.std.specs.Prelude.{◌≡◌};
ghost use Rattle.crc32c_steps.specs.Steps.{crc32c, table_of, rows_of};

use constants::ROWS;
use further::SIXTEEN;

// The rows. Their rule is computed once, over all entries together (proofs/Array.antt).
pub fn rows() -> [[u32; 256]; 4]
    ensures { result ≡ rows_of crc32c 4 }
{
    ROWS
}

// The sixteen rows, whose rule is computed once too, over all entries together (proofs/Sixteen.antt).
pub fn sixteen_rows() -> [[u32; 256]; 16]
    ensures { result ≡ rows_of crc32c 16 }
{
    SIXTEEN
}

// The table: row 0.
pub fn table() -> [u32; 256]
    ensures { result ≡ table_of crc32c }
{
    ROWS[0]
}
