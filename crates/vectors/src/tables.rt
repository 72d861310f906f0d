// Reads every table that stands in the library beside the generator's result.
ghost use Rattle.std.specs.Prelude.{◌≤◌, length};

use crc32c_tables::standing::Tables;

// How many of the entries of one number, from row to row, are the first one run on over zero bytes.
fn agreeing_down(column: &[u32], first: u32) -> usize
    ensures { result ≤ length column.now }
{
    let mut expected = first;
    let mut count = 0;
    for entry in column {
        if *entry == expected {
            count += 1;
        }
        expected = crc32c::byte_step(expected, 0);
    }
    count
}

// How many entries of the table, of the rows as they are read and of the rows as they stand are the generator's, in the later rows run
// on over zero bytes.
fn agreeing(tables: Tables) -> usize {
    let rows = crc32c_tables::rows();
    let sixteen = crc32c_tables::sixteen_rows();
    let mut count = 0;
    for n in 0..256 {
        let first = tables.generated[n];
        let read = [
            tables.row_0[n],
            tables.row_1[n],
            tables.row_2[n],
            tables.row_3[n],
        ];
        let four: [u32; 4] = std::array::from_fn(|row| rows[row][n]);
        let all: [u32; 16] = std::array::from_fn(|row| sixteen[row][n]);
        count += agreeing_down(&[tables.lent[n]], first);
        count += agreeing_down(&read, first);
        count += agreeing_down(&four, first);
        count += agreeing_down(&all, first);
    }
    count
}

pub fn compare_all(rt: &impl Print) {
    let tables = crc32c_tables::standing::all();
    let count = agreeing(tables);
    let _ = println!(rt; "{count} of 6400 entries of tables are the generator's");
}
