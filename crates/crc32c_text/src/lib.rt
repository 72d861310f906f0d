// The text of a polynomial's table.
#![tactic(auto)]

ghost use Rattle.text.specs.Puts.{Put};
ghost use Rattle.crc32c_text.specs.Text.{table_text, TextIn};

// How long the text is, whatever the polynomial: 256 lines of eight digits and a line feed.
pub const LENGTH: usize = 2304;

// The lines, as far as the output reaches.
fn put_lines(out: &mut [u8], polynomial: u32)
    ensures { Put (table_text polynomial) 0 out.old 2304 out.new }
{
    let table = crc32c_steps::table_of(polynomial);
    let mut at: usize = 0;
    for entry in table {
        let end = text::put_hex(out, at, 8, entry);
        at = text::put_byte(out, end, 10);
    }
}

// Whether the output holds the text; where it does, the text is put at its start.
pub fn table_text(polynomial: u32, out: &mut [u8]) -> bool
    ensures { TextIn polynomial result out.old out.new }
{
    if out.len() < LENGTH {
        return false;
    }
    put_lines(out, polynomial);
    true
}
