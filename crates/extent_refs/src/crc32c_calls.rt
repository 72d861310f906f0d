// A checksum's register over a word and over bytes, and the table of its polynomial as text.
ghost use Rattle.std.specs.Prelude.{◌≡◌, length};
ghost use Rattle.format.specs.Questions.{Answered, held_text};
ghost use Rattle.crc32c_text.specs.Text.{table_text};
ghost use Rattle.crc32c.specs.Register.{crc32c, word_step, crc_run};
ghost use Rattle.extent_refs.specs.Exports.{Coded};

use format::{Edited, Refusal};

fn table_text(polynomial: u32, out: &mut [u8]) -> Result<Edited, Refusal>
    ensures { Answered (held_text (length out.old) (table_text polynomial)) result out.old out.new }
{
    if !crc32c_text::table_text(polynomial, out) {
        return Err(Refusal::NO_ROOM);
    }
    Ok(Edited::Written(crc32c_text::LENGTH))
}

#[unsafe(no_mangle)]
pub extern "C" fn crc32c_table_text(polynomial: u32, out: &mut [u8], len: &mut u64) -> u32
    ensures { Coded (held_text (length out.old) (table_text polynomial)) result len.new out.old out.new }
{
    let answer = table_text(polynomial, out);
    crate::put_edited(answer, len)
}

#[unsafe(no_mangle)]
pub extern "C" fn crc32c_word_step(register: u32, word: u32) -> u32
    ensures { result ≡ word_step crc32c register word }
{
    crc32c::word_in(register, word)
}

#[unsafe(no_mangle)]
pub extern "C" fn crc32c_update(register: u32, bytes: &[u8]) -> u32
    ensures { result ≡ crc_run crc32c register bytes.now }
{
    crc32c::update(register, bytes)
}
