// The text of the reference lister (document 01, "The reference lister"), for a type byte and a body.
#![tactic(auto)]

mod lines;

ghost use Rattle.std.specs.Prelude.{◌≡◌, ◌≤◌, length, take, MatchResult};
ghost use Rattle.fields.specs.Parts.{written};
ghost use Rattle.format.specs.Questions.{Answered, held_text, refused};
ghost use Rattle.format.specs.Lister.{printed, listed};
ghost use Rattle.text.specs.Puts.{Put};

use format::{Edited, Refusal};
use inline_refs::Kinds;

// The text of an input whose references can be read. A refusal is found before a byte is written.
fn put_read(out: &mut [u8], input: &[u8]) -> Result<usize, Refusal>
    ensures { MatchResult result (λ next. Put (listed input.now) 0 out.old next out.new × (next ≤ 327775)) (λ refusal. (printed (refused refusal.number) ≡ listed input.now) × (out.new ≡ out.old)) }
{
    let Some((item_type, body)) = input.split_first() else {
        return Err(Refusal::SHORT);
    };
    let start = inline_refs::open_body(*item_type, body)?;
    let kinds = Kinds::new();
    let count = inline_refs::count_refs(&kinds, body, start)?;
    let at = lines::put_head(out, body, start, count);
    Ok(lines::put_refs(out, at, &kinds, body, start))
}

// The text of a whole input, or as much of it as the output holds; and how long it is.
fn put_text(out: &mut [u8], input: &[u8]) -> usize
    ensures { Put (listed input.now) 0 out.old result out.new × (result ≤ 327775) }
{
    match put_read(out, input) {
        Ok(next) => next,
        Err(refusal) => lines::put_refused(out, refusal.number),
    }
}

// The text, where the output holds it; else refusal 21, which writes nothing, so it is measured first.
pub fn list(input: &[u8], out: &mut [u8]) -> Result<Edited, Refusal>
    ensures { Answered (held_text (length out.old) (listed input.now)) result out.old out.new }
{
    let mut measured = [0u8; 1];
    let n = put_text(&mut measured, input);
    if out.len() < n {
        return Err(Refusal::NO_ROOM);
    }
    put_text(out, input);
    Ok(Edited::Written(n))
}

// The text in an output that holds any: 100 bytes are enough for the first line, and five for each byte of the longest body. The
// last promise is what a caller needs that takes the part of the output with the text.
pub fn list_in_full(input: &[u8], out: &mut [u8; 327775]) -> usize
    ensures value { (result ≡ length (listed input.now)) × (out.new ≡ written 0 (listed input.now) out.old) }
    ensures upper_bound { (result ≤ length out.new) × (result ≡ length (take result out.new)) }
{
    put_text(out, input)
}
