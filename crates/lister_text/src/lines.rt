// The lines of the text.
ghost use Rattle.std.specs.Prelude.{◌≡◌, cond, [], ◌∷◌, ◌+◌, ◌*◌, ◌≤◌, length, drop};
ghost use Rattle.fields.specs.Numbers.{words};
ghost use Rattle.format.specs.Questions.{refused};
ghost use Rattle.format.specs.References.{payload_length, count_position, counted, field_count, ref_at, total_of, flags_of};
ghost use Rattle.format.specs.Lister.{line, ref_line, ref_lines, printed};
ghost use Rattle.inline_refs.specs.Steps.{read_from};
ghost use Rattle.text.specs.Numbers.{spaced};
ghost use Rattle.text.specs.Puts.{Put};
ghost use Rattle.lister_text.specs.Refs.{ReadIn, ReadsOn, refs_of};

use inline_refs::{Kinds, Reader, RefAt};

// The only line of a refusal.
pub fn put_refused(out: &mut [u8], number: u32) -> usize
    ensures { Put (printed (refused number)) 0 out.old result out.new × (result ≤ 100) }
{
    let a = text::put_bytes(out, 0, b"refused ");
    let b = text::put_digits(out, a, number as u64);
    text::put_byte(out, b, 10)
}

// The first line: start, total, flags, number of references.
pub fn put_head(out: &mut [u8], body: &[u8], start: usize, count: usize) -> usize
    requires { 24 ≤ length body.now }
    ensures { Put (line (start ∷ total_of body.now ∷ flags_of body.now ∷ count ∷ [])) 0 out.old result out.new × (result ≤ 100) }
{
    let a = text::put_digits(out, 0, start as u64);
    let b = text::put_field(out, a, fields::get_u64_le(body, 0));
    let c = text::put_field(out, b, fields::get_u64_le(body, 16));
    let d = text::put_field(out, c, count as u64);
    text::put_byte(out, d, 10)
}

// So many fields of 8 bytes from `start` on.
fn put_fields(out: &mut [u8], at: usize, body: &[u8], start: usize, many: usize) -> usize
    requires { (start + 8 * many ≤ length body.now) × (at + 21 * many ≤ 1000000) }
    ensures { Put (spaced (words many (drop start body.now))) at out.old result out.new × (result ≤ 1000000) }
{
    let mut next = at;
    for n in 0..many {
        next = text::put_field(out, next, fields::get_u64_le(body, start + 8 * n));
    }
    next
}

// How many fields stand before the count, or fill the payload.
fn field_count(reference: RefAt) -> usize
    requires { (reference.size ≡ payload_length reference.kind) × (reference.count ≡ count_position reference.kind) }
    ensures { result ≡ field_count reference.kind }
{
    if 0 < reference.count {
        return reference.count / 8;
    }
    reference.size / 8
}

// The count of a kind that has one.
fn put_count(out: &mut [u8], at: usize, body: &[u8], reference: RefAt) -> usize
    requires { ReadIn body.now reference × (at ≤ 1000000) }
    ensures { Put (spaced (cond (counted reference.kind) ((ref_at reference.kind (drop reference.start body.now)).weight ∷ []) [])) at out.old result out.new × (result ≤ at + 21) }
{
    if reference.count == 0 {
        return at;
    }
    let weight = inline_refs::weight_at(body, reference.kind, reference.start, reference.count);
    text::put_field(out, at, weight as u64)
}

// The line of a reference.
fn put_ref(out: &mut [u8], at: usize, body: &[u8], reference: RefAt) -> usize
    requires { ReadIn body.now reference × (length body.now ≤ 65535) × (at ≤ 500000) }
    ensures { Put (ref_line (ref_at reference.kind (drop reference.start body.now))) at out.old result out.new }
{
    let a = text::put_digits(out, at, reference.kind as u64);
    let many = field_count(reference);
    let b = put_fields(out, a, body, reference.start, many);
    let c = put_count(out, b, body, reference);
    text::put_byte(out, c, 10)
}

// The lines of the references from `start` on, which were read before, so no step refuses: at most five bytes of text for each byte
// that is read.
pub fn put_refs(out: &mut [u8], at: usize, kinds: &Kinds, body: &[u8], start: usize) -> usize
    requires { (length body.now ≤ 65535) × ReadsOn body.now start × (start ≤ length body.now) × (at ≤ 100) }
    ensures { Put (ref_lines (refs_of (read_from body.now start))) at out.old result out.new × (result ≤ 100 + 5 * length body.now) }
{
    let mut reader = Reader::new(body, start);
    let mut next = at;
    while let Some(reference) = reader.step(kinds).unwrap() {
        next = put_ref(out, next, body, reference);
    }
    next
}
