// A reference of a body by its number, from 0. Questions 6 to 8 are put to the whole body, so the references are counted first.
ghost use Rattle.std.specs.Prelude.{◌≡◌, ◌+◌, ◌≤◌, length, MatchResult};
ghost use Rattle.format.specs.Constants.{most_data};
ghost use Rattle.format.specs.Questions.{refused, accepted, told_of};
ghost use Rattle.format.specs.Bodies.{inline_ref, inline_payload};
ghost use Rattle.inline_refs.specs.Steps.{read_from};
ghost use Rattle.inline_refs.specs.Scans.{ref_count_of};
ghost use Rattle.backref.specs.Reads.{pick_in, Inside, start_in};

use format::{InlineRef, Refusal};
use inline_refs::{Kinds, Reader};

// Among the references from `start` on, which were counted before.
fn pick(
    kinds: &Kinds,
    body: &[u8],
    start: usize,
    count: usize,
    index: u64,
) -> Result<InlineRef, Refusal>
    requires { (length body.now ≤ most_data) × (Ok count ≡ ref_count_of (read_from body.now start)) }
    ensures { (result ≡ told_of (pick_in start index (read_from body.now start))) × Inside result (length body.now) }
{
    let mut reader = Reader::new(body, start);
    let mut left = index;
    while let Some(reference) = reader.step(kinds)? {
        if left == 0 {
            return Ok(InlineRef {
                kind: reference.kind,
                offset: fields::get_u64_le(body, reference.start),
                start: reference.start,
                len: reference.size,
            });
        }
        left -= 1;
    }
    Err(Refusal::MISSING)
}

// Its kind, its first field, and where its payload stands.
pub fn inline_ref(item_type: u8, body: &[u8], index: u64) -> Result<InlineRef, Refusal>
    ensures { (result ≡ told_of (inline_ref item_type body.now index)) × Inside result (length body.now) }
{
    let start = inline_refs::open_body(item_type, body)?;
    let kinds = Kinds::new();
    let count = inline_refs::count_refs(&kinds, body, start)?;
    pick(&kinds, body, start, count, index)
}

// Its payload, as a part of the body: these bytes, at their position in the caller's slice.
pub fn inline_payload<'a>(item_type: u8, body: &'a [u8], index: u64) -> Result<&'a [u8], Refusal>
    ensures { MatchResult result (λ bytes. (inline_payload item_type body.now index ≡ accepted bytes.now) × (bytes.ref_ptr.0 ≡ body.entry.ref_ptr.0) × (bytes.ref_ptr.1 ≡ start_in (inline_ref item_type body.now index) + body.entry.ref_ptr.1)) (λ refusal. inline_payload item_type body.now index ≡ refused refusal.number) }
{
    let reference = inline_ref(item_type, body, index)?;
    Ok(&body[reference.start..reference.start + reference.len])
}
