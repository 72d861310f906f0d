// What a shared reference takes: inline, or as an item of its own. The row of its kind says how long it is and whether it counts.
ghost use Rattle.std.specs.Prelude.{◌≡◌, length};
ghost use Rattle.format.specs.Questions.{Answered, told_of};
ghost use Rattle.format.specs.Bodies.{held_body, shared_add_key, shared_add_item, shared_add_inline_size};
ghost use Rattle.transaction.specs.Shared.{SharedRow};

use format::{Edited, Key, Refusal, SHARED_BLOCK_REF, SHARED_DATA_REF, SharedRef};
use inline_refs::Lengths;

// The row of a shared kind, and question 3 of another. Each arm names its kind, since the compiler then looks it up, and the call
// does not.
#[tactic(auto, unfolding(format::specs::Bodies::shared_kind))]
fn row_of(kind: u8) -> Result<Lengths, Refusal>
    ensures { SharedRow kind result }
{
    match kind {
        SHARED_BLOCK_REF => Ok(inline_refs::lengths_of(SHARED_BLOCK_REF)),
        SHARED_DATA_REF => Ok(inline_refs::lengths_of(SHARED_DATA_REF)),
        _ => Err(Refusal::RANGE),
    }
}

// With its kind, and its count where it has one.
#[tactic(auto, unfolding(format::specs::Bodies::shared_add_inline_size, format::specs::Questions::told_of, format::specs::Questions::ask))]
pub fn shared_add_inline_size(kind: u8) -> Result<u64, Refusal>
    ensures { result ≡ told_of (shared_add_inline_size kind) }
{
    let row = row_of(kind)?;
    Ok((1 + row.payload) as u64)
}

// The key that the item is filed under.
#[tactic(auto, unfolding(format::specs::Bodies::shared_add_key, format::specs::Questions::told_of, format::specs::Questions::ask))]
pub fn shared_add_key(bytenr: u64, name: SharedRef) -> Result<Key, Refusal>
    ensures { result ≡ told_of (shared_add_key bytenr name) }
{
    if !backref::shared_kind(name.kind) {
        return Err(Refusal::RANGE);
    }
    Ok(Key {
        objectid: bytenr,
        kind: name.kind,
        offset: name.parent,
    })
}

// The item's data: the count of shared data, nothing for a shared block.
pub fn shared_add_item(kind: u8, count: u32, out: &mut [u8]) -> Result<Edited, Refusal>
    ensures { Answered (held_body (length out.old) (shared_add_item kind count)) result out.old out.new }
{
    let row = row_of(kind)?;
    if row.count == 0 {
        return extent_write::put_body(&[], out);
    }
    extent_write::put_body(&count.to_le_bytes(), out)
}
