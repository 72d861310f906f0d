// The plan on a data reference's item: what would be the payload inline, a triple and a count, where the row of its kind has them.
ghost use Rattle.std.specs.Prelude.{◌≡◌, ◌+◌, replicate};
ghost use Rattle.fields.specs.Numbers.{le_bytes};
ghost use Rattle.fields.specs.Parts.{written};
ghost use Rattle.format.specs.Bodies.{drop_keyed_data_ref};
ghost use Rattle.backref.specs.Plans.{Planned, KeepsLength};

use crate::{BodyEdit, Plan};
use format::{DataRef, EXTENT_DATA_REF, MOST_DATA, Refusal};

// A number of four bytes in front of zeros.
fn count_bytes(count: u32) -> [u8; 32]
    ensures { result ≡ written 0 (le_bytes 4 count) (replicate 32 0) }
{
    let mut new = [0; 32];
    fields::put_u32_le(&mut new, 0, count);
    new
}

// One count off the item; at count 1 the item goes. Its first eight bytes stay, as a body's total would.
#[tactic(auto, unfolding(crate::specs::Plans::KeepsLength))]
pub fn plan_drop_keyed(item: &[u8], name: DataRef) -> Result<Plan, Refusal>
    ensures planned { Planned result item.now (drop_keyed_data_ref item.now name) }
    ensures keeps_length { KeepsLength result }
{
    if MOST_DATA < item.len() {
        return Err(Refusal::RANGE);
    }
    let row = inline_refs::lengths_of(EXTENT_DATA_REF);
    if item.len() != row.payload {
        return Err(Refusal::OTHER_NAME);
    }
    if !inline_refs::names_triple(name, item, 0) {
        return Err(Refusal::OTHER_NAME);
    }
    let count = fields::get_u32_le(item, row.count);
    if count == 0 {
        return Err(Refusal::COUNT_ZERO);
    }
    if count == 1 {
        return Ok(Plan::Remove);
    }
    Ok(Plan::Edit(BodyEdit {
        from: row.count,
        to: row.payload,
        new: count_bytes(count - 1),
        size: 4,
        total: fields::get_u64_le(item, 0),
        count: 0,
    }))
}
