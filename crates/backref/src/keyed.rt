// The calls on a data reference's item.
ghost use Rattle.std.specs.Prelude.{length};
ghost use Rattle.format.specs.Questions.{Answered, accepted};
ghost use Rattle.format.specs.Bodies.{held_body, keyed_data_ref_body, drop_keyed_data_ref};

use format::{DataRef, EXTENT_DATA_REF, Edited, Refusal};

// A new item: the triple, and the count where the row of the kind has it.
pub fn keyed_data_ref_body(name: DataRef, count: u32, out: &mut [u8]) -> Result<Edited, Refusal>
    ensures { Answered (held_body (length out.old) (accepted (keyed_data_ref_body name count))) result out.old out.new }
{
    let row = inline_refs::lengths_of(EXTENT_DATA_REF);
    let mut new = [0u8; 32];
    fields::put_u64_le(&mut new, 0, name.tree);
    fields::put_u64_le(&mut new, 8, name.objectid);
    fields::put_u64_le(&mut new, 16, name.offset);
    fields::put_u32_le(&mut new, row.count, count);
    extent_write::put_body(&new[..row.payload], out)
}

pub fn drop_keyed_data_ref(item: &[u8], name: DataRef, out: &mut [u8]) -> Result<Edited, Refusal>
    ensures { Answered (held_body (length out.old) (drop_keyed_data_ref item.now name)) result out.old out.new }
{
    let plan = crate::plan_drop_keyed(item, name);
    crate::write_same(item, plan, out)
}
