// The calls that write an edited body to a lent output.
ghost use Rattle.std.specs.Prelude.{length};
ghost use Rattle.format.specs.Questions.{Answered, AnsweredTaken};
ghost use Rattle.format.specs.Bodies.{held_body, drop_inline_tree_ref, drop_inline_data_ref, add_inline_tree_ref, add_inline_data_ref, add_inline_shared, add_inline_keyed, held_taken, take_inline_shared};
ghost use Rattle.backref.specs.ByName.{add_keyed};

use format::{BlockRef, DataRef, Edited, Keyed, Refusal, SharedRef, Taken};
use inline_refs::RefName;

pub fn drop_inline_tree_ref(
    item_type: u8,
    body: &[u8],
    tree: u64,
    out: &mut [u8],
) -> Result<Edited, Refusal>
    ensures { Answered (held_body (length out.old) (drop_inline_tree_ref item_type body.now (record { tree = tree }))) result out.old out.new }
{
    let plan = crate::plan_drop(item_type, body, RefName::Block(BlockRef { tree }), 1);
    crate::write_plan(body, plan, out)
}

pub fn drop_inline_data_ref(
    item_type: u8,
    body: &[u8],
    name: DataRef,
    out: &mut [u8],
) -> Result<Edited, Refusal>
    ensures { Answered (held_body (length out.old) (drop_inline_data_ref item_type body.now name)) result out.old out.new }
{
    let plan = crate::plan_drop(item_type, body, RefName::Data(name), 1);
    crate::write_plan(body, plan, out)
}

#[tactic(auto, unfolding(format::specs::Bodies::add_inline_tree_ref))]
pub fn add_inline_tree_ref(
    item_type: u8,
    body: &[u8],
    tree: u64,
    out: &mut [u8],
) -> Result<Edited, Refusal>
    ensures { Answered (held_body (length out.old) (add_inline_tree_ref item_type body.now (record { tree = tree }))) result out.old out.new }
{
    let wanted = RefName::Block(BlockRef { tree });
    let plan = crate::plan_add(item_type, body, wanted, None, 1);
    crate::write_plan(body, plan, out)
}

#[tactic(auto, unfolding(format::specs::Bodies::add_inline_data_ref))]
pub fn add_inline_data_ref(
    item_type: u8,
    body: &[u8],
    name: DataRef,
    out: &mut [u8],
) -> Result<Edited, Refusal>
    ensures { Answered (held_body (length out.old) (add_inline_data_ref item_type body.now name)) result out.old out.new }
{
    let plan = crate::plan_add(item_type, body, RefName::Data(name), None, 1);
    crate::write_plan(body, plan, out)
}

pub fn add_inline_shared(
    item_type: u8,
    body: &[u8],
    name: SharedRef,
    count: u32,
    out: &mut [u8],
) -> Result<Edited, Refusal>
    ensures { Answered (held_body (length out.old) (add_inline_shared item_type body.now name count)) result out.old out.new }
{
    let plan = crate::plans::plan_add_shared(item_type, body, name, count);
    crate::write_plan(body, plan, out)
}

// What both cases of `add_inline_keyed` come to. It stands apart so that the enum is taken apart in the caller, where the compiler
// still has its fields as numbers; copied from one enum to the other in memory they cost up to a fifth of a short call.
fn add_keyed(
    item_type: u8,
    body: &[u8],
    wanted: RefName,
    rank: u64,
    count: u32,
    out: &mut [u8],
) -> Result<Edited, Refusal>
    ensures { Answered (held_body (length out.old) (add_keyed item_type body.now wanted rank count)) result out.old out.new }
{
    let plan = crate::plan_add_keyed(item_type, body, wanted, rank, count);
    crate::write_plan(body, plan, out)
}

// A block reference ignores the count. A data reference that is the only one goes before the first higher type: rank 0.
pub fn add_inline_keyed(
    item_type: u8,
    body: &[u8],
    keyed: Keyed,
    count: u32,
    out: &mut [u8],
) -> Result<Edited, Refusal>
    ensures { Answered (held_body (length out.old) (add_inline_keyed item_type body.now keyed count)) result out.old out.new }
{
    match keyed {
        Keyed::Block(name) => {
            add_keyed(item_type, body, RefName::Block(name), name.tree, 1, out)
        }
        Keyed::Data(name) => add_keyed(item_type, body, RefName::Data(name), 0, count, out),
    }
}

pub fn take_inline_shared(
    item_type: u8,
    body: &[u8],
    name: SharedRef,
    out: &mut [u8],
) -> Result<Option<Taken>, Refusal>
    ensures { AnsweredTaken (held_taken (length out.old) (take_inline_shared item_type body.now name)) result out.old out.new }
{
    let plan = crate::plans::plan_take_shared(item_type, body, name);
    crate::write_taken(body, plan, out)
}
