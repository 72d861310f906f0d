// apply_keyed_add and apply_shared_add.
ghost use Rattle.std.specs.Prelude.{◌≡◌, ◌&&◌, length};
ghost use Rattle.format.specs.Questions.{Answered};
ghost use Rattle.format.specs.Bodies.{shared_kind};
ghost use Rattle.format.specs.Items.{nodesize_fits, held_sheet};
ghost use Rattle.format.specs.Apply.{shared_body, apply_keyed_add_to, apply_shared_add_to};
ghost use Rattle.backref.specs.Plans.{Planned};
ghost use Rattle.transaction.specs.Keyed.{unread, keyed_plan, limit_for};

use super::limit;
use backref::{Plan, TotalChange};
use format::{Edited, ITEM_HEAD, Key, Keyed, Refusal, SharedRef};
use inline_refs::RefName;
use item_list::Splice;

// What question 17 asks of a body that had `size` bytes. Asked only if it grew, the body may stay as long as it was.
#[tactic(auto, unfolding(crate::specs::Keyed::limit_for))]
pub fn limit_for(nodesize: u32, size: usize, grown_only: bool) -> usize
    ensures { result ≡ limit_for nodesize size grown_only }
{
    let limit = limit::inline_limit(nodesize);
    if grown_only {
        return size.max(limit);
    }
    limit
}

fn shared_fits(nodesize: u32, kind: u8) -> bool
    ensures { result ≡ (nodesize_fits nodesize && shared_kind kind) }
{
    item_list::nodesize_fits(nodesize) && backref::shared_kind(kind)
}

// The record's new body. With the item flag only the total moves.
#[tactic(auto, unfolding(format::specs::Apply::shared_body))]
fn plan_shared(
    key: Key,
    body: &[u8],
    name: SharedRef,
    count: u32,
    as_item: bool,
) -> Result<Plan, Refusal>
    ensures { Planned result body.now (shared_body (record { key = key; bytes = body.now }) name count as_item) }
{
    if as_item {
        return backref::plan_total(body, TotalChange::Raise(count as u64));
    }
    backref::plan_add_shared(key.kind, body, name, count)
}

// A shared reference added to an extent's record. The inline limit is asked always.
pub fn apply_shared_add(
    nodesize: u32,
    sheet: &[u8],
    bytenr: u64,
    name: SharedRef,
    count: u32,
    as_item: bool,
    out: &mut [u8],
) -> Result<Edited, Refusal>
    ensures { Answered (held_sheet (length out.old) (apply_shared_add_to nodesize sheet.now bytenr name count as_item)) result out.old out.new }
{
    let three = shared_fits(nodesize, name.kind);
    let Some(found) = record_edit::find_record(sheet, bytenr, three)? else {
        return Err(Refusal::MISSING);
    };
    let target = found.target;
    let body = &sheet[target.start + ITEM_HEAD..target.end];
    let plan = plan_shared(target.key, body, name, count, as_item);
    let limit = limit_for(nodesize, body.len(), false);
    record_edit::put_record(sheet, target, plan, limit, out)
}

// The body is left as it is, read or not.
#[tactic(auto, unfolding(crate::specs::Keyed::unread))]
fn is_unread(keyed: Keyed, count: u32, as_item: bool) -> bool
    ensures { result ≡ unread keyed count as_item }
{
    !as_item && matches!(keyed, Keyed::Data(_)) && count == 0
}

// The record's new body. With the item flag only the total moves.
#[tactic(auto, unfolding(crate::specs::Keyed::keyed_plan, format::specs::Bodies::add_inline_tree_ref))]
fn plan_keyed(
    key: Key,
    body: &[u8],
    keyed: Keyed,
    count: u32,
    as_item: bool,
) -> Result<Plan, Refusal>
    ensures { Planned result body.now (keyed_plan (record { key = key; bytes = body.now }) keyed count as_item) }
{
    if as_item {
        return backref::plan_total(body, TotalChange::Raise(count as u64));
    }
    match keyed {
        Keyed::Block(name) => { backref::plan_add(key.kind, body, RefName::Block(name), None, 1) }
        Keyed::Data(name) => { backref::plan_add(key.kind, body, RefName::Data(name), None, count) }
    }
}

// A reference that names a tree added to an extent's record. The inline limit is asked only if the body grew.
pub fn apply_keyed_add(
    nodesize: u32,
    sheet: &[u8],
    bytenr: u64,
    keyed: Keyed,
    count: u32,
    as_item: bool,
    out: &mut [u8],
) -> Result<Edited, Refusal>
    ensures { Answered (held_sheet (length out.old) (apply_keyed_add_to nodesize sheet.now bytenr keyed count as_item)) result out.old out.new }
{
    let three = item_list::nodesize_fits(nodesize);
    let Some(found) = record_edit::find_record(sheet, bytenr, three)? else {
        return Err(Refusal::MISSING);
    };
    let target = found.target;
    if is_unread(keyed, count, as_item) {
        let nothing = Splice {
            sheet,
            start: 0,
            end: 0,
        };
        return nothing.remove(target.item_count, out);
    }
    let body = &sheet[target.start + ITEM_HEAD..target.end];
    let plan = plan_keyed(target.key, body, keyed, count, as_item);
    let limit = limit_for(nodesize, body.len(), true);
    record_edit::put_record(sheet, target, plan, limit, out)
}
