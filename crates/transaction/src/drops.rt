// apply_shared_drop.
ghost use Rattle.std.specs.Prelude.{length};
ghost use Rattle.format.specs.Questions.{Answered, bind};
ghost use Rattle.format.specs.Bodies.{reduce_total};
ghost use Rattle.format.specs.Items.{held_sheet};
ghost use Rattle.format.specs.Apply.{shared_rest, apply_shared_drop_to};
ghost use Rattle.backref.specs.Plans.{Planned};

use backref::{Plan, TotalChange};
use format::{Edited, ITEM_HEAD, Key, Refusal, SharedRef};

// The record's new body. A missing reference is refusal 5; with the item flag only the total moves.
#[tactic(auto, unfolding(format::specs::Apply::shared_rest, format::specs::Questions::bind))]
fn plan_drop_shared(
    key: Key,
    body: &[u8],
    name: SharedRef,
    count: u32,
    as_item: bool,
) -> Result<Plan, Refusal>
    ensures { Planned result body.now (bind (shared_rest (record { key = key; bytes = body.now }) name as_item) (λ rest. reduce_total rest count)) }
{
    if as_item {
        return backref::plan_total(body, TotalChange::Reduce(count as u64));
    }
    let taken = backref::plan_take_shared(key.kind, body, name);
    let present = backref::plan_needed(taken);
    backref::plan_reduced(present, count as u64)
}

// A shared reference out of an extent's record, whole, and the count that was passed off the total.
pub fn apply_shared_drop(
    sheet: &[u8],
    bytenr: u64,
    name: SharedRef,
    count: u32,
    as_item: bool,
    out: &mut [u8],
) -> Result<Edited, Refusal>
    ensures { Answered (held_sheet (length out.old) (apply_shared_drop_to sheet.now bytenr name count as_item)) result out.old out.new }
{
    let three = backref::shared_kind(name.kind);
    let Some(found) = record_edit::find_record(sheet, bytenr, three)? else {
        return Err(Refusal::MISSING);
    };
    let target = found.target;
    let body = &sheet[target.start + ITEM_HEAD..target.end];
    let plan = plan_drop_shared(target.key, body, name, count, as_item);
    record_edit::put_record(sheet, target, plan, crate::NO_LIMIT, out)
}
