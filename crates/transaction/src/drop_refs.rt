// A reference dropped: inline, or else at its own item.
ghost use Rattle.std.specs.Prelude.{length};
ghost use Rattle.format.specs.Questions.{Answered};
ghost use Rattle.format.specs.Items.{held_sheet};
ghost use Rattle.item_list.specs.Steps.{list_items};
ghost use Rattle.backref.specs.ByName.{OneOff};
ghost use Rattle.record_edit.specs.Records.{StandsAt, on_key};
ghost use Rattle.transaction.specs.Drops.{drop_ref, SharedInForm};

use super::own_item::OwnItem;
use format::{Edited, ITEM_HEAD, Key, Refusal};
use inline_refs::RefName;
use item_list::Sought;
use record_edit::RecordAt;

// So much of a shared reference, or one of another. The plan goes on whole: to look at its outcome here would copy it.
pub fn drop_ref(
    sheet: &[u8],
    target: RecordAt,
    name: RefName,
    amount: u32,
    out: &mut [u8],
) -> Result<Edited, Refusal>
    requires stands_at { StandsAt sheet.now target }
    requires one_off { OneOff name amount }
    requires shared_in_form { SharedInForm name (list_items sheet.now) }
    ensures { Answered (held_sheet (length out.old) (on_key target.key (list_items sheet.now) (drop_ref name amount (list_items sheet.now)))) result out.old out.new }
{
    let body = &sheet[target.start + ITEM_HEAD..target.end];
    let plan = backref::plan_drop(target.key.kind, body, name, amount);
    let edited = record_edit::put_record(sheet, target, plan, crate::NO_LIMIT, out)?;
    let Edited::Absent = edited else {
        return Ok(edited);
    };
    let item = Key {
        objectid: target.key.objectid,
        kind: inline_refs::kind_of(name),
        offset: inline_refs::rank_of(name).rank,
    };
    let Sought::Present { start, end } = item_list::seek(sheet, target.end, item) else {
        return Err(Refusal::MISSING);
    };
    let own = OwnItem {
        sheet,
        target,
        from: start,
        to: end,
    };
    own.drop_ref(name, amount, out)
}
