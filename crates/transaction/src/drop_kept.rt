// drop_kept_tree_ref: a block reference out of the record of type 169 whose offset is the level.
ghost use Rattle.std.specs.Prelude.{◌≡◌, true, ◌+◌, ◌≤◌, length};
ghost use Rattle.format.specs.Questions.{Answered};
ghost use Rattle.format.specs.Items.{held_sheet};
ghost use Rattle.format.specs.Apply.{drop_tree_ref, drop_kept_tree_ref_from};
ghost use Rattle.item_list.specs.Steps.{list_items};
ghost use Rattle.record_edit.specs.Records.{StandsAt, on_key};
ghost use Rattle.transaction.specs.Drops.{with_own_flag};

use super::drop_refs;
use format::{BlockRef, Edited, FLAG_FULL_BACKREF, Key, METADATA_ITEM, Refusal};
use inline_refs::RefName;
use item_list::ItemQuery;
use record_edit::RecordAt;

// The own-flag set in the flags that stand at `at`.
fn set_own(out: &mut [u8], at: usize)
    requires { at + 8 ≤ length out.old }
    ensures { out.new ≡ with_own_flag at out.old }
{
    let with_own = fields::get_u64_le(out, at) | FLAG_FULL_BACKREF;
    fields::put_u64_le(out, at, with_own);
}

// The drop with the own-flag: no byte moves for it, so it is set in the list that was written.
fn drop_owned(
    sheet: &[u8],
    target: RecordAt,
    name: BlockRef,
    out: &mut [u8],
) -> Result<Edited, Refusal>
    requires { StandsAt sheet.now target }
    ensures { Answered (held_sheet (length out.old) (on_key target.key (list_items sheet.now) (drop_tree_ref name true (list_items sheet.now)))) result out.old out.new }
{
    let edited = drop_refs::drop_ref(sheet, target, RefName::Block(name), 1, out)?;
    if let Edited::Written(_) = edited {
        set_own(out, target.start + 37);
    }
    Ok(edited)
}

// A block reference, inline or else the item (bytenr, 176, tree), with one off the total.
pub fn drop_kept_tree_ref(
    sheet: &[u8],
    bytenr: u64,
    level: u8,
    name: BlockRef,
    own: bool,
    out: &mut [u8],
) -> Result<Edited, Refusal>
    ensures { Answered (held_sheet (length out.old) (drop_kept_tree_ref_from sheet.now bytenr level name own)) result out.old out.new }
{
    let key = Key {
        objectid: bytenr,
        kind: METADATA_ITEM,
        offset: level as u64,
    };
    let listing = item_list::find(sheet, ItemQuery::AtOrPast(key))?;
    let Some(place) = listing.place else {
        return Err(Refusal::MISSING);
    };
    if item_list::is_past(sheet, place.start, key) {
        return Err(Refusal::MISSING);
    }
    let target = RecordAt {
        key,
        start: place.start,
        end: place.end,
        item_count: listing.count,
    };
    if own {
        return drop_owned(sheet, target, name, out);
    }
    drop_refs::drop_ref(sheet, target, RefName::Block(name), 1, out)
}
