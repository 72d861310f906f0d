// One more item of the sheet.
ghost use Rattle.std.specs.Prelude.{◌≡◌, []};
ghost use Rattle.format.specs.Apply.{is_record};
ghost use Rattle.format.specs.Names.{is_ref_item};
ghost use Rattle.item_list.specs.Steps.{item_at};
ghost use Rattle.balance.specs.Groups.{item_of, kept_after, ItemStands, GroupKept, Taking, Turning};

use crate::group::Group;
use crate::item::ItemAt;
use crate::{marking, naming};
use format::{
    EXTENT_DATA_REF, EXTENT_ITEM, Key, METADATA_ITEM, SHARED_BLOCK_REF, SHARED_DATA_REF,
    TREE_BLOCK_REF,
};
use inline_refs::Kinds;

// Whether an item with this key is a record.
#[tactic(auto, unfolding(format::specs::Apply::is_record))]
fn is_record(key: Key) -> bool
    ensures { result ≡ is_record (record { key = key; bytes = [] }) }
{
    matches!(key.kind, EXTENT_ITEM | METADATA_ITEM)
}

// Whether an item with this key is a reference.
#[tactic(auto, unfolding(format::specs::Names::is_ref_item, format::specs::References::known, format::specs::References::row_in))]
fn is_ref(key: Key) -> bool
    ensures { result ≡ is_ref_item (record { key = key; bytes = [] }) }
{
    matches!(
        key.kind,
        TREE_BLOCK_REF | EXTENT_DATA_REF | SHARED_BLOCK_REF | SHARED_DATA_REF
    )
}

// An item of the extent at hand.
fn take(kinds: &Kinds, s: &[u8], item: ItemAt, g: &mut Group) -> Option<()>
    requires item_stands { ItemStands s.now item.at item.next }
    requires group_kept { GroupKept s.now g.old item.at }
    ensures { Taking s.now g.old (item_of s.now item.at item.next item.key) item.next (kept_after result g.new) }
{
    if is_record(item.key) {
        return marking::take_record(kinds, s, item, g);
    }
    if is_ref(item.key) {
        return naming::take_ref(kinds, s, item, g);
    }
    Some(())
}

// The item from `at` up to `next`: a new extent begins where the last one is closed.
pub fn turn(kinds: &Kinds, s: &[u8], at: usize, next: usize, g: &mut Group) -> Option<()>
    requires item_stands { ItemStands s.now at next }
    requires at_value { (item_at s.now at ≡ item_of s.now at next (item_at s.now at).key) × GroupKept s.now g.old at }
    ensures { Turning s.now g.old (item_at s.now at) next (kept_after result g.new) }
{
    let key = item_list::key_at(s, at);
    if key.objectid != g.extent {
        if !g.is_closed() {
            return None;
        }
        *g = Group::new(key.objectid);
    }
    take(kinds, s, ItemAt { at, next, key }, g)
}
