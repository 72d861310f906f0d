// Question 9 of the ledger: has a name an item of its own?
ghost use Rattle.std.specs.Prelude.{◌≡◌, true, ◌+◌, ◌≤◌, T, length};
ghost use Rattle.fields.specs.Lists.{all};
ghost use Rattle.format.specs.Names.{balanced};
ghost use Rattle.format.specs.References.{rank_of};
ghost use Rattle.format.specs.Ledger.{not_its_own};
ghost use Rattle.inline_refs.specs.Scans.{kind_of, fields_of};
ghost use Rattle.item_list.specs.Steps.{list_items};
ghost use Rattle.record_edit.specs.Records.{StandsFor};
ghost use Rattle.ledger.specs.Posting.{name_in, is_own_item};

use format::{ITEM_HEAD, Key};
use inline_refs::RefName;
use item_list::Sought;
use record_edit::RecordAt;

// Whether an item with these bytes that stands there is of that name. Two triples may have one hash.
#[tactic(auto, unfolding(crate::specs::Posting::is_own_item, inline_refs::specs::Scans::kind_of))]
fn is_own(wanted: RefName, bytes: &[u8]) -> bool
    requires { kind_of wanted ≡ 178 → 24 ≤ length bytes.now }
    ensures { result ≡ is_own_item wanted bytes.now }
{
    match wanted {
        RefName::Data(name) => inline_refs::names_triple(name, bytes, 0),
        RefName::Block(_) | RefName::SharedBlock(_) | RefName::SharedData(_) => true,
    }
}

// The search starts behind the record: the key of each of its references is above its own.
pub fn has_none(sheet: &[u8], target: RecordAt, extent: u64, wanted: RefName, rank: u64) -> bool
    requires stands_for { StandsFor sheet.now extent target }
    requires t { T (balanced (list_items sheet.now)) }
    requires rank_value { rank ≡ rank_of (kind_of wanted) (fields_of wanted) }
    ensures { result ≡ all (not_its_own (name_in extent wanted)) (list_items sheet.now) }
{
    let key = Key {
        objectid: extent,
        kind: inline_refs::kind_of(wanted),
        offset: rank,
    };
    match item_list::seek(sheet, target.end, key) {
        Sought::Absent { .. } => true,
        Sought::Present { start, end } => !is_own(wanted, &sheet[start + ITEM_HEAD..end]),
    }
}
