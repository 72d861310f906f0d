// A reference added to the record of an extent.
ghost use Rattle.std.specs.Prelude.{◌≡◌, T, length};
ghost use Rattle.fields.specs.Lists.{all};
ghost use Rattle.format.specs.Questions.{Answered};
ghost use Rattle.format.specs.References.{rank_of};
ghost use Rattle.format.specs.Items.{held_sheet};
ghost use Rattle.format.specs.Names.{balanced};
ghost use Rattle.format.specs.Ledger.{not_its_own, changed};
ghost use Rattle.inline_refs.specs.Scans.{kind_of, fields_of, RankedFor};
ghost use Rattle.item_list.specs.Steps.{list_items};
ghost use Rattle.backref.specs.Plans.{Planned};
ghost use Rattle.record_edit.specs.Records.{StandsFor};
ghost use Rattle.ledger.specs.Posting.{name_in, AskedAdd, add_change, left_unread, added_body, grown_only};

use crate::{also, owned};
use backref::Plan;
use format::{EXTENT_DATA_REF, Edited, ITEM_HEAD, Key, Refusal};
use inline_refs::{Ranked, RefName};
use record_edit::RecordAt;

// Amount 0 of a data reference leaves the body unread.
fn is_unread(wanted: RefName, amount: u32) -> bool
    ensures { result ≡ left_unread wanted amount }
{
    inline_refs::kind_of(wanted) == EXTENT_DATA_REF && amount == 0
}

// The record's new body.
fn plan_add(
    key: Key,
    body: &[u8],
    wanted: RefName,
    ranked: Ranked,
    amount: u32,
) -> Result<Plan, Refusal>
    requires { RankedFor wanted ranked }
    ensures { Planned result body.now (added_body (record { key = key; bytes = body.now }) wanted amount) }
{
    if is_unread(wanted, amount) {
        return Err(Refusal::AMOUNT);
    }
    backref::plan_add(key.kind, body, wanted, Some(ranked), amount)
}

// Questions 9 and 10 of the added reference: no item of its own, and an amount above 0.
fn ask_add(
    plan: Result<Plan, Refusal>,
    sheet: &[u8],
    target: RecordAt,
    extent: u64,
    wanted: RefName,
    rank: u64,
    amount: u32,
) -> Result<Plan, Refusal>
    requires stands_for { StandsFor sheet.now extent target }
    requires t { T (balanced (list_items sheet.now)) }
    requires rank_value { rank ≡ rank_of (kind_of wanted) (fields_of wanted) }
    ensures { AskedAdd plan (all (not_its_own (name_in extent wanted)) (list_items sheet.now)) amount result }
{
    let none = owned::has_none(sheet, target, extent, wanted, rank);
    let ten = also::plan_also(plan, 1 <= amount, Refusal::AMOUNT);
    also::plan_also(ten, none, Refusal::STANDS)
}

// Whether question 17 is asked only if the body grew.
#[tactic(auto, unfolding(crate::specs::Posting::grown_only))]
fn grown_only(wanted: RefName) -> bool
    ensures { result ≡ grown_only wanted }
{
    matches!(wanted, RefName::Block(_) | RefName::Data(_))
}

// The reference added to the record that stands there. A block reference has amount 1.
pub fn add(
    sheet: &[u8],
    target: RecordAt,
    nodesize: u32,
    extent: u64,
    wanted: RefName,
    amount: u32,
    out: &mut [u8],
) -> Result<Edited, Refusal>
    requires stands_for { StandsFor sheet.now extent target }
    requires t { T (balanced (list_items sheet.now)) }
    requires amount_value { kind_of wanted ≡ 176 → amount ≡ 1 }
    ensures { Answered (held_sheet (length out.old) (changed nodesize (add_change extent wanted amount) (list_items sheet.now))) result out.old out.new }
{
    let start = target.start;
    let end = target.end;
    let ranked = inline_refs::rank_of(wanted);
    let plan = plan_add(
        target.key,
        &sheet[start + ITEM_HEAD..end],
        wanted,
        ranked,
        amount,
    );
    let asked = ask_add(plan, sheet, target, extent, wanted, ranked.rank, amount);
    let limit = transaction::limit_for(nodesize, end - (start + ITEM_HEAD), grown_only(wanted));
    record_edit::put_record(sheet, target, asked, limit, out)
}
