// One change posted: questions 1 to 5 first, then the change's own.
ghost use Rattle.std.specs.Prelude.{◌≡◌, ◌&&◌, T, length};
ghost use Rattle.format.specs.Questions.{Answered};
ghost use Rattle.format.specs.Items.{nodesize_fits, held_sheet};
ghost use Rattle.format.specs.Names.{balanced};
ghost use Rattle.format.specs.Ledger.{name_of, kind_fits, changed};
ghost use Rattle.item_list.specs.Steps.{IsList, list_items};
ghost use Rattle.record_edit.specs.Records.{StandsFor};
ghost use Rattle.ledger.specs.Posting.{balance_asked};
ghost use Rattle.theorems.specs.Calls.{CallKept};

use crate::adds;
use format::{Change, Edited, Refusal};
use inline_refs::RefName;
use record_edit::RecordAt;

#[tactic(auto, unfolding(format::specs::Ledger::kind_fits))]
fn kind_fits(change: Change) -> bool
    ensures { result ≡ kind_fits change }
{
    match change {
        Change::AddShared { name, .. } | Change::DropShared { name, .. } => {
            backref::shared_kind(name.kind)
        }
        Change::AddBlock { .. }
        | Change::AddData { .. }
        | Change::DropBlock { .. }
        | Change::DropData { .. } => true,
    }
}

// Question 3, put to the nodesize of drops too.
fn change_fits(nodesize: u32, change: Change) -> bool
    ensures { result ≡ (nodesize_fits nodesize && kind_fits change) }
{
    item_list::nodesize_fits(nodesize) && kind_fits(change)
}

#[tactic(auto, unfolding(format::specs::Ledger::name_of))]
fn extent_of(change: Change) -> u64
    ensures { result ≡ (name_of change).extent }
{
    match change {
        Change::AddBlock { extent, .. }
        | Change::AddData { extent, .. }
        | Change::AddShared { extent, .. }
        | Change::DropBlock { extent, .. }
        | Change::DropData { extent, .. }
        | Change::DropShared { extent, .. } => extent,
    }
}

// The change to the record that stands there.
fn change_at(
    sheet: &[u8],
    target: RecordAt,
    nodesize: u32,
    change: Change,
    out: &mut [u8],
) -> Result<Edited, Refusal>
    requires stands_for { StandsFor sheet.now (name_of change).extent target }
    requires t { T (balanced (list_items sheet.now)) }
    requires t_2 { T (kind_fits change) }
    ensures { Answered (held_sheet (length out.old) (changed nodesize change (list_items sheet.now))) result out.old out.new }
{
    match change {
        Change::AddBlock { extent, name } => {
            let wanted = RefName::Block(name);
            adds::add(sheet, target, nodesize, extent, wanted, 1, out)
        }
        Change::AddData {
            extent,
            name,
            amount,
        } => {
            let wanted = RefName::Data(name);
            adds::add(sheet, target, nodesize, extent, wanted, amount, out)
        }
        Change::AddShared {
            extent,
            name,
            amount,
        } => {
            let wanted = backref::shared_name(name);
            adds::add(sheet, target, nodesize, extent, wanted, amount, out)
        }
        Change::DropBlock { name, .. } => {
            transaction::drop_ref(sheet, target, RefName::Block(name), 1, out)
        }
        Change::DropData { name, .. } => {
            transaction::drop_ref(sheet, target, RefName::Data(name), 1, out)
        }
        Change::DropShared { name, amount, .. } => {
            let wanted = backref::shared_name(name);
            transaction::drop_ref(sheet, target, wanted, amount, out)
        }
    }
}

// Question 4. The check of balance is called from here alone, so that the compiler inlines it; called from two places it takes
// twice the time.
#[tactic(auto, unfolding(crate::specs::Posting::balance_asked))]
fn ask_balanced(sheet: &[u8]) -> Result<(), Refusal>
    requires { IsList sheet.now }
    ensures { result ≡ balance_asked (balanced (list_items sheet.now)) }
{
    if balance::balanced(sheet) {
        return Ok(());
    }
    Err(Refusal::UNBALANCED)
}

// Document 01's posting: the sheet with the change, into `out`.
pub fn post(sheet: &[u8], nodesize: u32, change: Change, out: &mut [u8]) -> Result<Edited, Refusal>
    ensures { CallKept sheet.now (record { nodesize = nodesize; change = change; old = out.old; new = out.new; result = result }) }
{
    let three = change_fits(nodesize, change);
    let found = record_edit::find_record(sheet, extent_of(change), three)?;
    ask_balanced(sheet)?;
    let Some(record) = found else {
        return Err(Refusal::MISSING);
    };
    change_at(sheet, record.target, nodesize, change, out)
}
