// Plans that take references away.
ghost use Rattle.std.specs.Prelude.{◌≡◌};
ghost use Rattle.backref.specs.Plans.{Planned, PlannedTaken};
ghost use Rattle.backref.specs.ByName.{OneOff, drop_asked, drop_named, take_inline};

use crate::{BodyEdit, Plan, new_bytes, total_plans};
use format::Refusal;
use inline_refs::RefName;

// The questions of a drop: 13 of a block or data reference, 10 and 22 of a shared one.
#[tactic(auto, unfolding(crate::specs::ByName::drop_asked))]
fn ask_drop(wanted: RefName, amount: u32, weight: u32, total: u64) -> Result<(), Refusal>
    ensures { result ≡ drop_asked wanted amount weight total }
{
    match wanted {
        RefName::Block(_) => total_plans::ask_one(total),
        RefName::Data(_) => total_plans::ask_one(total),
        RefName::SharedBlock(_) => total_plans::ask_part(amount, weight),
        RefName::SharedData(_) => total_plans::ask_part(amount, weight),
    }
}

// So much off the wanted reference, and off the total: one of a block or data reference. Place 0: no gap is looked for, so no
// hash is computed.
pub fn plan_drop(item_type: u8, body: &[u8], wanted: RefName, amount: u32) -> Result<Plan, Refusal>
    requires { OneOff wanted amount }
    ensures { Planned result body.now (drop_named item_type body.now wanted amount) }
{
    let seen = inline_refs::scan_body(item_type, body, wanted, 0)?;
    let Some(found) = inline_refs::hit_of(seen) else {
        return Ok(Plan::Absent);
    };
    let total = fields::get_u64_le(body, 0);
    ask_drop(wanted, amount, found.weight, total)?;
    let rest = total_plans::total_less(total, amount);
    let gone = BodyEdit {
        from: found.at,
        to: found.next,
        new: [0; 32],
        size: 0,
        total: rest,
        count: 0,
    };
    if found.weight <= amount {
        return Ok(Plan::Edit(gone));
    }
    Ok(Plan::Edit(BodyEdit {
        new: new_bytes::bytes_of(wanted, found.weight - amount),
        size: new_bytes::size_of(wanted),
        ..gone
    }))
}

// The wanted reference goes whole, and the total stays.
pub fn plan_take(item_type: u8, body: &[u8], wanted: RefName) -> Result<Plan, Refusal>
    ensures { PlannedTaken result body.now (take_inline item_type body.now wanted) }
{
    let seen = inline_refs::scan_body(item_type, body, wanted, 0)?;
    let Some(taken) = inline_refs::hit_of(seen) else {
        return Ok(Plan::Absent);
    };
    Ok(Plan::Edit(BodyEdit {
        from: taken.at,
        to: taken.next,
        new: [0; 32],
        size: 0,
        total: fields::get_u64_le(body, 0),
        count: taken.weight,
    }))
}
