// Plans of drops that say how many are left: so much off a reference, by what goes off.
ghost use Rattle.std.specs.Prelude.{◌≡◌};
ghost use Rattle.backref.specs.Offs.{off_of, off_asked, amount_off, total_off, PlannedOff};

use crate::{BodyEdit, DropPlan, Plan, new_bytes, no_drop, total_plans};
use format::Refusal;
use inline_refs::RefName;

// What goes off a reference: one; an amount, off a shared one; or all of it, where the total stays.
#[derive(Clone, Copy)]
pub enum Off {
    One,
    Part(u32),
    Whole,
}

// What a drop takes off: one of a block or data reference, the amount of a shared one.
#[tactic(auto, unfolding(crate::specs::Offs::off_of))]
pub fn off_of(wanted: RefName, amount: u32) -> Off
    ensures { result ≡ off_of wanted amount }
{
    match wanted {
        RefName::Block(_) => Off::One,
        RefName::Data(_) => Off::One,
        RefName::SharedBlock(_) => Off::Part(amount),
        RefName::SharedData(_) => Off::Part(amount),
    }
}

// The questions of it: 13, or 10 and 22, or none.
#[tactic(auto, unfolding(crate::specs::Offs::off_asked))]
fn ask_off(off: Off, weight: u32, total: u64) -> Result<(), Refusal>
    ensures { result ≡ off_asked off weight total }
{
    match off {
        Off::One => total_plans::ask_one(total),
        Off::Part(amount) => total_plans::ask_part(amount, weight),
        Off::Whole => Ok(()),
    }
}

// How much that is; no count is above the highest number.
#[tactic(auto, unfolding(crate::specs::Offs::amount_off))]
fn amount_off(off: Off) -> u32
    ensures { result ≡ amount_off off }
{
    match off {
        Off::One => 1,
        Off::Part(amount) => amount,
        Off::Whole => 4294967295,
    }
}

// The new total.
#[tactic(auto, unfolding(crate::specs::Offs::total_off))]
fn total_off(off: Off, total: u64) -> u64
    ensures { result ≡ total_off off total }
{
    match off {
        Off::One => total_plans::total_less(total, 1),
        Off::Part(amount) => total_plans::total_less(total, amount),
        Off::Whole => total,
    }
}

// So much off the wanted reference, and how many are left under its name.
pub fn plan_off(item_type: u8, body: &[u8], wanted: RefName, off: Off) -> DropPlan
    ensures { PlannedOff result item_type body.now wanted off }
{
    let first = match inline_refs::scan_to_drop(item_type, body, wanted) {
        Err(refusal) => return no_drop(Err(refusal)),
        Ok(None) => return no_drop(Ok(Plan::Absent)),
        Ok(Some(first)) => first,
    };
    let found = first.found;
    let total = fields::get_u64_le(body, 0);
    if let Err(refusal) = ask_off(off, found.weight, total) {
        return no_drop(Err(refusal));
    }
    let amount = amount_off(off);
    let rest = total_off(off, total);
    let gone = BodyEdit {
        from: found.at,
        to: found.next,
        new: [0; 32],
        size: 0,
        total: rest,
        count: found.weight,
    };
    if found.weight <= amount {
        return DropPlan {
            plan: Ok(Plan::Edit(gone)),
            left: first.behind,
        };
    }
    let less = BodyEdit {
        new: new_bytes::bytes_of(wanted, found.weight - amount),
        size: new_bytes::size_of(wanted),
        ..gone
    };
    DropPlan {
        plan: Ok(Plan::Edit(less)),
        left: first.behind + (found.weight - amount) as u64,
    }
}
