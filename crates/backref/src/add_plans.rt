// Plans that add references.
ghost use Rattle.std.specs.Prelude.{◌≡◌, ◌||◌, not, eqb};
ghost use Rattle.format.specs.References.{counted};
ghost use Rattle.inline_refs.specs.Scans.{kind_of, KnownFor};
ghost use Rattle.backref.specs.Plans.{Planned};
ghost use Rattle.backref.specs.ByName.{by_scan, add_at_of, PutsRef, Raised, raised_count, add_inline, add_keyed};

use crate::{BodyEdit, Plan};
use format::{EXTENT_DATA_REF, Refusal};
use inline_refs::{AddAt, Ranked, RefName, Seen};

// Question 10: amount 1 where the kind has no count.
fn may_add(wanted: RefName, amount: u32) -> bool
    ensures { result ≡ counted (kind_of wanted) || eqb amount 1 }
{
    crate::new_bytes::counts(wanted) || amount == 1
}

fn add_at(seen: Seen, end: usize, wanted: RefName) -> AddAt
    ensures { result ≡ add_at_of (by_scan wanted) end seen }
{
    if inline_refs::kind_of(wanted) == EXTENT_DATA_REF {
        return inline_refs::add_by_scan(seen, end);
    }
    inline_refs::add_anywhere(seen, end)
}

// The reference with its count between two positions, and the total.
fn edit_put(from: usize, to: usize, wanted: RefName, count: u32, total: u64) -> Plan
    ensures { PutsRef from to wanted count total result }
{
    Plan::Edit(BodyEdit {
        from,
        to,
        new: crate::new_bytes::bytes_of(wanted, count),
        size: crate::new_bytes::size_of(wanted),
        total,
        count: 0,
    })
}

// The same with the amount added to the total, if that holds the sum.
fn edit_raised(
    from: usize,
    to: usize,
    wanted: RefName,
    count: u32,
    total: u64,
    amount: u32,
) -> Result<Plan, Refusal>
    ensures { Raised from to wanted count total amount result }
{
    let Some(raised) = total.checked_add(amount as u64) else {
        return Err(Refusal::TOTAL_FULL);
    };
    Ok(edit_put(from, to, wanted, count, raised))
}

// Questions 9 and 11 of a reference that stands: its count with the amount added, if it has one that holds the sum.
#[tactic(auto, unfolding(crate::specs::ByName::raised_count))]
fn raised_count(wanted: RefName, weight: u32, amount: u32) -> Result<u32, Refusal>
    ensures { result ≡ raised_count wanted weight amount }
{
    if !crate::new_bytes::counts(wanted) {
        return Err(Refusal::STANDS);
    }
    weight.checked_add(amount).ok_or(Refusal::COUNT_FULL)
}

// The amount is added at one name, and to the total.
pub fn plan_add(
    item_type: u8,
    body: &[u8],
    wanted: RefName,
    known: Option<Ranked>,
    amount: u32,
) -> Result<Plan, Refusal>
    requires { KnownFor wanted known }
    ensures { Planned result body.now (add_inline item_type body.now wanted amount) }
{
    let seen = inline_refs::scan_to_add(item_type, body, wanted, known)?;
    let total = fields::get_u64_le(body, 0);
    match add_at(seen, body.len(), wanted) {
        AddAt::Gap(at) => {
            if !may_add(wanted, amount) {
                return Err(Refusal::AMOUNT);
            }
            edit_raised(at, at, wanted, amount, total, amount)
        }
        AddAt::Standing(found) => {
            let count = raised_count(wanted, found.weight, amount)?;
            edit_raised(found.at, found.next, wanted, count, total, amount)
        }
    }
}

// Question 10 of a keyed reference: no other one of its kind stands, if the kind has a count.
fn may_key(wanted: RefName, others: bool) -> bool
    ensures { result ≡ not (counted (kind_of wanted)) || not others }
{
    !crate::new_bytes::counts(wanted) || !others
}

// The same where the total stays.
pub fn plan_add_keyed(
    item_type: u8,
    body: &[u8],
    wanted: RefName,
    rank: u64,
    amount: u32,
) -> Result<Plan, Refusal>
    ensures { Planned result body.now (add_keyed item_type body.now wanted rank amount) }
{
    let seen = inline_refs::scan_body(item_type, body, wanted, rank)?;
    let total = fields::get_u64_le(body, 0);
    match inline_refs::add_anywhere(seen, body.len()) {
        AddAt::Gap(at) => {
            if !may_key(wanted, inline_refs::any_others(seen)) {
                return Err(Refusal::AMOUNT);
            }
            Ok(edit_put(at, at, wanted, amount, total))
        }
        AddAt::Standing(found) => {
            let count = raised_count(wanted, found.weight, amount)?; // the total stays: 12 is not put
            Ok(edit_put(found.at, found.next, wanted, count, total))
        }
    }
}
