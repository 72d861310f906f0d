// Plans that read no references: the item's type plays no part in them.
ghost use Rattle.std.specs.Prelude.{◌≡◌, ◌-◌, replicate};
ghost use Rattle.format.specs.Questions.{told_of};
ghost use Rattle.fields.specs.Numbers.{le_bytes};
ghost use Rattle.fields.specs.Parts.{written};
ghost use Rattle.format.specs.Bodies.{lowered_by_part, on_total, with_flags};
ghost use Rattle.backref.specs.Plans.{Planned, KeepsLength};
ghost use Rattle.backref.specs.Reads.{head_asked};
ghost use Rattle.backref.specs.Totals.{change_total, total_by, one_asked, part_asked};

use crate::{BodyEdit, Plan};
use format::{BODY_HEAD, MOST_DATA, Refusal};

// What becomes of a total.
#[derive(Clone, Copy)]
pub enum TotalChange {
    Raise(u64),
    LowerByOne,
    Reduce(u64),
}

// Questions 3 and 6 of a call that reads no references.
#[tactic(auto, unfolding(crate::specs::Reads::head_asked, format::specs::Bodies::body_fits))]
pub fn ask_head(body: &[u8]) -> Result<(), Refusal>
    ensures { result ≡ head_asked body.now }
{
    if MOST_DATA < body.len() {
        return Err(Refusal::RANGE);
    }
    if body.len() < BODY_HEAD {
        return Err(Refusal::SHORT);
    }
    Ok(())
}

// Another total.
fn set_total(total: u64) -> Plan
    ensures { result ≡ Plan.Edit (record { from = 8; to = 8; new = replicate 32 0; size = 0; total = total; count = 0 }) }
{
    Plan::Edit(BodyEdit {
        from: 8,
        to: 8,
        new: [0; 32],
        size: 0,
        total,
        count: 0,
    })
}

// The total after a change, if it holds that.
fn changed(total: u64, change: TotalChange) -> Result<u64, Refusal>
    ensures { result ≡ told_of (total_by change total) }
{
    match change {
        TotalChange::Raise(amount) => total.checked_add(amount).ok_or(Refusal::TOTAL_FULL),
        TotalChange::LowerByOne => {
            ask_one(total)?;
            Ok(total - 1)
        }
        TotalChange::Reduce(amount) => total.checked_sub(amount).ok_or(Refusal::TOTAL_LOW),
    }
}

pub fn plan_total(body: &[u8], change: TotalChange) -> Result<Plan, Refusal>
    ensures planned { Planned result body.now (change_total body.now change) }
    ensures keeps_length { KeepsLength result }
{
    ask_head(body)?;
    let total = changed(fields::get_u64_le(body, 0), change)?;
    Ok(set_total(total))
}

// Question 13 of a total that one goes off.
#[tactic(auto, unfolding(crate::specs::Totals::one_asked))]
pub fn ask_one(total: u64) -> Result<(), Refusal>
    ensures { result ≡ one_asked total }
{
    if total < 2 {
        return Err(Refusal::LAST_ONE);
    }
    Ok(())
}

// Questions 10 and 22 of an amount that is taken where so much stands.
#[tactic(auto, unfolding(crate::specs::Totals::part_asked))]
pub fn ask_part(amount: u32, standing: u32) -> Result<(), Refusal>
    ensures { result ≡ part_asked amount standing }
{
    if amount == 0 {
        return Err(Refusal::AMOUNT);
    }
    if standing < amount {
        return Err(Refusal::TOO_MUCH);
    }
    Ok(())
}

// The total with an amount off. In a balanced list no total is below what stands; elsewhere it ends at 0.
pub fn total_less(total: u64, amount: u32) -> u64
    ensures { result ≡ total - amount }
{
    total.saturating_sub(amount as u64)
}

// An amount off the total, where so much stands.
pub fn plan_total_part(body: &[u8], amount: u32, standing: u32) -> Result<Plan, Refusal>
    ensures planned { Planned result body.now (on_total body.now (lowered_by_part amount standing)) }
    ensures keeps_length { KeepsLength result }
{
    ask_head(body)?;
    ask_part(amount, standing)?;
    let total = fields::get_u64_le(body, 0);
    Ok(set_total(total_less(total, amount)))
}

// A number of eight bytes in front of zeros.
fn word_bytes(word: u64) -> [u8; 32]
    ensures { result ≡ written 0 (le_bytes 8 word) (replicate 32 0) }
{
    let mut new = [0; 32];
    fields::put_u64_le(&mut new, 0, word);
    new
}

pub fn plan_with_flags(body: &[u8], set: u64) -> Result<Plan, Refusal>
    ensures planned { Planned result body.now (with_flags body.now set) }
    ensures keeps_length { KeepsLength result }
{
    ask_head(body)?;
    let flags = fields::get_u64_le(body, 16) | set;
    Ok(Plan::Edit(BodyEdit {
        from: 16,
        to: 24,
        new: word_bytes(flags),
        size: 8,
        total: fields::get_u64_le(body, 0),
        count: 0,
    }))
}
