// A plan with a further step behind it, so that two edits in a row are written once.
ghost use Rattle.backref.specs.Plans.{Reduces, Needs};

use crate::plan::{BodyEdit, Plan};
use format::Refusal;

// An amount off the total that the plan writes.
pub fn plan_reduced(plan: Result<Plan, Refusal>, amount: u64) -> Result<Plan, Refusal>
    ensures { Reduces plan amount result }
{
    let Plan::Edit(edit) = plan? else {
        return plan;
    };
    if edit.total < amount {
        return Err(Refusal::TOTAL_LOW);
    }
    Ok(Plan::Edit(BodyEdit {
        total: edit.total - amount,
        ..edit
    }))
}

// What is absent is refusal 5.
pub fn plan_needed(plan: Result<Plan, Refusal>) -> Result<Plan, Refusal>
    ensures { Needs plan result }
{
    match plan? {
        Plan::Absent => Err(Refusal::MISSING),
        Plan::Edit(_) | Plan::Remove => plan,
    }
}
