// A further question put to a planned edit, in its place by number.
ghost use Rattle.std.specs.Prelude.{◌≡◌};
ghost use Rattle.ledger.specs.Posting.{first_no, AlsoAsked};

use backref::Plan;
use format::Refusal;

// The refusal where the further question is answered with no: the lower number comes first.
#[tactic(auto, unfolding(crate::specs::Posting::first_no))]
fn first_no(plan: Result<Plan, Refusal>, refusal: Refusal) -> Refusal
    ensures { result.number ≡ first_no plan refusal.number }
{
    match plan {
        Ok(_) => refusal,
        Err(other) => other.min(refusal),
    }
}

pub fn plan_also(plan: Result<Plan, Refusal>, yes: bool, refusal: Refusal) -> Result<Plan, Refusal>
    ensures { AlsoAsked plan yes refusal.number result }
{
    if yes {
        return plan;
    }
    Err(first_no(plan, refusal))
}
