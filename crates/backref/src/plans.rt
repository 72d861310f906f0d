// The plans of a shared reference: question 3 of its kind, then those by the wanted name.
ghost use Rattle.std.specs.Prelude.{◌≡◌, true};
ghost use Rattle.format.specs.Bodies.{add_inline_shared, take_inline_shared, shared_kind};
ghost use Rattle.backref.specs.ByName.{SharedName};
ghost use Rattle.backref.specs.Plans.{Planned, PlannedTaken};

use crate::Plan;
use format::{Refusal, SHARED_BLOCK_REF, SHARED_DATA_REF, SharedRef};
use inline_refs::RefName;

// Whether a kind is a shared reference's.
#[tactic(auto, unfolding(format::specs::Bodies::shared_kind))]
pub fn shared_kind(kind: u8) -> bool
    ensures { result ≡ shared_kind kind }
{
    kind == SHARED_BLOCK_REF || kind == SHARED_DATA_REF
}

// The name of a reference whose kind is shared.
pub fn shared_name(shared: SharedRef) -> RefName
    requires { shared_kind shared.kind ≡ true }
    ensures { SharedName shared result }
{
    if shared.kind == SHARED_BLOCK_REF {
        return RefName::SharedBlock(shared.parent);
    }
    RefName::SharedData(shared.parent)
}

pub fn plan_add_shared(
    item_type: u8,
    body: &[u8],
    name: SharedRef,
    amount: u32,
) -> Result<Plan, Refusal>
    ensures { Planned result body.now (add_inline_shared item_type body.now name amount) }
{
    if !shared_kind(name.kind) {
        return Err(Refusal::RANGE);
    }
    crate::plan_add(item_type, body, shared_name(name), None, amount)
}

pub fn plan_take_shared(item_type: u8, body: &[u8], name: SharedRef) -> Result<Plan, Refusal>
    ensures { PlannedTaken result body.now (take_inline_shared item_type body.now name) }
{
    if !shared_kind(name.kind) {
        return Err(Refusal::RANGE);
    }
    crate::drop_plans::plan_take(item_type, body, shared_name(name))
}
