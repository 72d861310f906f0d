// The calls on a body's total and flags.
ghost use Rattle.std.specs.Prelude.{◌≡◌, length};
ghost use Rattle.format.specs.Questions.{Answered, told_of};
ghost use Rattle.format.specs.Bodies.{held_body, raise_total, lower_total, reduce_total, with_flags};
ghost use Rattle.format.specs.Bodies as bodies;

use crate::{TotalChange, total_plans};
use format::{Edited, Refusal};

pub fn flags(body: &[u8]) -> Result<u64, Refusal>
    ensures { result ≡ told_of (bodies.flags body.now) }
{
    total_plans::ask_head(body)?;
    Ok(fields::get_u64_le(body, 16))
}

pub fn raise_total(body: &[u8], amount: u64, out: &mut [u8]) -> Result<Edited, Refusal>
    ensures { Answered (held_body (length out.old) (raise_total body.now amount)) result out.old out.new }
{
    let plan = total_plans::plan_total(body, TotalChange::Raise(amount));
    crate::write_same(body, plan, out)
}

pub fn lower_total(body: &[u8], out: &mut [u8]) -> Result<Edited, Refusal>
    ensures { Answered (held_body (length out.old) (lower_total body.now)) result out.old out.new }
{
    let plan = total_plans::plan_total(body, TotalChange::LowerByOne);
    crate::write_same(body, plan, out)
}

pub fn reduce_total(body: &[u8], amount: u64, out: &mut [u8]) -> Result<Edited, Refusal>
    ensures { Answered (held_body (length out.old) (reduce_total body.now amount)) result out.old out.new }
{
    let plan = total_plans::plan_total(body, TotalChange::Reduce(amount));
    crate::write_same(body, plan, out)
}

pub fn with_flags(body: &[u8], set: u64, out: &mut [u8]) -> Result<Edited, Refusal>
    ensures { Answered (held_body (length out.old) (with_flags body.now set)) result out.old out.new }
{
    let plan = total_plans::plan_with_flags(body, set);
    crate::write_same(body, plan, out)
}
