// The writer of planned edits. It asks question 21, and then writes left to right, once.
ghost use Rattle.std.specs.Prelude.{◌≡◌, ◌+◌, ◌-◌, ◌≤◌, length};
ghost use Rattle.fields.specs.Numbers.{le_bytes};
ghost use Rattle.fields.specs.Parts.{written, spliced};
ghost use Rattle.format.specs.Constants.{most_data};
ghost use Rattle.format.specs.Questions.{Answered, AnsweredDropped, AnsweredTaken, accepted};
ghost use Rattle.format.specs.Bodies.{held_body, held_taken};
ghost use Rattle.backref.specs.Plans.{edited, as_written, plan_answer, plan_taken, EditIn, PlanIn, KeepsLength, dropped_from};

use crate::plan::{BodyEdit, DropPlan, Plan};
use format::{Dropped, Edited, MOST_DATA, Refusal, Taken};

// How long a body of so many bytes is after a planned edit.
pub fn edit_length(edit: BodyEdit, body_len: usize) -> usize
    requires { (edit.from ≤ edit.to) × (edit.to ≤ body_len) × (body_len ≤ most_data) × (edit.size ≤ 29) }
    ensures { result ≡ edit.from + edit.size + (body_len - edit.to) }
{
    edit.from + edit.size + (body_len - edit.to)
}

// The edited body goes to `out` at `at`, from left to right: `total`, then the body with `new` in place of its bytes from `from`
// up to `to`. Returns the position past it. It takes the parts of a plan: a plan handed on whole would be copied.
pub fn put_edit(
    body: &[u8],
    from: usize,
    to: usize,
    new: &[u8],
    total: u64,
    out: &mut [u8],
    at: usize,
) -> usize
    requires le_from { (8 ≤ from) × (from ≤ to) × (to ≤ length body.now) × (length body.now ≤ most_data) × (length new.now ≤ 29) }
    requires to_in_bounds { at + (from + length new.now + (length body.now - to)) ≤ length out.old }
    ensures { (result ≡ at + (from + length new.now + (length body.now - to))) × (out.new ≡ written at (written 0 (le_bytes 8 total) (spliced from to new.now body.now)) out.old) }
{
    fields::put_u64_le(out, at, total);
    let one = fields::append(&body[8..from], out, at + 8);
    let two = fields::append(new, out, one);
    fields::append(&body[to..body.len()], out, two)
}

fn write_edit(body: &[u8], edit: BodyEdit, out: &mut [u8]) -> Result<usize, Refusal>
    requires { EditIn edit body.now }
    ensures { Answered (held_body (length out.old) (accepted (edited edit body.now))) (as_written result) out.old out.new }
{
    let n = edit_length(edit, body.len());
    if out.len() < n {
        return Err(Refusal::NO_ROOM);
    }
    if MOST_DATA < n {
        return Err(Refusal::NO_ROOM);
    }
    let new = edit.new;
    let size = edit.size;
    let end = put_edit(body, edit.from, edit.to, &new[0..size], edit.total, out, 0);
    Ok(end)
}

pub fn write_plan(
    body: &[u8],
    plan: Result<Plan, Refusal>,
    out: &mut [u8],
) -> Result<Edited, Refusal>
    requires { PlanIn plan body.now }
    ensures { Answered (held_body (length out.old) (plan_answer plan body.now)) result out.old out.new }
{
    match plan? {
        Plan::Edit(edit) => Ok(Edited::Written(write_edit(body, edit, out)?)),
        Plan::Absent => Ok(Edited::Absent),
        Plan::Remove => Ok(Edited::Remove),
    }
}

// An edit's answer with how many are left.
#[tactic(auto, unfolding(crate::specs::Plans::dropped_from))]
pub fn with_left(answer: Result<Edited, Refusal>, left: u64) -> Result<Dropped, Refusal>
    ensures { result ≡ dropped_from left answer }
{
    match answer? {
        Edited::Written(size) => Ok(Dropped::Written { size, left }),
        Edited::Absent => Ok(Dropped::Absent),
        Edited::Remove => Ok(Dropped::Remove),
    }
}

pub fn write_dropped(body: &[u8], drop: DropPlan, out: &mut [u8]) -> Result<Dropped, Refusal>
    requires { PlanIn drop.plan body.now }
    ensures { AnsweredDropped (held_body (length out.old) (plan_answer drop.plan body.now)) drop.left result out.old out.new }
{
    let edited = write_plan(body, drop.plan, out);
    with_left(edited, drop.left)
}

// The same with the count of the reference that was taken out. No plan that takes one out is `Remove`, so 101 does not come.
pub fn write_taken(
    body: &[u8],
    plan: Result<Plan, Refusal>,
    out: &mut [u8],
) -> Result<Option<Taken>, Refusal>
    requires { PlanIn plan body.now }
    ensures { AnsweredTaken (held_taken (length out.old) (plan_taken plan body.now)) result out.old out.new }
{
    match plan? {
        Plan::Edit(edit) => {
            let size = write_edit(body, edit, out)?;
            Ok(Some(Taken {
                size,
                count: edit.count,
            }))
        }
        Plan::Absent => Ok(None),
        Plan::Remove => Err(Refusal { number: 101 }),
    }
}

// A body that keeps its length: one copy of it, and then what is new in it.
fn put_same(body: &[u8], edit: BodyEdit, out: &mut [u8])
    requires edit_in { EditIn edit body.now }
    requires size_value { (edit.from + edit.size ≡ edit.to) × (length body.now ≤ length out.old) }
    ensures { out.new ≡ written 0 (edited edit body.now) out.old }
{
    let new = edit.new;
    fields::append(body, out, 0);
    fields::copy_at(&new, 0, edit.size, out, edit.from);
    fields::put_u64_le(out, 0, edit.total);
}

// The writer of plans that keep the body's length. It does what `write_plan` does, and is so short that each call has its own,
// with what its plan leaves out left out.
pub fn write_same(
    body: &[u8],
    plan: Result<Plan, Refusal>,
    out: &mut [u8],
) -> Result<Edited, Refusal>
    requires plan_in { PlanIn plan body.now }
    requires size_value { KeepsLength plan }
    ensures { Answered (held_body (length out.old) (plan_answer plan body.now)) result out.old out.new }
{
    match plan? {
        Plan::Edit(edit) => {
            if out.len() < body.len() {
                return Err(Refusal::NO_ROOM);
            }
            put_same(body, edit, out);
            Ok(Edited::Written(body.len()))
        }
        Plan::Absent => Ok(Edited::Absent),
        Plan::Remove => Ok(Edited::Remove),
    }
}
