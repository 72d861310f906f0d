// Planned edits of a body: an edit is planned first and written later, so that a call on a sheet needs no second buffer.
ghost use Rattle.std.specs.Prelude.{◌≡◌};

use format::Refusal;

// What becomes of a body: the bytes from `from` up to `to` give way to the first `size` of `new`, and the first eight are
// `total`. `count` is the count of a reference that is taken out. `new` is longer than the longest reference, 29 bytes, since two
// whole moves of 16 bytes cost less than two that overlap; it has its length beside it since nothing is allocated.
#[derive(Clone, Copy)]
pub struct BodyEdit {
    pub from: usize,
    pub to: usize,
    pub new: [u8; 32],
    pub size: usize,
    pub total: u64,
    pub count: u32,
}

// What is to be done with a body, where nothing refuses it.
#[derive(Clone, Copy)]
pub enum Plan {
    Edit(BodyEdit),
    Absent,
    Remove,
}

// A planned drop: the plan, and how many are left under the name in what it makes; 0 where it makes nothing.
#[derive(Clone, Copy)]
pub struct DropPlan {
    pub plan: Result<Plan, Refusal>,
    pub left: u64,
}

// A drop without a result leaves nothing to report.
pub fn no_drop(plan: Result<Plan, Refusal>) -> DropPlan
    ensures { result ≡ record { plan = plan; left = 0 } }
{
    DropPlan { plan, left: 0 }
}
