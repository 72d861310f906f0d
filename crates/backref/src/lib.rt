// The calls on bodies: each plans its edit and writes it once. Where references stand, and one of them by its number.
#![tactic(auto)]

mod add_plans;
mod asks;
mod calls;
mod drop_plans;
mod further;
mod keyed;
mod keyed_plans;
mod new_bytes;
mod offs;
mod pick;
mod plan;
mod plans;
mod positions;
mod total_calls;
mod total_plans;
mod write;

pub use add_plans::{plan_add, plan_add_keyed};
pub use asks::holds_inline_data_ref;
pub use calls::{
    add_inline_data_ref, add_inline_keyed, add_inline_shared, add_inline_tree_ref,
    drop_inline_data_ref, drop_inline_tree_ref, take_inline_shared,
};
pub use drop_plans::plan_drop;
pub use further::{plan_needed, plan_reduced};
pub use keyed::{drop_keyed_data_ref, keyed_data_ref_body};
pub use keyed_plans::plan_drop_keyed;
pub use offs::{Off, off_of, plan_off};
pub use pick::{inline_payload, inline_ref};
pub use plan::{BodyEdit, DropPlan, Plan, no_drop};
pub use plans::{plan_add_shared, plan_take_shared, shared_kind, shared_name};
pub use positions::inline_refs;
pub use total_calls::{flags, lower_total, raise_total, reduce_total, with_flags};
pub use total_plans::{TotalChange, plan_total, plan_total_part};
pub use write::{
    edit_length, put_edit, with_left, write_dropped, write_plan, write_same, write_taken,
};
