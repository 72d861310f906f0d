// Whether a sheet is balanced, in one pass over its items. The definition as such a pass is in specs/, proved equal to it by sums.
#![tactic(auto)]

mod group;
mod item;
mod marking;
mod naming;
mod record;
mod reference;
mod search;
mod span;
mod together;
mod turning;
mod walk;

pub use record::weigh_refs;
pub use search::{first_below, stands};
pub use span::{Span, span_for, stride};
pub use walk::balanced;
