// `record_of` and the calls of `transaction.rs`: those that change an extent's record in an item list (document 01's sheet), and
// those on a body or a kind alone.
#![tactic(auto)]

mod adds;
mod drop_kept;
mod drop_refs;
mod drops;
mod held;
mod held_counts;
mod held_refs;
mod keyed_names;
mod limit;
mod own_item;
mod record_index;
mod shared_adds;

pub use adds::{apply_keyed_add, apply_shared_add, limit_for};
pub use drop_kept::drop_kept_tree_ref;
pub use drop_refs::drop_ref;
pub use drops::apply_shared_drop;
pub use held::held_only_by;
pub use keyed_names::keyed_data_ref_names;
pub use limit::max_inline_extent_item;
pub use record_index::record_of;
pub use shared_adds::{shared_add_inline_size, shared_add_item, shared_add_key};

// Question 17 is not asked: a planned body has at most 65,564 bytes. No `Option`: this limit needs no case of its own.
const NO_LIMIT: usize = 65564;
