// The calls of `leaf_edit.rs` on an item list (document 01's sheet): another list, one item, whether it fits a leaf, and cuts into
// leaves.
#![tactic(auto)]

mod division;
mod editing;
mod fitting;
mod halves;
mod lookup;
mod sheet;
mod two_way;
mod whole;

pub use division::Division;
pub use editing::{delete, insert, insert_unbounded};
pub use fitting::{fit, fits};
pub use halves::split;
pub use lookup::{ItemRange, item, item_range};
pub use sheet::Sheet;
pub use whole::split_to_fit;

// Where a new item goes and how many items there are.
#[derive(Clone, Copy)]
pub struct InsertAt {
    pub at: usize,
    pub count: usize,
}
