// The readers of inline references: the table of the five kinds, a cursor that reads one reference after the other, a reader that
// borrows the body, and the one scan that all calls on a body share.
#![tactic(auto)]

mod count;
mod drop_scan;
mod kinds;
mod lengths;
mod noted;
mod reader;
mod ref_name;
mod scan;
mod start;
mod step;

pub use count::count_refs;
pub use drop_scan::{First, scan_to_drop};
pub use kinds::{Kinds, Lengths};
pub use lengths::{lengths_for, lengths_of};
pub use noted::{AddAt, Found, add_anywhere, add_by_scan, any_others, hit_of};
pub use reader::Reader;
pub use ref_name::{Ranked, RefName, kind_of, names, names_triple, rank_at, rank_of};
pub use scan::{Seen, scan_body, scan_to_add, weight_at};
pub use start::open_body;
pub use step::{Cursor, RefAt};
