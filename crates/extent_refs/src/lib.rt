// Every exported call, for `rt staticlib extent_refs`: an archive holds only the exports of its own crate. An export hands its
// arguments to the function of its name and the answer back as numbers (codes.rt); a change of the ledger comes as numbers
// (changes.rt).
#![tactic(auto)]

mod backref_calls;
mod changes;
mod codes;
mod crc32c_calls;
mod extent_write_calls;
mod leaf_edit_calls;
mod leaf_image_calls;
mod ledger_calls;
mod transaction_calls;

pub use changes::change_of;
pub use codes::{put_edited, put_filed, put_judged, put_picked, put_ranged, put_taken, put_told};
