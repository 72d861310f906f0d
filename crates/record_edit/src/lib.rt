// The one search and the one writer of calls that change an extent's record in an item list (document 01's sheet): the record's
// body is a planned edit, and a second part behind the record may change with it.
#![tactic(auto)]

use format::Key;

mod search;
mod write;

pub use search::find_record;
pub use write::{edit_record, put_record};

// Where an extent's record stands: its key, its first byte, the position past it, and how many items its list has.
#[derive(Clone, Copy)]
pub struct RecordAt {
    pub key: Key,
    pub start: usize,
    pub end: usize,
    pub item_count: usize,
}

// The record of an extent: its item number, and where it stands.
#[derive(Clone, Copy)]
pub struct FoundRecord {
    pub index: usize,
    pub target: RecordAt,
}

// A second edit, behind the record: the bytes from `from` up to `to` give way to the first `size` of `new`.
// `new` has its length beside it since nothing is allocated, and a slice would tie the edit to an array that outlives it.
#[derive(Clone, Copy)]
pub struct SecondEdit {
    pub from: usize,
    pub to: usize,
    pub new: [u8; 4],
    pub size: usize,
}
