// The reader and the writer of an item list (document 01's sheet): one step over items at a position, one pass that answers
// questions 1 and 2 and finds an item, a further search in a list that passed them, and one splice.
// Its loops are `while`: each step goes on by the size of the item that it has just read, which a `for` cannot say.
#![tactic(auto)]

mod checking;
mod finding;
mod search;
mod splicing;
mod stepping;

pub use checking::{check, nodesize_fits};
pub use finding::{find, follows};
use format::Key;
pub use search::seek;
pub use splicing::{Splice, append, append_head, room_for};
pub use stepping::{is_past, key_at, size_after, size_at};

// Which item is wanted.
#[derive(Clone, Copy)]
pub enum ItemQuery {
    // The item of a number.
    Index(usize),
    // The record of an extent.
    Record(u64),
    // The first item whose key is this one or a higher one.
    AtOrPast(Key),
}

// Where an item stands: its number, its first byte and the position past it.
#[derive(Clone, Copy)]
pub struct ItemPlace {
    pub index: usize,
    pub start: usize,
    pub end: usize,
}

// The number of items of a list, and where the first wanted one stands, if there is one.
#[derive(Clone, Copy)]
pub struct Listing {
    pub count: usize,
    pub place: Option<ItemPlace>,
}

// Where a key stands, or where an item with it belongs.
// No `Result` and no `Option`: both variants are answers with a position of their own, and neither is an error.
#[derive(Clone, Copy)]
pub enum Sought {
    Present { start: usize, end: usize },
    Absent { at: usize },
}
