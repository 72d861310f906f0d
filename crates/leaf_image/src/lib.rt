// Leaves as they stand on the card, by the btrfs format: an image read to an item list (document 01's sheet), and one written from it.
#![tactic(auto)]

mod checking;
mod headers;
mod reading;
mod writing;

pub use reading::read;
pub use writing::write;

// What questions 24 and 2 of an image show: the number of its items and the length of the item list that they make.
#[derive(Clone, Copy)]
pub struct Packed {
    pub count: usize,
    pub size: usize,
}
