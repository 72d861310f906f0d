// What the measuring pass of `split_to_fit` (sheet.rt) hands to the pass that writes the cuts.

// How items are divided into leaves: at the item that the second of two leaves starts with or, if no two leaves hold them, into
// a first leaf and so many more.
#[derive(Clone, Copy)]
pub enum Division {
    TwoWay(usize),
    Leaves(usize),
}
