// What is kept of the extent at hand while its items are read.
ghost use Rattle.std.specs.Prelude.{◌≡◌, eqb};
ghost use Rattle.balance.specs.Groups.{empty, marked_total};

use crate::Span;

// The record of the extent: where in the sheet its data and in it the references stand, and its total.
#[derive(Clone, Copy)]
pub struct Marked {
    pub from: usize,
    pub to: usize,
    pub start: usize,
    pub total: u64,
}

// The extent's record, once it stood; the weight of all references so far; and where those of the type that was looked for last
// stand in the record.
#[derive(Clone, Copy)]
pub struct Group {
    pub extent: u64,
    pub marked: Option<Marked>,
    pub weight: u64,
    pub span: Option<Span>,
}

impl Group {
    // An extent of which no item was read.
    pub fn new(extent: u64) -> Group
        ensures { result ≡ empty extent }
    {
        Group {
            extent,
            marked: None,
            weight: 0,
            span: None,
        }
    }

    // Whether the record's total is the weight of the references.
    pub fn is_closed(&self) -> bool
        ensures { result ≡ eqb (marked_total self.now.marked) self.now.weight }
    {
        match self.marked {
            Some(marked) => marked.total == self.weight,
            None => self.weight == 0,
        }
    }
}
