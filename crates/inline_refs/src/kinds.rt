// The table of the five kinds of inline reference. A constant array is copied to the stack where it is used, so a public call
// makes one copy and lends it down.
ghost use Rattle.std.specs.Prelude.{◌≡◌};
ghost use Rattle.format.specs.References.{kinds};

use format::{
    EXTENT_DATA_REF, EXTENT_OWNER_REF, SHARED_BLOCK_REF, SHARED_DATA_REF, TREE_BLOCK_REF,
};

// Type, payload length, and where in the payload the count stands (0: no count).
const KINDS: [[u8; 3]; 5] = [
    [EXTENT_OWNER_REF, 8, 0],
    [TREE_BLOCK_REF, 8, 0],
    [EXTENT_DATA_REF, 28, 24],
    [SHARED_BLOCK_REF, 8, 0],
    [SHARED_DATA_REF, 12, 8],
];

// A copy of the table.
#[derive(Clone, Copy)]
pub struct Kinds {
    rows: [[u8; 3]; 5],
    ghost table: { rows ≡ kinds },
}

// What the table says of a kind: how long its payload is, and where in it the count stands (0: no count).
#[derive(Clone, Copy)]
pub struct Lengths {
    pub payload: usize,
    pub count: usize,
}

impl Kinds {
    ghost use Rattle.format.specs.References.{row_in};
    ghost use Rattle.inline_refs.specs.Steps.{row_from};

    pub fn new() -> Kinds {
        Kinds { rows: KINDS }
    }

    pub fn row_of(&self, kind: u8) -> Option<Lengths>
        ensures { result ≡ row_from (row_in kinds kind) }
    {
        for row in &self.rows {
            if row[0] == kind {
                return Some(Lengths {
                    payload: row[1] as usize,
                    count: row[2] as usize,
                });
            }
        }
        None
    }
}
