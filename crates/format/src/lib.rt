// The declared types that the definitions in specs/ and the functions of the crates above share: keys, the names of
// references, changes, and what calls answer.
#![tactic(auto)]

use std::fmt;

// Types of items and of inline references (btrfs's key types).
pub const EXTENT_ITEM: u8 = 168;

pub const METADATA_ITEM: u8 = 169;

pub const EXTENT_OWNER_REF: u8 = 172;

pub const TREE_BLOCK_REF: u8 = 176;

pub const EXTENT_DATA_REF: u8 = 178;

pub const SHARED_BLOCK_REF: u8 = 182;

pub const SHARED_DATA_REF: u8 = 184;

// Flags of an extent.
pub const FLAG_DATA: u64 = 1;

pub const FLAG_TREE_BLOCK: u64 = 2;

pub const FLAG_FULL_BACKREF: u64 = 256;

// What stands before an item's data (its length and key), and before a body's references (total, generation, flags).
pub const ITEM_HEAD: usize = 21;

pub const BODY_HEAD: usize = 24;

// What stands before the item headers of a leaf as the card has it, and an item's header there (btrfs's leaf header and item).
pub const LEAF_HEADER: usize = 101;

pub const ITEM_HEADER: usize = 25;

// The longest body, the longest item list (document 01's sheet) and the most items in it.
pub const MOST_DATA: usize = 65535;

pub const MOST_SHEET: usize = 262144;

pub const MOST_ITEMS: usize = 4096;

// The most offsets that `held_only_by` takes.
pub const MOST_OFFSETS: usize = 4096;

// The key of an item. Keys compare by objectid, kind, offset; `kind` is document 01's type.
#[derive(Clone, Copy, PartialEq, Eq, PartialOrd, Ord, Default)]
pub struct Key {
    pub objectid: u64,
    pub kind: u8,
    pub offset: u64,
}

// What names a tree block's reference (176).
#[derive(Clone, Copy)]
pub struct BlockRef {
    pub tree: u64,
}

// What names a data reference (178): document 01's triple.
#[derive(Clone, Copy)]
pub struct DataRef {
    pub tree: u64,
    pub objectid: u64,
    pub offset: u64,
}

// What names a shared reference: its kind, 182 or 184, and the block that holds the pointer.
#[derive(Clone, Copy)]
pub struct SharedRef {
    pub kind: u8,
    pub parent: u64,
}

// A reference of a body, as the original's `InlineRef`: its kind, its offset, which is its first field, and where in the body its
// payload starts and how long it is.
#[derive(Clone, Copy)]
pub struct InlineRef {
    pub kind: u8,
    pub offset: u64,
    pub start: usize,
    pub len: usize,
}

// A reference that names a tree, as the original has it.
#[derive(Clone, Copy)]
pub enum Keyed {
    Block(BlockRef),
    Data(DataRef),
}

// A change of the ledger (document 01's books). To add a reference is document 01's "give", to drop one its "take".
#[derive(Clone, Copy)]
pub enum Change {
    AddBlock {
        extent: u64,
        name: BlockRef,
    },
    AddData {
        extent: u64,
        name: DataRef,
        amount: u32,
    },
    AddShared {
        extent: u64,
        name: SharedRef,
        amount: u32,
    },
    DropBlock {
        extent: u64,
        name: BlockRef,
    },
    DropData {
        extent: u64,
        name: DataRef,
    },
    DropShared {
        extent: u64,
        name: SharedRef,
        amount: u32,
    },
}

// Why a call refuses: the number of the first question answered "no", by documents 01 and 02. Questions are put in the order of
// their numbers, but 22 behind 14, and 23 and 24 behind 3; the reader of a leaf image puts 1 and 2 behind 24. Refusals compare by
// number.
#[derive(Clone, Copy, PartialEq, Eq, PartialOrd, Ord, Debug)]
pub struct Refusal {
    pub number: u32,
}

impl Refusal {
    // The bytes are no item list: length, version, number of items, or an item that is not whole.
    pub const NO_LIST: Refusal = Refusal { number: 1 };

    // The keys of a list do not rise.
    pub const KEYS: Refusal = Refusal { number: 2 };

    // A nodesize, a shared kind, or the length of a body or an offset list is out of range.
    pub const RANGE: Refusal = Refusal { number: 3 };

    pub const UNBALANCED: Refusal = Refusal { number: 4 };

    // The record, key, item number or reference that the call needs is not there.
    pub const MISSING: Refusal = Refusal { number: 5 };

    // A body that is too short for its head.
    pub const SHORT: Refusal = Refusal { number: 6 };

    // An inline type that is not known.
    pub const KIND: Refusal = Refusal { number: 7 };

    // An inline reference that is cut off.
    pub const CUT: Refusal = Refusal { number: 8 };

    // What is to be added stands already.
    pub const STANDS: Refusal = Refusal { number: 9 };

    // An amount or a reference that may not be added or taken.
    pub const AMOUNT: Refusal = Refusal { number: 10 };

    // The count or the total would wrap.
    pub const COUNT_FULL: Refusal = Refusal { number: 11 };

    pub const TOTAL_FULL: Refusal = Refusal { number: 12 };

    // The total is below 2 and one is to go off, or below the amount that is to go off.
    pub const LAST_ONE: Refusal = Refusal { number: 13 };

    pub const TOTAL_LOW: Refusal = Refusal { number: 14 };

    // A data reference's item in another form or of another name, or with count 0.
    pub const OTHER_NAME: Refusal = Refusal { number: 15 };

    pub const COUNT_ZERO: Refusal = Refusal { number: 16 };

    // The body is above the inline limit.
    pub const INLINE_LIMIT: Refusal = Refusal { number: 17 };

    // Items that do not fit a leaf; or too few to divide.
    pub const NO_FIT: Refusal = Refusal { number: 18 };

    pub const TOO_FEW: Refusal = Refusal { number: 19 };

    // The lent output or a limit does not hold the result.
    pub const NO_ROOM: Refusal = Refusal { number: 21 };

    // More is to be taken than stands.
    pub const TOO_MUCH: Refusal = Refusal { number: 22 };

    // An image that is no leaf, or whose items are not packed.
    pub const NO_LEAF: Refusal = Refusal { number: 23 };

    pub const PACKING: Refusal = Refusal { number: 24 };
}

impl fmt::Display for Refusal {
    fn fmt<W: fmt::Write>(&self, f: &mut fmt::Formatter<W>) -> fmt::Result {
        write!(f, "refused {}", self.number)
    }
}

// What a call that writes to a lent output answers where it does not refuse: the result's length, or that there is none.
#[derive(Clone, Copy)]
pub enum Edited {
    Written(usize),
    Absent,
    Remove,
}

// The same with how many are left under the name that a drop touched (document 02's ticket 5); an added reference leaves 0. The
// calls that drop answer `Edited` so far.
#[derive(Clone, Copy)]
pub enum Dropped {
    Written { size: usize, left: u64 },
    Absent,
    Remove,
}

// What a call that takes a reference out writes, and the count of the reference.
#[derive(Clone, Copy)]
pub struct Taken {
    pub size: usize,
    pub count: u32,
}
