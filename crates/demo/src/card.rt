// A card's item list (document 01's sheet) by value, and the library's calls on it: each gives the next card, or the refusal.
use format::{Change, Edited, Key, Refusal};

// The list is the first `size` bytes. Every card of this program is small.
#[derive(Clone, Copy)]
pub struct Card {
    pub bytes: [u8; 4096],
    pub size: usize,
}

// The card that a call wrote.
fn edited(answer: Result<Edited, Refusal>, bytes: [u8; 4096]) -> Result<Card, Refusal> {
    match answer? {
        Edited::Written(size) => Ok(Card { bytes, size }),
        // The codes that C callers get for these two; no call here answers so.
        Edited::Absent => Err(Refusal { number: 100 }),
        Edited::Remove => Err(Refusal { number: 101 }),
    }
}

impl Card {
    // No items: the version byte alone.
    pub fn empty() -> Card {
        let mut bytes = [0u8; 4096];
        bytes[0] = 1;
        Card { bytes, size: 1 }
    }

    pub fn list(&self) -> &[u8] {
        self.bytes.get(..self.size).unwrap_or(&[])
    }

    pub fn post(&self, nodesize: u32, change: Change) -> Result<Card, Refusal> {
        let mut out = [0u8; 4096];
        edited(ledger::post(self.list(), nodesize, change, &mut out), out)
    }

    pub fn insert(&self, nodesize: u32, key: Key, body: &[u8]) -> Result<Card, Refusal> {
        let mut out = [0u8; 4096];
        edited(
            leaf_edit::insert(nodesize, self.list(), key, body, &mut out),
            out,
        )
    }

    pub fn insert_unbounded(&self, key: Key, body: &[u8]) -> Result<Card, Refusal> {
        let mut out = [0u8; 4096];
        edited(
            leaf_edit::insert_unbounded(self.list(), key, body, &mut out),
            out,
        )
    }

    // The list as a leaf of the card, whose header says nothing of its place; and a leaf as the list that it holds.
    pub fn write_leaf(&self, nodesize: u32) -> Result<Card, Refusal> {
        let mut out = [0u8; 4096];
        edited(
            leaf_image::write(nodesize, &[0; 101], self.list(), &mut out),
            out,
        )
    }

    pub fn read_leaf(&self, nodesize: u32) -> Result<Card, Refusal> {
        let mut out = [0u8; 4096];
        edited(leaf_image::read(nodesize, self.list(), &mut out), out)
    }
}

// The total that a record's body begins with.
pub fn total(body: &[u8]) -> u64 {
    if body.len() < 8 {
        return 0;
    }
    fields::get_u64_le(body, 0)
}

// How often an extent is used, by its record; 0 without one.
pub fn used(list: &[u8], extent: u64) -> u64 {
    let Ok(number) = transaction::record_of(list, extent) else {
        return 0;
    };
    leaf_edit::item(list, number as usize).map_or(0, total)
}

// How many items there are.
pub fn items(list: &[u8]) -> usize {
    item_list::check(list).unwrap_or(0)
}
