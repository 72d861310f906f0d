// A card of ten shifts over one base survey. Each shift is a snapshot, with a tree and a map of its own.
use crate::card::Card;
use format::{Change, DataRef, Key, Refusal};

const NODESIZE: u32 = 16384;

pub const SURVEY: u64 = 1048576;

pub const SHIFTS: u32 = 10;

fn tree(shift: u32) -> u64 {
    300 + shift as u64
}

// Where a shift's map stands.
pub fn map(shift: u32) -> u64 {
    SURVEY + 65536 * (shift as u64)
}

pub fn key(extent: u64) -> Key {
    Key {
        objectid: extent,
        kind: 168,
        offset: 65536,
    }
}

// The record of a new extent that one shift uses.
pub fn record(shift: u32) -> [u8; 53] {
    let tree = tree(shift);
    let mut body = [0u8; 53];
    let _ = extent_write::data_extent_body(tree, tree, 257, 0, &mut body);
    body
}

// A new extent.
pub fn save(card: &Card, nodesize: u32, extent: u64, shift: u32) -> Result<Card, Refusal> {
    card.insert(nodesize, key(extent), &record(shift))
}

fn name(shift: u32) -> DataRef {
    DataRef {
        tree: tree(shift),
        objectid: 257,
        offset: 0,
    }
}

// One more user of an extent.
fn give(card: &Card, extent: u64, shift: u32) -> Result<Card, Refusal> {
    let name = name(shift);
    card.post(
        NODESIZE,
        Change::AddData {
            extent,
            name,
            amount: 1,
        },
    )
}

// One user less.
pub fn take(card: &Card, extent: u64, shift: u32) -> Result<Card, Refusal> {
    let name = name(shift);
    card.post(NODESIZE, Change::DropData { extent, name })
}

// A later shift: a map of its own; it uses the survey too, and the map of the shift before.
fn begun(card: &Card, shift: u32, before: u32) -> Result<Card, Refusal> {
    let saved = save(card, NODESIZE, map(shift), shift)?;
    let survey = give(&saved, SURVEY, shift)?;
    give(&survey, map(before), shift)
}

// The first shift has the survey and a map to itself; then come the others.
pub fn ten() -> Result<Card, Refusal> {
    let survey = save(&Card::empty(), NODESIZE, SURVEY, 1)?;
    let mut all = save(&survey, NODESIZE, map(1), 1)?;
    for shift in 1..SHIFTS {
        all = begun(&all, shift + 1, shift)?;
    }
    Ok(all)
}
