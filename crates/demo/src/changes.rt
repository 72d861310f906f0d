// The six changes posted one after the other, and some that are refused.
use crate::card::Card;
use crate::{card, say, words};
use extent_write::TreeBlockAllocation;
use format::{BlockRef, Change, DataRef, Key, Refusal, SharedRef};

const NODESIZE: u32 = 4096;

const MAP: u64 = 1048576;

const BLOCK: u64 = 4194304;

const LEAF: u64 = 8388608;

fn file(tree: u64, objectid: u64) -> DataRef {
    DataRef {
        tree,
        objectid,
        offset: 0,
    }
}

fn leaf() -> SharedRef {
    SharedRef {
        kind: 184,
        parent: LEAF,
    }
}

// A map that file 257 of tree 5 uses, and file 300 by an item of its own.
fn with_map(card: &Card) -> Result<Card, Refusal> {
    let mut new = [0u8; 53];
    extent_write::data_extent_body(7, 5, 257, 0, &mut new)?;
    let mut body = [0u8; 53];
    backref::raise_total(&new, 1, &mut body)?;
    let key = Key {
        objectid: MAP,
        kind: 168,
        offset: 65536,
    };
    let record = card.insert(NODESIZE, key, &body)?;
    let mut own = [0u8; 28];
    backref::keyed_data_ref_body(file(5, 300), 1, &mut own)?;
    let own_key = Key {
        objectid: MAP,
        kind: 178,
        offset: extent_write::data_ref_hash(5, 300, 0),
    };
    record.insert(NODESIZE, own_key, &own)
}

// A block of tree 5.
fn with_block(card: &Card) -> Result<Card, Refusal> {
    let block = TreeBlockAllocation {
        bytenr: BLOCK,
        level: 0,
        generation: 7,
        owner: 5,
    };
    let mut body = [0u8; 33];
    block.body(&mut body)?;
    card.insert(NODESIZE, block.key(), &body)
}

// Both of them.
fn with_both(card: &Card) -> Result<Card, Refusal> {
    let map = with_map(card)?;
    with_block(&map)
}

// One change, in words, and what came of it; a refused one leaves the card as it was.
fn post(rt: &impl Print, card: Card, extent: u64, what: &[u8], change: Change) -> Card {
    say::text(rt, b"  ");
    say::text(rt, what);
    say::text(rt, b": ");
    let answer = card.post(NODESIZE, change);
    say::answer(rt, answer.err());
    if let Ok(next) = answer {
        say::text(rt, b", now used ");
        say::times(rt, card::used(next.list(), extent));
    }
    say::text(rt, b".\n");
    answer.unwrap_or(card)
}

fn give_block(rt: &impl Print, card: Card, tree: u64, what: &[u8]) -> Card {
    let name = BlockRef { tree };
    post(
        rt,
        card,
        BLOCK,
        what,
        Change::AddBlock {
            extent: BLOCK,
            name,
        },
    )
}

fn give_data(rt: &impl Print, card: Card, name: DataRef, amount: u32, what: &[u8]) -> Card {
    post(
        rt,
        card,
        MAP,
        what,
        Change::AddData {
            extent: MAP,
            name,
            amount,
        },
    )
}

fn take_block(rt: &impl Print, card: Card, tree: u64, what: &[u8]) -> Card {
    let name = BlockRef { tree };
    post(
        rt,
        card,
        BLOCK,
        what,
        Change::DropBlock {
            extent: BLOCK,
            name,
        },
    )
}

fn take_data(rt: &impl Print, card: Card, name: DataRef, what: &[u8]) -> Card {
    post(rt, card, MAP, what, Change::DropData { extent: MAP, name })
}

fn take_shared(rt: &impl Print, card: Card, amount: u32, what: &[u8]) -> Card {
    let name = leaf();
    post(
        rt,
        card,
        MAP,
        what,
        Change::DropShared {
            extent: MAP,
            name,
            amount,
        },
    )
}

fn gives(rt: &impl Print, card: Card) -> Card {
    let a = give_block(rt, card, 300, b"give the block to tree 300");
    let b = give_block(rt, a, 300, b"give the block to tree 300 again");
    let c = give_data(
        rt,
        b,
        file(300, 257),
        2,
        b"give the map to file 257 of tree 300, twice",
    );
    let d = give_data(
        rt,
        c,
        file(5, 300),
        1,
        b"give the map to file 300 of tree 5, which has an item",
    );
    let name = leaf();
    let change = Change::AddShared {
        extent: MAP,
        name,
        amount: 3,
    };
    post(
        rt,
        d,
        MAP,
        b"give the map to the shared leaf at 8388608, three times",
        change,
    )
}

fn takes(rt: &impl Print, card: Card) -> Card {
    let a = take_block(rt, card, 5, b"take the block from tree 5");
    let b = take_block(rt, a, 300, b"take the block from tree 300 too");
    let c = take_data(
        rt,
        b,
        file(5, 300),
        b"take the map from file 300 of tree 5, which has an item",
    );
    let d = take_data(
        rt,
        c,
        file(5, 999),
        b"take the map from file 999 of tree 5, which never had it",
    );
    let e = take_shared(rt, d, 2, b"take the map from the shared leaf, two of three");
    take_shared(rt, e, 1, b"take the map from the shared leaf, the last one")
}

pub fn show(rt: &impl Print) {
    say::text(
        rt,
        b"A small card with a map, which is data, and a block of a tree:\n\n",
    );
    // No call refuses; an empty card would be printed as one without items.
    let before = with_both(&Card::empty()).unwrap_or(Card::empty());
    words::print(rt, before.list());
    say::text(
        rt,
        b"\nEleven changes, posted one after the other, each with the answer and the total that its record then has:\n\n",
    );
    let after = takes(rt, gives(rt, before));
    say::text(rt, b"\nThe card afterwards:\n\n");
    words::print(rt, after.list());
    say::text(rt, b"\n");
}
