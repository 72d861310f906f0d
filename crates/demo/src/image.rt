// The fourth check: a card's list goes out as a leaf of the card and comes back.
use crate::card::Card;
use crate::{leaves, say};
use format::Refusal;

// A leaf with one bit of its last byte changed.
fn damaged(leaf: &Card) -> Card {
    let mut torn = *leaf;
    torn.bytes[4095] ^= 1;
    torn
}

// Whether it came out right.
pub fn store(rt: &impl Print, card: &Card) -> bool {
    say::text(
        rt,
        b"  4. Write the leaf and read it back.\n     As a leaf of ",
    );
    say::number(rt, leaves::NODESIZE as u64);
    say::text(rt, b" bytes the list is written: ");
    let written = card.write_leaf(leaves::NODESIZE);
    say::answer(rt, written.err());
    let leaf = written.unwrap_or(*card);
    say::text(rt, b", and read: ");
    let read = leaf.read_leaf(leaves::NODESIZE);
    say::answer(rt, read.err());
    say::text(rt, b".\n     With one bit changed it is ");
    let torn = damaged(&leaf).read_leaf(leaves::NODESIZE);
    say::answer(rt, torn.err());
    say::text(rt, b".");
    let back = read.unwrap_or(leaf);
    let kept = card.list() == back.list();
    kept & written.is_ok() & read.is_ok() & (torn.err() == Some(Refusal::NO_LEAF))
}
