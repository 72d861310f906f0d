// A list of maps divided into two leaves, and whether they hold every map.
use crate::card::Card;
use crate::{card, say, shifts};
use format::Edited;

// Small, so that a leaf is soon full: the interpreter of `rt try` allows twenty million steps.
pub const NODESIZE: u32 = 4096;

fn fits(list: &[u8]) -> bool {
    leaf_edit::fit(NODESIZE, list).unwrap_or(false)
}

// Where the item with this number starts: 21 bytes before its data.
fn start_of(list: &[u8], number: usize) -> usize {
    match leaf_edit::item_range(list, number) {
        Ok(range) if 22 <= range.start => range.start - 21,
        _ => 1,
    }
}

// The items from byte `at` on, as a list.
fn behind(list: &[u8], at: usize) -> Card {
    let mut bytes = [1u8; 4096];
    if list.len() < at {
        return Card { bytes, size: 1 };
    }
    let n = list.len() - at;
    if 4095 < n {
        return Card { bytes, size: 1 };
    }
    fields::copy_at(list, at, n, &mut bytes, 1);
    Card { bytes, size: 1 + n }
}

// The shift after the last one, where the list has the maps of shift after shift from `first` on; 0 where it has anything else.
fn maps_from(list: &[u8], first: u32) -> u32 {
    let mut at: usize = 1;
    for shift in first..1000 {
        if list.len() <= at {
            return shift;
        }
        let size = item_list::size_at(list, at);
        if size == 0 {
            return 0;
        }
        let key = item_list::key_at(list, at);
        if key.objectid != shifts::map(shift) {
            return 0;
        }
        at += size;
    }
    0
}

// The two leaves in words, and whether both fit and have the maps up to that of `last`.
fn two_leaves(rt: &impl Print, whole: &[u8], cut: usize, last: u32) -> bool {
    let at = start_of(whole, cut);
    if whole.len() < at {
        return false;
    }
    let one = &whole[..at];
    let rest = behind(whole, at);
    let other = rest.list();
    say::number(rt, card::items(whole) as u64);
    say::text(rt, b" maps are divided into leaves of ");
    say::number(rt, card::items(one) as u64);
    say::text(rt, b" and ");
    say::number(rt, card::items(other) as u64);
    say::text(rt, b".");
    let end = maps_from(other, maps_from(one, 1));
    fits(one) & fits(other) & (last < end)
}

// The list divided at the item that the library names.
pub fn divide(rt: &impl Print, whole: &[u8], last: u32) -> bool {
    let mut cuts = [0u16; 64];
    match leaf_edit::split_to_fit(NODESIZE, whole, &mut cuts) {
        Ok(Edited::Written(1)) => two_leaves(rt, whole, cuts[0] as usize, last),
        _ => false,
    }
}
