// The items of a list and their references in words.
ghost use Rattle.std.specs.Prelude.{◌+◌, ◌≤◌, length};

use crate::{card, say};
use format::Key;
use inline_refs::{Cursor, Kinds, RefAt};

// A data reference's 28 bytes.
fn data_ref(rt: &impl Print, bytes: &[u8], at: usize)
    requires { at + 28 ≤ length bytes.now }
{
    say::text(rt, b"file ");
    say::number(rt, fields::get_u64_le(bytes, at + 8));
    say::text(rt, b" of tree ");
    say::number(rt, fields::get_u64_le(bytes, at));
    say::text(rt, b", at offset ");
    say::number(rt, fields::get_u64_le(bytes, at + 16));
    say::text(rt, b", ");
    say::times(rt, fields::get_u32_le(bytes, at + 24) as u64);
}

fn shared_leaf(rt: &impl Print, parent: u64, count: u32) {
    say::text(rt, b"the shared leaf at ");
    say::number(rt, parent);
    say::text(rt, b", ");
    say::times(rt, count as u64);
}

// A reference that has no count.
fn holder(rt: &impl Print, kind: u8, field: u64) {
    match kind {
        172 => say::text(rt, b"its owner, tree "),
        176 => say::text(rt, b"tree "),
        _ => say::text(rt, b"the shared block at "),
    }
    say::number(rt, field);
}

// An inline reference. Those of 28 bytes are data references, those of 12 shared ones with a count.
fn inline_ref(rt: &impl Print, body: &[u8], reference: RefAt)
    requires { reference.start + reference.size ≤ length body.now }
{
    let start = reference.start;
    say::text(rt, b"        by ");
    match reference.size {
        28 => data_ref(rt, body, start),
        12 => shared_leaf(
            rt,
            fields::get_u64_le(body, start),
            fields::get_u32_le(body, start + 8),
        ),
        8 => holder(rt, reference.kind, fields::get_u64_le(body, start)),
        _ => {}
    }
    say::text(rt, b"\n");
}

fn inline_refs_from(rt: &impl Print, body: &[u8], start: usize) {
    let kinds = Kinds::new();
    let mut cursor = Cursor { at: start };
    while let Ok(Some(reference)) = cursor.step(&kinds, body) {
        inline_ref(rt, body, reference);
        cursor = reference.next;
    }
}

fn record(rt: &impl Print, key: Key, body: &[u8]) {
    if key.kind == 168 {
        say::text(rt, b"    data extent ");
    } else {
        say::text(rt, b"    tree block ");
    }
    say::number(rt, key.objectid);
    say::text(rt, b": used ");
    say::times(rt, card::total(body));
    say::text(rt, b"\n");
    if let Ok(start) = inline_refs::open_body(key.kind, body) {
        inline_refs_from(rt, body, start);
    }
}

// A reference that stands as an item of its own.
fn own_item(rt: &impl Print, key: Key, body: &[u8]) {
    say::text(rt, b"        by ");
    if body.len() == 28 {
        data_ref(rt, body, 0);
    } else if body.len() == 4 {
        shared_leaf(rt, key.offset, fields::get_u32_le(body, 0));
    } else {
        holder(rt, key.kind, key.offset);
    }
    say::text(rt, b" (in an item of its own)\n");
}

// The item from `at` up to `next`.
fn item(rt: &impl Print, list: &[u8], at: usize, next: usize)
    requires { (at + 21 ≤ next) × (next ≤ length list.now) }
{
    let key = item_list::key_at(list, at);
    let data = at + 21;
    match key.kind {
        168 | 169 => record(rt, key, &list[data..next]),
        _ => own_item(rt, key, &list[data..next]),
    }
}

// A `while`: each step goes on by the size of the item that it has just read, which a `for` cannot say.
pub fn print(rt: &impl Print, list: &[u8]) {
    let mut at: usize = 1;
    while at < list.len() {
        let size = item_list::size_at(list, at);
        if size == 0 {
            return;
        }
        item(rt, list, at, at + size);
        at += size;
    }
}
