// Bodies: the calls of `backref.rs`.
ghost use Rattle.std.specs.Prelude.{length};
ghost use Rattle.format.specs.Questions.{accepted};
ghost use Rattle.format.specs.Bodies.{held_body, held_taken, flags, inline_refs, inline_ref, take_inline_shared, add_inline_keyed, drop_inline_data_ref, drop_keyed_data_ref, lower_total, reduce_total, raise_total, holds_inline_data_ref, add_inline_data_ref, add_inline_tree_ref, keyed_data_ref_body, add_inline_shared, drop_inline_tree_ref, with_flags};
ghost use Rattle.format.specs.Sheets.{held_cuts};
ghost use Rattle.extent_refs.specs.Exports.{Coded, CodedBool, CodedNumber, CodedRef, CodedTaken};

use format::{BlockRef, DataRef, Keyed, SharedRef};

#[unsafe(no_mangle)]
pub extern "C" fn backref_flags(body: &[u8], value: &mut u64) -> u32
    ensures { CodedNumber (flags body.now) result value.new }
{
    let answer = backref::flags(body);
    crate::put_told(answer, value)
}

#[unsafe(no_mangle)]
pub extern "C" fn backref_inline_refs(
    item_type: u8,
    body: &[u8],
    positions: &mut [u16],
    count: &mut u64,
) -> u32
    ensures { Coded (held_cuts (length positions.old) (inline_refs item_type body.now)) result count.new positions.old positions.new }
{
    let answer = backref::inline_refs(item_type, body, positions);
    crate::put_edited(answer, count)
}

// In Rattle `backref::inline_payload` returns the payload itself.
#[unsafe(no_mangle)]
pub extern "C" fn backref_inline_ref(
    item_type: u8,
    body: &[u8],
    number: u64,
    kind: &mut u64,
    offset: &mut u64,
    start: &mut u64,
    len: &mut u64,
) -> u32
    ensures { CodedRef (inline_ref item_type body.now number) result kind.new offset.new start.new len.new }
{
    let answer = backref::inline_ref(item_type, body, number);
    crate::put_picked(answer, kind, offset, start, len)
}

#[unsafe(no_mangle)]
pub extern "C" fn backref_take_inline_shared(
    item_type: u8,
    body: &[u8],
    kind: u8,
    parent: u64,
    out: &mut [u8],
    len: &mut u64,
    count: &mut u64,
) -> u32
    ensures { CodedTaken (held_taken (length out.old) (take_inline_shared item_type body.now (record { kind = kind; parent = parent }))) result len.new count.new out.old out.new }
{
    let answer = backref::take_inline_shared(item_type, body, SharedRef { kind, parent }, out);
    crate::put_taken(answer, len, count)
}

#[unsafe(no_mangle)]
pub extern "C" fn backref_add_inline_keyed_block(
    item_type: u8,
    body: &[u8],
    tree: u64,
    count: u32,
    out: &mut [u8],
    len: &mut u64,
) -> u32
    ensures { Coded (held_body (length out.old) (add_inline_keyed item_type body.now (Keyed.Block (record { tree = tree })) count)) result len.new out.old out.new }
{
    let keyed = Keyed::Block(BlockRef { tree });
    let answer = backref::add_inline_keyed(item_type, body, keyed, count, out);
    crate::put_edited(answer, len)
}

#[unsafe(no_mangle)]
pub extern "C" fn backref_add_inline_keyed_data(
    item_type: u8,
    body: &[u8],
    tree: u64,
    objectid: u64,
    offset: u64,
    count: u32,
    out: &mut [u8],
    len: &mut u64,
) -> u32
    ensures { Coded (held_body (length out.old) (add_inline_keyed item_type body.now (Keyed.Data (record { tree = tree; objectid = objectid; offset = offset })) count)) result len.new out.old out.new }
{
    let keyed = Keyed::Data(DataRef {
        tree,
        objectid,
        offset,
    });
    let answer = backref::add_inline_keyed(item_type, body, keyed, count, out);
    crate::put_edited(answer, len)
}

#[unsafe(no_mangle)]
pub extern "C" fn backref_drop_inline_data_ref(
    item_type: u8,
    body: &[u8],
    tree: u64,
    objectid: u64,
    offset: u64,
    out: &mut [u8],
    len: &mut u64,
) -> u32
    ensures { Coded (held_body (length out.old) (drop_inline_data_ref item_type body.now (record { tree = tree; objectid = objectid; offset = offset }))) result len.new out.old out.new }
{
    let answer = backref::drop_inline_data_ref(
        item_type,
        body,
        DataRef {
            tree,
            objectid,
            offset,
        },
        out,
    );
    crate::put_edited(answer, len)
}

#[unsafe(no_mangle)]
pub extern "C" fn backref_drop_keyed_data_ref(
    item: &[u8],
    tree: u64,
    objectid: u64,
    offset: u64,
    out: &mut [u8],
    len: &mut u64,
) -> u32
    ensures { Coded (held_body (length out.old) (drop_keyed_data_ref item.now (record { tree = tree; objectid = objectid; offset = offset }))) result len.new out.old out.new }
{
    let answer = backref::drop_keyed_data_ref(
        item,
        DataRef {
            tree,
            objectid,
            offset,
        },
        out,
    );
    crate::put_edited(answer, len)
}

#[unsafe(no_mangle)]
pub extern "C" fn backref_lower_total(
    item_type: u8,
    body: &[u8],
    out: &mut [u8],
    len: &mut u64,
) -> u32
    ensures { Coded (held_body (length out.old) (lower_total body.now)) result len.new out.old out.new }
{
    let answer = backref::lower_total(body, out);
    crate::put_edited(answer, len)
}

#[unsafe(no_mangle)]
pub extern "C" fn backref_reduce_total(
    item_type: u8,
    body: &[u8],
    total_count: u64,
    out: &mut [u8],
    len: &mut u64,
) -> u32
    ensures { Coded (held_body (length out.old) (reduce_total body.now total_count)) result len.new out.old out.new }
{
    let answer = backref::reduce_total(body, total_count, out);
    crate::put_edited(answer, len)
}

#[unsafe(no_mangle)]
pub extern "C" fn backref_raise_total(
    item_type: u8,
    body: &[u8],
    total_count: u64,
    out: &mut [u8],
    len: &mut u64,
) -> u32
    ensures { Coded (held_body (length out.old) (raise_total body.now total_count)) result len.new out.old out.new }
{
    let answer = backref::raise_total(body, total_count, out);
    crate::put_edited(answer, len)
}

#[unsafe(no_mangle)]
pub extern "C" fn backref_holds_inline_data_ref(
    item_type: u8,
    body: &[u8],
    tree: u64,
    objectid: u64,
    offset: u64,
    holds: &mut u64,
) -> u32
    ensures { CodedBool (holds_inline_data_ref item_type body.now (record { tree = tree; objectid = objectid; offset = offset })) result holds.new }
{
    let answer = backref::holds_inline_data_ref(
        item_type,
        body,
        DataRef {
            tree,
            objectid,
            offset,
        },
    );
    crate::put_judged(answer, holds)
}

#[unsafe(no_mangle)]
pub extern "C" fn backref_add_inline_data_ref(
    item_type: u8,
    body: &[u8],
    tree: u64,
    objectid: u64,
    offset: u64,
    out: &mut [u8],
    len: &mut u64,
) -> u32
    ensures { Coded (held_body (length out.old) (add_inline_data_ref item_type body.now (record { tree = tree; objectid = objectid; offset = offset }))) result len.new out.old out.new }
{
    let answer = backref::add_inline_data_ref(
        item_type,
        body,
        DataRef {
            tree,
            objectid,
            offset,
        },
        out,
    );
    crate::put_edited(answer, len)
}

#[unsafe(no_mangle)]
pub extern "C" fn backref_add_inline_tree_ref(
    item_type: u8,
    body: &[u8],
    tree: u64,
    out: &mut [u8],
    len: &mut u64,
) -> u32
    ensures { Coded (held_body (length out.old) (add_inline_tree_ref item_type body.now (record { tree = tree }))) result len.new out.old out.new }
{
    let answer = backref::add_inline_tree_ref(item_type, body, tree, out);
    crate::put_edited(answer, len)
}

#[unsafe(no_mangle)]
pub extern "C" fn backref_keyed_data_ref_body(
    tree: u64,
    objectid: u64,
    offset: u64,
    count: u32,
    out: &mut [u8],
    len: &mut u64,
) -> u32
    ensures { Coded (held_body (length out.old) (accepted (keyed_data_ref_body (record { tree = tree; objectid = objectid; offset = offset }) count))) result len.new out.old out.new }
{
    let answer = backref::keyed_data_ref_body(
        DataRef {
            tree,
            objectid,
            offset,
        },
        count,
        out,
    );
    crate::put_edited(answer, len)
}

#[unsafe(no_mangle)]
pub extern "C" fn backref_add_inline_shared(
    item_type: u8,
    body: &[u8],
    kind: u8,
    parent: u64,
    count: u32,
    out: &mut [u8],
    len: &mut u64,
) -> u32
    ensures { Coded (held_body (length out.old) (add_inline_shared item_type body.now (record { kind = kind; parent = parent }) count)) result len.new out.old out.new }
{
    let answer = backref::add_inline_shared(
        item_type,
        body,
        SharedRef { kind, parent },
        count,
        out,
    );
    crate::put_edited(answer, len)
}

#[unsafe(no_mangle)]
pub extern "C" fn backref_drop_inline_tree_ref(
    item_type: u8,
    body: &[u8],
    tree: u64,
    out: &mut [u8],
    len: &mut u64,
) -> u32
    ensures { Coded (held_body (length out.old) (drop_inline_tree_ref item_type body.now (record { tree = tree }))) result len.new out.old out.new }
{
    let answer = backref::drop_inline_tree_ref(item_type, body, tree, out);
    crate::put_edited(answer, len)
}

#[unsafe(no_mangle)]
pub extern "C" fn backref_with_flags(body: &[u8], set: u64, out: &mut [u8], len: &mut u64) -> u32
    ensures { Coded (held_body (length out.old) (with_flags body.now set)) result len.new out.old out.new }
{
    let answer = backref::with_flags(body, set, out);
    crate::put_edited(answer, len)
}
