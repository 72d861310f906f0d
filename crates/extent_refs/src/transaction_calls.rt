// References in bodies and in item lists: the calls of `transaction.rs`.
ghost use Rattle.std.specs.Prelude.{length};
ghost use Rattle.format.specs.Bodies.{held_body, held_only_by, keyed_data_ref_names, shared_add_key, shared_add_item, shared_add_inline_size};
ghost use Rattle.format.specs.Items.{held_sheet};
ghost use Rattle.format.specs.Apply.{max_inline_extent_item, record_number, apply_keyed_add_to, apply_shared_add_to, apply_shared_drop_to, drop_kept_tree_ref_from};
ghost use Rattle.extent_refs.specs.Exports.{Coded, CodedBool, CodedKey, CodedNumber};

use format::{BlockRef, DataRef, Keyed, SharedRef};

#[unsafe(no_mangle)]
pub extern "C" fn transaction_held_only_by(
    body: &[u8],
    root: u64,
    ino: u64,
    offsets: &[u64],
    holds: &mut u64,
) -> u32
    ensures { CodedBool (held_only_by body.now root ino offsets.now) result holds.new }
{
    let answer = transaction::held_only_by(body, root, ino, offsets);
    crate::put_judged(answer, holds)
}

#[unsafe(no_mangle)]
pub extern "C" fn transaction_keyed_data_ref_names(
    item: &[u8],
    tree: u64,
    objectid: u64,
    offset: u64,
    names: &mut u64,
) -> u32
    ensures { CodedBool (keyed_data_ref_names item.now (record { tree = tree; objectid = objectid; offset = offset })) result names.new }
{
    let answer = transaction::keyed_data_ref_names(
        item,
        DataRef {
            tree,
            objectid,
            offset,
        },
    );
    crate::put_judged(answer, names)
}

#[unsafe(no_mangle)]
pub extern "C" fn transaction_shared_add_item(
    kind: u8,
    count: u32,
    out: &mut [u8],
    len: &mut u64,
) -> u32
    ensures { Coded (held_body (length out.old) (shared_add_item kind count)) result len.new out.old out.new }
{
    let answer = transaction::shared_add_item(kind, count, out);
    crate::put_edited(answer, len)
}

#[unsafe(no_mangle)]
pub extern "C" fn transaction_shared_add_key(
    bytenr: u64,
    kind: u8,
    parent: u64,
    objectid: &mut u64,
    key_kind: &mut u64,
    offset: &mut u64,
) -> u32
    ensures { CodedKey (shared_add_key bytenr (record { kind = kind; parent = parent })) result objectid.new key_kind.new offset.new }
{
    let answer = transaction::shared_add_key(bytenr, SharedRef { kind, parent });
    crate::put_filed(answer, objectid, key_kind, offset)
}

#[unsafe(no_mangle)]
pub extern "C" fn transaction_shared_add_inline_size(kind: u8, size: &mut u64) -> u32
    ensures { CodedNumber (shared_add_inline_size kind) result size.new }
{
    let answer = transaction::shared_add_inline_size(kind);
    crate::put_told(answer, size)
}

#[unsafe(no_mangle)]
pub extern "C" fn transaction_max_inline_extent_item(nodesize: u32, limit: &mut u64) -> u32
    ensures { CodedNumber (max_inline_extent_item nodesize) result limit.new }
{
    let answer = transaction::max_inline_extent_item(nodesize);
    crate::put_told(answer, limit)
}

#[unsafe(no_mangle)]
pub extern "C" fn transaction_record_of(sheet: &[u8], bytenr: u64, number: &mut u64) -> u32
    ensures { CodedNumber (record_number sheet.now bytenr) result number.new }
{
    let answer = transaction::record_of(sheet, bytenr);
    crate::put_told(answer, number)
}

#[unsafe(no_mangle)]
pub extern "C" fn transaction_apply_keyed_add_block(
    nodesize: u32,
    sheet: &[u8],
    bytenr: u64,
    tree: u64,
    count: u32,
    as_item: bool,
    out: &mut [u8],
    len: &mut u64,
) -> u32
    ensures { Coded (held_sheet (length out.old) (apply_keyed_add_to nodesize sheet.now bytenr (Keyed.Block (record { tree = tree })) count as_item)) result len.new out.old out.new }
{
    let answer = transaction::apply_keyed_add(
        nodesize,
        sheet,
        bytenr,
        Keyed::Block(BlockRef { tree }),
        count,
        as_item,
        out,
    );
    crate::put_edited(answer, len)
}

#[unsafe(no_mangle)]
pub extern "C" fn transaction_apply_keyed_add_data(
    nodesize: u32,
    sheet: &[u8],
    bytenr: u64,
    tree: u64,
    objectid: u64,
    offset: u64,
    count: u32,
    as_item: bool,
    out: &mut [u8],
    len: &mut u64,
) -> u32
    ensures { Coded (held_sheet (length out.old) (apply_keyed_add_to nodesize sheet.now bytenr (Keyed.Data (record { tree = tree; objectid = objectid; offset = offset })) count as_item)) result len.new out.old out.new }
{
    let answer = transaction::apply_keyed_add(
        nodesize,
        sheet,
        bytenr,
        Keyed::Data(DataRef {
            tree,
            objectid,
            offset,
        }),
        count,
        as_item,
        out,
    );
    crate::put_edited(answer, len)
}

#[unsafe(no_mangle)]
pub extern "C" fn transaction_apply_shared_add(
    nodesize: u32,
    sheet: &[u8],
    bytenr: u64,
    kind: u8,
    parent: u64,
    count: u32,
    as_item: bool,
    out: &mut [u8],
    len: &mut u64,
) -> u32
    ensures { Coded (held_sheet (length out.old) (apply_shared_add_to nodesize sheet.now bytenr (record { kind = kind; parent = parent }) count as_item)) result len.new out.old out.new }
{
    let answer = transaction::apply_shared_add(
        nodesize,
        sheet,
        bytenr,
        SharedRef { kind, parent },
        count,
        as_item,
        out,
    );
    crate::put_edited(answer, len)
}

#[unsafe(no_mangle)]
pub extern "C" fn transaction_apply_shared_drop(
    sheet: &[u8],
    bytenr: u64,
    kind: u8,
    parent: u64,
    count: u32,
    as_item: bool,
    out: &mut [u8],
    len: &mut u64,
) -> u32
    ensures { Coded (held_sheet (length out.old) (apply_shared_drop_to sheet.now bytenr (record { kind = kind; parent = parent }) count as_item)) result len.new out.old out.new }
{
    let name = SharedRef { kind, parent };
    let answer = transaction::apply_shared_drop(sheet, bytenr, name, count, as_item, out);
    crate::put_edited(answer, len)
}

#[unsafe(no_mangle)]
pub extern "C" fn transaction_drop_kept_tree_ref(
    sheet: &[u8],
    bytenr: u64,
    level: u8,
    tree: u64,
    own: bool,
    out: &mut [u8],
    len: &mut u64,
) -> u32
    ensures { Coded (held_sheet (length out.old) (drop_kept_tree_ref_from sheet.now bytenr level (record { tree = tree }) own)) result len.new out.old out.new }
{
    let name = BlockRef { tree };
    let answer = transaction::drop_kept_tree_ref(sheet, bytenr, level, name, own, out);
    crate::put_edited(answer, len)
}
