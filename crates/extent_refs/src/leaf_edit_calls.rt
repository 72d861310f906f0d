// Item lists: the calls of `leaf_edit.rs`.
ghost use Rattle.std.specs.Prelude.{length};
ghost use Rattle.format.specs.Items.{key_of, held_sheet};
ghost use Rattle.format.specs.Sheets.{insert, insert_unbounded, delete, fit, fits as fits_with, split, split_to_fit, held_cuts, item_data, item_start};
ghost use Rattle.extent_refs.specs.Exports.{Coded, CodedBool, CodedPart};

use format::Key;

#[unsafe(no_mangle)]
pub extern "C" fn leaf_edit_insert(
    nodesize: u32,
    sheet: &[u8],
    objectid: u64,
    kind: u8,
    offset: u64,
    data: &[u8],
    out: &mut [u8],
    len: &mut u64,
) -> u32
    ensures { Coded (held_sheet (length out.old) (insert nodesize sheet.now (record { key = key_of objectid kind offset; bytes = «data».now }))) result len.new out.old out.new }
{
    let key = Key {
        objectid,
        kind,
        offset,
    };
    let answer = leaf_edit::insert(nodesize, sheet, key, data, out);
    crate::put_edited(answer, len)
}

#[unsafe(no_mangle)]
pub extern "C" fn leaf_edit_insert_unbounded(
    sheet: &[u8],
    objectid: u64,
    kind: u8,
    offset: u64,
    data: &[u8],
    out: &mut [u8],
    len: &mut u64,
) -> u32
    ensures { Coded (held_sheet (length out.old) (insert_unbounded sheet.now (record { key = key_of objectid kind offset; bytes = «data».now }))) result len.new out.old out.new }
{
    let key = Key {
        objectid,
        kind,
        offset,
    };
    let answer = leaf_edit::insert_unbounded(sheet, key, data, out);
    crate::put_edited(answer, len)
}

#[unsafe(no_mangle)]
pub extern "C" fn leaf_edit_delete(
    sheet: &[u8],
    objectid: u64,
    kind: u8,
    offset: u64,
    out: &mut [u8],
    len: &mut u64,
) -> u32
    ensures { Coded (held_sheet (length out.old) (delete sheet.now (key_of objectid kind offset))) result len.new out.old out.new }
{
    let key = Key {
        objectid,
        kind,
        offset,
    };
    let answer = leaf_edit::delete(sheet, key, out);
    crate::put_edited(answer, len)
}

#[unsafe(no_mangle)]
pub extern "C" fn leaf_edit_fit(nodesize: u32, sheet: &[u8], fits: &mut u64) -> u32
    ensures { CodedBool (fit nodesize sheet.now) result fits.new }
{
    let answer = leaf_edit::fit(nodesize, sheet);
    crate::put_judged(answer, fits)
}

#[unsafe(no_mangle)]
pub extern "C" fn leaf_edit_fits(nodesize: u32, sheet: &[u8], data: &[u8], fits: &mut u64) -> u32
    ensures { CodedBool (fits_with nodesize sheet.now «data».now) result fits.new }
{
    let answer = leaf_edit::fits(nodesize, sheet, data);
    crate::put_judged(answer, fits)
}

#[unsafe(no_mangle)]
pub extern "C" fn leaf_edit_split(sheet: &[u8], cuts: &mut [u16], count: &mut u64) -> u32
    ensures { Coded (held_cuts (length cuts.old) (split sheet.now)) result count.new cuts.old cuts.new }
{
    let answer = leaf_edit::split(sheet, cuts);
    crate::put_edited(answer, count)
}

#[unsafe(no_mangle)]
pub extern "C" fn leaf_edit_split_to_fit(
    nodesize: u32,
    sheet: &[u8],
    cuts: &mut [u16],
    count: &mut u64,
) -> u32
    ensures { Coded (held_cuts (length cuts.old) (split_to_fit nodesize sheet.now)) result count.new cuts.old cuts.new }
{
    let answer = leaf_edit::split_to_fit(nodesize, sheet, cuts);
    crate::put_edited(answer, count)
}

// In Rattle `leaf_edit::item` returns the part itself.
#[unsafe(no_mangle)]
pub extern "C" fn leaf_edit_item(sheet: &[u8], number: u64, start: &mut u64, len: &mut u64) -> u32
    ensures { CodedPart (item_data sheet.now number) (item_start sheet.now number) result start.new len.new }
{
    let answer = leaf_edit::item_range(sheet, number as usize);
    crate::put_ranged(answer, start, len)
}
