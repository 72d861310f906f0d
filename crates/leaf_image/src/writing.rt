// The writer of an image: questions 1, 2, 3, 18 and 21, then the image. Item headers grow from the left, data from the right.
ghost use Rattle.std.specs.Prelude.{◌≡◌, ◌+◌, ◌-◌, ◌≤◌, length};
ghost use Rattle.fields.specs.Parts.{written};
ghost use Rattle.format.specs.Constants.{item_header, leaf_header, most_data, most_items};
ghost use Rattle.format.specs.Questions.{Answered};
ghost use Rattle.format.specs.Sheets.{space_of};
ghost use Rattle.format.specs.LeafImage.{item_header_bytes, headers_bytes, data_bytes, image_bytes, write_image, held_image};
ghost use Rattle.item_list.specs.Steps.{IsList, list_items};
ghost use Rattle.leaf_image.specs.Writing.{leaf_header_bytes, area_bytes};

use format::{Edited, ITEM_HEAD, ITEM_HEADER, Key, LEAF_HEADER, Refusal};

// What a leaf of `nodesize` bytes is written from: an item list with so many items, which fit in it.
#[derive(Clone, Copy)]
struct Leaf<'a> {
    sheet: &'a [u8],
    count: usize,
    nodesize: usize,
    ghost fits: { IsList sheet.now × (count ≡ length (list_items sheet.now)) × (space_of (list_items sheet.now) ≤ nodesize) × (nodesize ≤ 65536) },
}

// An item header goes to `out` at `at`.
fn put_item_header(key: Key, position: usize, size: usize, out: &mut [u8], at: usize)
    requires { (position ≤ 65535) × (size ≤ most_data) × (at + item_header ≤ length out.old) }
    ensures { out.new ≡ written at (item_header_bytes key position size) out.old }
{
    fields::put_u64_le(out, at, key.objectid);
    fields::put_u8(out, at + 8, key.kind);
    fields::put_u64_le(out, at + 9, key.offset);
    fields::put_u32_le(out, at + 17, position as u32);
    fields::put_u32_le(out, at + 21, size as u32);
}

// The headers and the data of all items. Returns where the last one's data begins.
fn put_items<'a>(leaf: Leaf<'a>, out: &mut [u8]) -> usize
    requires { leaf.nodesize ≤ length out.old }
    ensures { (result + length (data_bytes (list_items leaf.entry.sheet.now)) ≡ leaf.entry.nodesize) × (out.new ≡ written result (data_bytes (list_items leaf.entry.sheet.now)) (written leaf_header (headers_bytes (leaf.entry.nodesize - leaf_header) (list_items leaf.entry.sheet.now)) out.old)) }
{
    let sheet = leaf.sheet;
    let mut from: usize = 1;
    let mut size = ITEM_HEAD;
    let mut at = LEAF_HEADER;
    let mut end = leaf.nodesize;
    while from < sheet.len() {
        size = item_list::size_after(sheet, from, size);
        let next = from + size;
        let length = size - ITEM_HEAD;
        end -= length;
        put_item_header(
            item_list::key_at(sheet, from),
            end - LEAF_HEADER,
            length,
            out,
            at,
        );
        item_list::append(sheet, from + ITEM_HEAD, next, out, end);
        from = next;
        at += ITEM_HEADER;
    }
    end
}

// The leaf's header behind its checksum: zeros, bytes 32 to 95 of the lent one, the count and level 0.
fn put_leaf_header(header: &[u8], count: usize, out: &mut [u8])
    requires { (length header.now ≡ leaf_header) × (count ≤ most_items) × (leaf_header ≤ length out.old) }
    ensures { out.new ≡ written 4 (leaf_header_bytes header.now count) out.old }
{
    fields::clear(out, 4, 28);
    fields::append(&header[32..96], out, 32);
    fields::put_u32_le(out, 96, count as u32);
    fields::put_u8(out, 100, 0);
}

// What follows it: the items from both ends, and the gap between them cleared.
fn put_area<'a>(leaf: Leaf<'a>, out: &mut [u8])
    requires { leaf.nodesize ≤ length out.old }
    ensures { out.new ≡ written leaf_header (area_bytes leaf.entry.nodesize (list_items leaf.entry.sheet.now)) out.old }
{
    let begin = put_items(leaf, out);
    let gap = LEAF_HEADER + ITEM_HEADER * leaf.count;
    fields::clear(out, gap, begin - gap);
}

// The image, and then the checksum of what stands from byte 32 on.
fn put_image<'a>(leaf: Leaf<'a>, header: &[u8], out: &mut [u8])
    requires { (length header.now ≡ leaf_header) × (leaf.nodesize ≤ length out.old) }
    ensures { out.new ≡ written 0 (image_bytes leaf.entry.nodesize header.now (list_items leaf.entry.sheet.now)) out.old }
{
    put_leaf_header(header, leaf.count, out);
    put_area(leaf, out);
    let register = crc32c::update(0xffff_ffff, &out[32..leaf.nodesize]);
    fields::put_u32_le(out, 0, crc32c::finish(register));
}

// Questions 3, 18 and 21 of an item list with so many items, then the image.
fn write_listed(
    nodesize: u32,
    header: &[u8],
    sheet: &[u8],
    count: usize,
    out: &mut [u8],
) -> Result<Edited, Refusal>
    requires { IsList sheet.now × (count ≡ length (list_items sheet.now)) }
    ensures { Answered (held_image (length out.old) (write_image nodesize header.now sheet.now)) result out.old out.new }
{
    if !item_list::nodesize_fits(nodesize) {
        return Err(Refusal::RANGE);
    }
    if header.len() != LEAF_HEADER {
        return Err(Refusal::RANGE);
    }
    let size = nodesize as usize;
    if size < 100 + sheet.len() + 4 * count {
        return Err(Refusal::NO_FIT);
    }
    if out.len() < size {
        return Err(Refusal::NO_ROOM);
    }
    let leaf = Leaf {
        sheet,
        count,
        nodesize: size,
    };
    put_image(leaf, header, out);
    Ok(Edited::Written(size))
}

pub fn write(nodesize: u32, header: &[u8], sheet: &[u8], out: &mut [u8]) -> Result<Edited, Refusal>
    ensures { Answered (held_image (length out.old) (write_image nodesize header.now sheet.now)) result out.old out.new }
{
    let count = item_list::check(sheet)?;
    write_listed(nodesize, header, sheet, count, out)
}
