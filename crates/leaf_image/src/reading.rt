// The reader of an image: questions 3, 23, 24, 2 and 21, then the item list.
ghost use Rattle.std.specs.Prelude.{◌≡◌, ◌+◌, ◌≤◌, length, drop};
ghost use Rattle.fields.specs.Parts.{written};
ghost use Rattle.format.specs.Constants.{item_head, leaf_header};
ghost use Rattle.format.specs.Questions.{Answered};
ghost use Rattle.format.specs.Items.{item_bytes, sheet_bytes, held_sheet};
ghost use Rattle.format.specs.LeafImage.{data_position, data_size_in, image_item, is_leaf, read_image};
ghost use Rattle.leaf_image.specs.Packing.{IsPacked, listed_in};

use super::checking;
use super::headers::Header;
use format::{Edited, ITEM_HEADER, LEAF_HEADER, Refusal};

// Question 23. The checksum, which takes longest, is asked last.
fn is_leaf(nodesize: usize, image: &[u8]) -> bool
    requires { leaf_header ≤ nodesize }
    ensures { result ≡ is_leaf nodesize image.now }
{
    if image.len() != nodesize {
        return false;
    }
    if image[100] != 0 {
        return false;
    }
    let register = crc32c::update(0xffff_ffff, &image[32..]);
    fields::get_u32_le(image, 0) == crc32c::finish(register)
}

// The item that the header describes goes to `out` at `to`. Returns the position past it.
fn put_item<'a>(header: Header<'a>, out: &mut [u8], to: usize) -> usize
    requires { (leaf_header + (data_position (drop header.at header.image.now) + data_size_in (drop header.at header.image.now)) ≤ length header.image.now) × (length header.image.now ≤ 65536) × (to + (item_head + data_size_in (drop header.at header.image.now)) ≤ length out.old) }
    ensures { (result ≡ to + (item_head + data_size_in (drop header.entry.at header.entry.image.now))) × (out.new ≡ written to (item_bytes (image_item (drop leaf_header header.entry.image.now) (drop header.entry.at header.entry.image.now))) out.old) }
{
    let start = LEAF_HEADER + header.position() as usize;
    let size = header.size() as usize;
    let inside = item_list::append_head(header.key(), size, out, to);
    item_list::append(header.image, start, start + size, out, inside)
}

// The items of a packed image go to `out` as an item list.
fn put_sheet(image: &[u8], count: usize, out: &mut [u8])
    requires { (length image.now ≤ 65536) × IsPacked image.now × (count ≡ length (listed_in image.now)) × (length (sheet_bytes (listed_in image.now)) ≤ length out.old) }
    ensures { out.new ≡ written 0 (sheet_bytes (listed_in image.now)) out.old }
{
    fields::put_u8(out, 0, 1);
    let mut at = LEAF_HEADER;
    let mut to: usize = 1;
    for _ in 0..count {
        to = put_item(Header { image, at }, out, to);
        at += ITEM_HEADER;
    }
}

pub fn read(nodesize: u32, image: &[u8], out: &mut [u8]) -> Result<Edited, Refusal>
    ensures { Answered (held_sheet (length out.old) (read_image nodesize image.now)) result out.old out.new }
{
    if !item_list::nodesize_fits(nodesize) {
        return Err(Refusal::RANGE);
    }
    if !is_leaf(nodesize as usize, image) {
        return Err(Refusal::NO_LEAF);
    }
    let packed = checking::check(image)?;
    if out.len() < packed.size {
        return Err(Refusal::NO_ROOM);
    }
    put_sheet(image, packed.count, out);
    Ok(Edited::Written(packed.size))
}
