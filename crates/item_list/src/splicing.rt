// The writer of an edit: question 21, then one splice of the bytes from left to right. The pieces are apart, so that a body which
// is itself a splice can be written between head and suffix.
ghost use Rattle.std.specs.Prelude.{◌≡◌, [], ◌+◌, ◌-◌, ◌≤◌, length};
ghost use Rattle.fields.specs.Parts.{part, written, spliced};
ghost use Rattle.format.specs.Constants.{item_head, most_data, most_sheet};
ghost use Rattle.format.specs.Questions.{Answered};
ghost use Rattle.format.specs.Items.{item_bytes};
ghost use Rattle.item_list.specs.ItemWrites.{head_bytes, room_for, held_bytes};

use format::{Edited, ITEM_HEAD, Key, MOST_ITEMS, MOST_SHEET, Refusal};

// The bytes of `src` from `from` up to `to` go to `out` at `at`. Returns the position past them.
// Kept beside `fields::append`: with a part as argument a caller shows three bounds and the part's length, here one clause.
pub fn append(src: &[u8], from: usize, to: usize, out: &mut [u8], at: usize) -> usize
    requires { (from ≤ to) × (to ≤ length src.now) × (to - from ≤ most_sheet) × (at + (to - from) ≤ length out.old) }
    ensures { (result ≡ at + (to - from)) × (out.new ≡ written at (part from (to - from) src.now) out.old) }
{
    fields::append(&src[from..to], out, at)
}

// The first 21 bytes of an item with `size` bytes of data go to `out` at `at`. Returns the position past them.
pub fn append_head(key: Key, size: usize, out: &mut [u8], at: usize) -> usize
    requires { (size ≤ most_data) × (at + item_head ≤ length out.old) }
    ensures { (result ≡ at + item_head) × (out.new ≡ written at (head_bytes key size) out.old) }
{
    fields::put_u32_be(out, at, (17 + size) as u32);
    fields::put_u64_be(out, at + 4, key.objectid);
    fields::put_u8(out, at + 12, key.kind);
    fields::put_u64_be(out, at + 13, key.offset);
    at + ITEM_HEAD
}

// Question 21 of so many bytes and items.
#[tactic(auto, unfolding(crate::specs::ItemWrites::room_for))]
pub fn room_for(room: usize, size: usize, count: usize) -> bool
    ensures { result ≡ room_for room size count }
{
    size <= room && size <= MOST_SHEET && count <= MOST_ITEMS
}

// What of a list gives way: its bytes from `start` up to `end`.
#[derive(Clone, Copy)]
pub struct Splice<'a> {
    pub sheet: &'a [u8],
    pub start: usize,
    pub end: usize,
    ghost inside: { (start ≤ end) × (end ≤ length sheet.now) × (length sheet.now ≤ most_sheet) },
}

impl Splice<'_> {
    // The bytes of the list with an item there.
    fn write(self, key: Key, body: &[u8], out: &mut [u8])
        requires { (length body.now ≤ most_data) × (self.start + (item_head + length body.now) + (length self.sheet.now - self.end) ≤ length out.old) }
        ensures { out.new ≡ written 0 (spliced self.entry.start self.entry.end (item_bytes (record { key = key; bytes = body.now })) self.entry.sheet.now) out.old }
    {
        let head = fields::append(&self.sheet[..self.start], out, 0);
        let inside = append_head(key, body.len(), out, head);
        let rest = fields::append(body, out, inside);
        fields::append(&self.sheet[self.end..], out, rest);
    }

    // An item goes there, and the list into `out`. `count` is the number of items that this makes.
    pub fn put(self, count: usize, key: Key, body: &[u8], out: &mut [u8]) -> Result<Edited, Refusal>
        requires { length body.now ≤ most_data }
        ensures { Answered (held_bytes (length out.old) count (spliced self.entry.start self.entry.end (item_bytes (record { key = key; bytes = body.now })) self.entry.sheet.now)) result out.old out.new }
    {
        let size = self.start + (ITEM_HEAD + body.len()) + (self.sheet.len() - self.end);
        if !room_for(out.len(), size, count) {
            return Err(Refusal::NO_ROOM);
        }
        self.write(key, body, out);
        Ok(Edited::Written(size))
    }

    // Nothing goes there, and the list into `out`. `count` is the number of items that are left.
    pub fn remove(self, count: usize, out: &mut [u8]) -> Result<Edited, Refusal>
        ensures { Answered (held_bytes (length out.old) count (spliced self.entry.start self.entry.end [] self.entry.sheet.now)) result out.old out.new }
    {
        let size = self.start + (self.sheet.len() - self.end);
        if !room_for(out.len(), size, count) {
            return Err(Refusal::NO_ROOM);
        }
        let rest = fields::append(&self.sheet[..self.start], out, 0);
        fields::append(&self.sheet[self.end..], out, rest);
        Ok(Edited::Written(size))
    }
}
