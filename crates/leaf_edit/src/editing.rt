// An item put in or taken out.
ghost use Rattle.std.specs.Prelude.{◌≡◌, ◌&&◌, length, leb};
ghost use Rattle.format.specs.Constants.{most_data};
ghost use Rattle.format.specs.Questions.{Answered};
ghost use Rattle.format.specs.Items.{read_sheet, nodesize_fits, held_sheet};
ghost use Rattle.format.specs.Sheets.{insert, insert_unbounded, delete};
ghost use Rattle.leaf_edit.specs.Insertions.{insert_at_of, sizes_fit, put_new};

use super::InsertAt;
use format::{Edited, Key, MOST_DATA, Refusal};
use item_list::{ItemQuery, Splice};

// The list without the item of a key.
pub fn delete(sheet: &[u8], key: Key, out: &mut [u8]) -> Result<Edited, Refusal>
    ensures { Answered (held_sheet (length out.old) (delete sheet.now key)) result out.old out.new }
{
    let listing = item_list::find(sheet, ItemQuery::AtOrPast(key))?;
    let place = listing.place.ok_or(Refusal::MISSING)?;
    if item_list::is_past(sheet, place.start, key) {
        return Err(Refusal::MISSING);
    }
    let item = Splice {
        sheet,
        start: place.start,
        end: place.end,
    };
    item.remove(listing.count - 1, out)
}

// Questions 1, 2, 3 and 9: `three` says whether question 3 is answered with yes.
fn insert_at(sheet: &[u8], key: Key, three: bool) -> Result<InsertAt, Refusal>
    ensures { result ≡ insert_at_of key three (read_sheet sheet.now) }
{
    let listing = item_list::find(sheet, ItemQuery::AtOrPast(key))?;
    if !three {
        return Err(Refusal::RANGE);
    }
    let count = listing.count;
    let Some(place) = listing.place else {
        return Ok(InsertAt {
            at: sheet.len(),
            count,
        });
    };
    if item_list::is_past(sheet, place.start, key) {
        return Ok(InsertAt {
            at: place.start,
            count,
        });
    }
    Err(Refusal::STANDS)
}

// Question 3 of a nodesize and so many bytes of data.
pub fn new_fits(nodesize: u32, size: usize) -> bool
    ensures { result ≡ (nodesize_fits nodesize && leb size most_data) }
{
    item_list::nodesize_fits(nodesize) && size <= MOST_DATA
}

// Question 3 of a new item with so many bytes of data, and of the nodesize where a leaf's size is asked for.
fn sizes_fit(nodesize: Option<u32>, size: usize) -> bool
    ensures { result ≡ sizes_fit nodesize size }
{
    match nodesize {
        Some(nodesize) => new_fits(nodesize, size),
        None => size <= MOST_DATA,
    }
}

// The list with one more item; where there is a nodesize, only if it still fits a leaf. One function for both calls: what is
// called from one place is inlined. The output stands first, so that it comes in registers: it is needed last, but a call
// that hands it on through memory waits for it.
fn put_new(
    out: &mut [u8],
    sheet: &[u8],
    key: Key,
    body: &[u8],
    nodesize: Option<u32>,
) -> Result<Edited, Refusal>
    ensures { Answered (held_sheet (length out.old) (put_new nodesize sheet.now (record { key = key; bytes = body.now }))) result out.old out.new }
{
    let target = insert_at(sheet, key, sizes_fit(nodesize, body.len()))?;
    let space = 125 + sheet.len() + 4 * target.count + body.len();
    if let Some(nodesize) = nodesize {
        if (nodesize as usize) < space {
            return Err(Refusal::NO_FIT);
        }
    }
    let between = Splice {
        sheet,
        start: target.at,
        end: target.at,
    };
    between.put(target.count + 1, key, body, out)
}

// The list with one more item, however large.
pub fn insert_unbounded(
    sheet: &[u8],
    key: Key,
    body: &[u8],
    out: &mut [u8],
) -> Result<Edited, Refusal>
    ensures { Answered (held_sheet (length out.old) (insert_unbounded sheet.now (record { key = key; bytes = body.now }))) result out.old out.new }
{
    put_new(out, sheet, key, body, None)
}

// The list with one more item, if it still fits a leaf.
pub fn insert(
    nodesize: u32,
    sheet: &[u8],
    key: Key,
    body: &[u8],
    out: &mut [u8],
) -> Result<Edited, Refusal>
    ensures { Answered (held_sheet (length out.old) (insert nodesize sheet.now (record { key = key; bytes = body.now }))) result out.old out.new }
{
    put_new(out, sheet, key, body, Some(nodesize))
}
