// An item by its number, from 0.
ghost use Rattle.std.specs.Prelude.{◌≡◌, ◌+◌, MatchResult};
ghost use Rattle.format.specs.Questions.{refused, accepted, lent_number};
ghost use Rattle.format.specs.Sheets.{item_data, item_start};
ghost use Rattle.leaf_edit.specs.Lookups.{Ranged};

use format::{ITEM_HEAD, Refusal};
use item_list::ItemQuery;

// Where an item's data starts in its list, and how long it is.
#[derive(Clone, Copy)]
pub struct ItemRange {
    pub start: usize,
    pub size: usize,
}

// Its data, as a part of the list: these bytes, at their position in the caller's slice.
pub fn item<'a>(sheet: &'a [u8], index: usize) -> Result<&'a [u8], Refusal>
    ensures { MatchResult result (λ bytes. (item_data sheet.now index ≡ accepted bytes.now) × (bytes.ref_ptr.0 ≡ sheet.entry.ref_ptr.0) × (bytes.ref_ptr.1 ≡ lent_number (item_start sheet.now index) + sheet.entry.ref_ptr.1)) (λ refusal. item_data sheet.now index ≡ refused refusal.number) }
{
    let range = item_range(sheet, index)?;
    Ok(&sheet[range.start..range.start + range.size])
}

// Where its data starts and how long it is, for callers that can't be handed a part.
pub fn item_range(sheet: &[u8], index: usize) -> Result<ItemRange, Refusal>
    ensures { Ranged sheet.now index result }
{
    let listing = item_list::find(sheet, ItemQuery::Index(index))?;
    let place = listing.place.ok_or(Refusal::MISSING)?;
    let start = place.start + ITEM_HEAD;
    Ok(ItemRange {
        start,
        size: place.end - start,
    })
}
