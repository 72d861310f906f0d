// Questions 1 and 2 and a search, in one pass.
ghost use Rattle.std.specs.Prelude.{◌≡◌, ◌&&◌, [], ◌≤◌, length, drop};
ghost use Rattle.format.specs.Constants.{most_items};
ghost use Rattle.format.specs.Questions.{bind, ask, accepted};
ghost use Rattle.format.specs.Items.{read_items, read_sheet, rising};
ghost use Rattle.format.specs.Apply.{record_of};
ghost use Rattle.item_list.specs.Steps.{opens_list, following};
ghost use Rattle.item_list.specs.Seeks.{passing, listing_of};

use super::{ItemPlace, ItemQuery, Listing, checking, stepping};
use format::{EXTENT_ITEM, ITEM_HEAD, Key, METADATA_ITEM, MOST_ITEMS, MOST_SHEET, Refusal};

// Whether keys still rise after item number `n` with its key.
#[tactic(auto, using(format::proofs::Keys::key_lt), unfolding(crate::specs::Steps::following))]
pub fn follows(ordered: bool, n: usize, last: Key, key: Key) -> bool
    ensures { result ≡ (ordered && following n last key) }
{
    ordered && (n == 0 || last < key)
}

// Whether an item with this key is the record of an extent.
#[tactic(auto, unfolding(format::specs::Apply::is_record))]
fn is_record(key: Key, extent: u64) -> bool
    ensures { result ≡ record_of extent (record { key = key; bytes = [] }) }
{
    key.objectid == extent && matches!(key.kind, EXTENT_ITEM | METADATA_ITEM)
}

// Whether item number `n` with its key is wanted.
#[tactic(auto, using(format::proofs::Keys::key_ge), unfolding(crate::specs::Seeks::passing))]
fn passes(query: ItemQuery, n: usize, key: Key) -> bool
    ensures { result ≡ passing query n (record { key = key; bytes = [] }) }
{
    match query {
        ItemQuery::Index(index) => n == index,
        ItemQuery::Record(extent) => is_record(key, extent),
        ItemQuery::AtOrPast(from) => key >= from,
    }
}

// The items after the version byte, up to the wanted one; those behind it are only checked.
fn walk(s: &[u8], query: ItemQuery) -> Result<Listing, Refusal>
    requires { 1 ≤ length s.now }
    ensures { result ≡ listing_of (passing query) (bind (read_items most_items (drop 1 s.now)) (λ items. ask (rising items) 2 (accepted items))) }
{
    let mut at: usize = 1;
    let mut n: usize = 0;
    let mut size = ITEM_HEAD;
    let mut key = Key::default();
    let mut ordered = true;
    while at < s.len() {
        size = stepping::size_after(s, at, size);
        if size == 0 {
            return Err(Refusal::NO_LIST);
        }
        let here = stepping::key_at(s, at);
        ordered = follows(ordered, n, key, here);
        key = here;
        if passes(query, n, key) {
            let end = at + size;
            let count = checking::check_behind(s, end, n + 1, size, key, ordered)?;
            let place = ItemPlace {
                index: n,
                start: at,
                end,
            };
            return Ok(Listing {
                count,
                place: Some(place),
            });
        }
        at += size;
        n += 1;
    }
    // The questions of `checking::verdict`, put here: were they put by a call, the loop would have no register left for the query.
    if MOST_ITEMS < n {
        return Err(Refusal::NO_LIST);
    }
    if !ordered {
        return Err(Refusal::KEYS);
    }
    Ok(Listing {
        count: n,
        place: None,
    })
}

// Question 1 before the items: version and length.
#[tactic(auto, unfolding(crate::specs::Steps::opens_list))]
pub fn opens(sheet: &[u8]) -> bool
    ensures { result ≡ opens_list sheet.now }
{
    matches!(sheet, [1, ..]) && sheet.len() <= MOST_SHEET
}

// Whether the bytes are an item list, and where the first wanted item stands.
pub fn find(sheet: &[u8], query: ItemQuery) -> Result<Listing, Refusal>
    ensures { result ≡ listing_of (passing query) (read_sheet sheet.now) }
{
    if !opens(sheet) {
        return Err(Refusal::NO_LIST);
    }
    walk(sheet, query)
}
