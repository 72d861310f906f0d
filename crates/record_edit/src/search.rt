// The search for an extent's record, in the pass that answers questions 1 and 2.
ghost use Rattle.record_edit.specs.Records.{Finds};

use super::{FoundRecord, RecordAt};
use format::Refusal;
use item_list::ItemQuery;

// Questions 1, 2 and 3, where `three` says whether question 3 is answered with yes; then the extent's record, if the list has it.
pub fn find_record(sheet: &[u8], extent: u64, three: bool) -> Result<Option<FoundRecord>, Refusal>
    ensures { Finds sheet.now extent three result }
{
    let listing = item_list::find(sheet, ItemQuery::Record(extent))?;
    if !three {
        return Err(Refusal::RANGE);
    }
    let Some(place) = listing.place else {
        return Ok(None);
    };
    let target = RecordAt {
        key: item_list::key_at(sheet, place.start),
        start: place.start,
        end: place.end,
        item_count: listing.count,
    };
    Ok(Some(FoundRecord {
        index: place.index,
        target,
    }))
}
