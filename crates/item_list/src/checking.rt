// Questions 1 and 2 alone, and question 3.
ghost use Rattle.std.specs.Prelude.{◌≡◌, ◌≤◌, ◌-◌, length, drop};
ghost use Rattle.format.specs.Constants.{item_head, most_items};
ghost use Rattle.format.specs.Items.{read_items, read_sheet, nodesize_fits};
ghost use Rattle.item_list.specs.Steps.{checked_of};
ghost use Rattle.item_list.specs.Seeks.{verdict_of, checked_behind};

use super::{finding, stepping};
use format::{ITEM_HEAD, Key, MOST_ITEMS, Refusal};

// The answer after all items: whether they are too many, then whether their keys rise.
#[tactic(auto, unfolding(crate::specs::Seeks::verdict_of))]
pub fn verdict(count: usize, ordered: bool) -> Result<usize, Refusal>
    ensures { result ≡ verdict_of count ordered }
{
    if MOST_ITEMS < count {
        return Err(Refusal::NO_LIST);
    }
    if !ordered {
        return Err(Refusal::KEYS);
    }
    Ok(count)
}

// The items from `from` on, behind `before` others. The last of those takes `last_size` bytes and has the key `last`, and
// `ordered` says whether their keys rise. A fault in a later item is refusal 1 even where keys fell before it, and so are more
// items than a list may have: a list has room for three times as many, so they are counted to its end.
pub fn check_behind(
    s: &[u8],
    from: usize,
    before: usize,
    last_size: usize,
    last: Key,
    ordered: bool,
) -> Result<usize, Refusal>
    requires { (before ≤ from) × (from ≤ length s.now) × (item_head ≤ last_size) × (last_size ≤ 65556) }
    ensures { result ≡ checked_behind before ordered last (read_items (most_items - before) (drop from s.now)) }
{
    let mut at = from;
    let mut n = before;
    let mut size = last_size;
    let mut key = last;
    let mut rising = ordered;
    while at < s.len() {
        size = stepping::size_after(s, at, size);
        if size == 0 {
            return Err(Refusal::NO_LIST);
        }
        let here = stepping::key_at(s, at);
        rising = finding::follows(rising, n, key, here);
        key = here;
        at += size;
        n += 1;
    }
    verdict(n, rising)
}

pub fn check(sheet: &[u8]) -> Result<usize, Refusal>
    ensures { result ≡ checked_of (read_sheet sheet.now) }
{
    if !finding::opens(sheet) {
        return Err(Refusal::NO_LIST);
    }
    check_behind(sheet, 1, 0, ITEM_HEAD, Key::default(), true)
}

// Question 3 of a nodesize.
#[tactic(auto, unfolding(format::specs::Items::nodesize_fits))]
pub fn nodesize_fits(nodesize: u32) -> bool
    ensures { result ≡ nodesize_fits nodesize }
{
    (501..=65536).contains(&nodesize)
}
