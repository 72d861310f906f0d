// A further search in an item list that passed questions 1 and 2.
ghost use Rattle.std.specs.Prelude.{◌≡◌};
ghost use Rattle.item_list.specs.Steps.{ListedFrom, list_items_from};
ghost use Rattle.item_list.specs.Seeks.{seek_in};

use super::{Sought, stepping};
use format::Key;
use std::cmp::Ordering;

// Where a key stands among the items from `from` on, or where an item with it belongs.
pub fn seek(s: &[u8], from: usize, key: Key) -> Sought
    requires { ListedFrom s.now from }
    ensures { result ≡ seek_in key from (list_items_from s.now from) }
{
    let mut at = from;
    while at < s.len() {
        let size = stepping::size_at(s, at);
        let here = stepping::key_at(s, at);
        match here.cmp(&key) {
            Ordering::Less => at += size,
            Ordering::Equal => {
                return Sought::Present {
                    start: at,
                    end: at + size,
                };
            }
            Ordering::Greater => return Sought::Absent { at },
        }
    }
    Sought::Absent { at }
}
