// Questions 24 and 2 of an image, in one pass over its item headers.
ghost use Rattle.std.specs.Prelude.{◌≡◌, ◌+◌, ◌*◌, ◌≤◌, length};
ghost use Rattle.format.specs.Constants.{leaf_header, item_header};
ghost use Rattle.format.specs.LeafImage.{count_in};
ghost use Rattle.leaf_image.specs.Packing.{packed};

use super::Packed;
use super::headers::Header;
use format::{ITEM_HEAD, ITEM_HEADER, Key, LEAF_HEADER, Refusal};

// The headers one by one: each one's data is to end where the one before begins, the first one's at the image's end. So positions
// never rise, and only the last has to be held against the end of the headers. Keys that fall are refused after all headers: a fault
// of packing in a later one is refused first.
fn walk(image: &[u8], count: usize) -> Result<Packed, Refusal>
    requires { (count ≡ count_in image.now) × (leaf_header + item_header * count ≤ length image.now) }
    ensures { result ≡ packed image.now }
{
    let area = image.len() - LEAF_HEADER;
    let mut at = LEAF_HEADER;
    let mut end = area;
    let mut last = Key::default();
    let mut ordered = true;
    for n in 0..count {
        let header = Header { image, at };
        let position = header.position() as usize;
        if position + header.size() as usize != end {
            return Err(Refusal::PACKING);
        }
        let key = header.key();
        ordered = item_list::follows(ordered, n, last, key);
        last = key;
        end = position;
        at += ITEM_HEADER;
    }
    if end < ITEM_HEADER * count {
        return Err(Refusal::PACKING);
    }
    if ordered {
        return Ok(Packed {
            count,
            size: 1 + ITEM_HEAD * count + (area - end),
        });
    }
    Err(Refusal::KEYS)
}

// More headers than the image holds are refused without a look at them: the first one's data could not begin behind them all.
pub fn check(image: &[u8]) -> Result<Packed, Refusal>
    requires { leaf_header ≤ length image.now }
    ensures { result ≡ packed image.now }
{
    let count = fields::get_u32_le(image, 96) as usize;
    if image.len() - LEAF_HEADER < ITEM_HEADER * count {
        return Err(Refusal::PACKING);
    }
    walk(image, count)
}
