// One step over items: what stands at a position, and its key.
ghost use Rattle.std.specs.Prelude.{◌≡◌, ◌+◌, ◌≤◌, length};
ghost use Rattle.format.specs.Constants.{item_head};
ghost use Rattle.format.specs.Items.{key_below};
ghost use Rattle.item_list.specs.Steps.{item_at, item_size_at};

use format::Key;

// How many bytes the item at a position takes, or 0 if no whole item stands there.
// A number and no `Option`: with an enum for each step the pass was slower (`record_of` 185 instructions instead of 163).
pub fn size_at(s: &[u8], at: usize) -> usize
    requires { at ≤ length s.now }
    ensures { result ≡ item_size_at s.now at }
{
    let left = s.len() - at;
    if left < 4 {
        return 0;
    }
    let length = fields::get_u32_be(s, at) as usize;
    if length < 17 || 65552 < length || left < 4 + length {
        return 0;
    }
    4 + length
}

// The same behind an item of `last` bytes. Most items are as long as the one before: with its length at hand the processor goes
// on to the next while it still reads this one's.
pub fn size_after(s: &[u8], at: usize, last: usize) -> usize
    requires { (at ≤ length s.now) × (item_head ≤ last) × (last ≤ 65556) }
    ensures { result ≡ item_size_at s.now at }
{
    if last <= s.len() - at && fields::get_u32_be(s, at) as usize + 4 == last {
        return last;
    }
    size_at(s, at)
}

// The key of the item that starts at `at`.
pub fn key_at(s: &[u8], at: usize) -> Key
    requires { at + item_head ≤ length s.now }
    ensures { result ≡ (item_at s.now at).key }
{
    Key {
        objectid: fields::get_u64_be(s, at + 4),
        kind: s[at + 12],
        offset: fields::get_u64_be(s, at + 13),
    }
}

// Whether the item that starts at `at` stands past a key.
#[tactic(auto, using(format::proofs::Keys::key_lt))]
pub fn is_past(s: &[u8], at: usize, key: Key) -> bool
    requires { at + item_head ≤ length s.now }
    ensures { result ≡ key_below key (item_at s.now at).key }
{
    key < key_at(s, at)
}
