// Whether a record is held by one file's items at the lent offsets, and by nothing else.
ghost use Rattle.std.specs.Prelude.{◌≡◌, ◌≤◌, length};
ghost use Rattle.format.specs.Constants.{most_data};
ghost use Rattle.format.specs.Questions.{told_of};
ghost use Rattle.format.specs.References.{total_of, flags_of};
ghost use Rattle.format.specs.Bodies.{held_only_by};
ghost use Rattle.inline_refs.specs.Steps.{read_from};
ghost use Rattle.transaction.specs.Held.{held_in};

use crate::held_counts;
use crate::held_refs::{self, FileRefs};
use data_refs::Triples;
use format::{EXTENT_ITEM, MOST_DATA, MOST_OFFSETS, Refusal};
use inline_refs::Kinds;

// The cheap questions come first.
fn held_from(body: &[u8], start: usize, root: u64, ino: u64, offsets: &[u64]) -> bool
    requires in_bounds { (24 ≤ length body.now) × (length body.now ≤ most_data) }
    requires start_in_bounds { (start ≤ length body.now) × (length offsets.now ≤ 4096) }
    ensures { result ≡ held_in root ino offsets.now (total_of body.now) (flags_of body.now) (read_from body.now start) }
{
    if fields::get_u64_le(body, 0) != offsets.len() as u64 || fields::get_u64_le(body, 16) != 1 {
        return false;
    }
    let kinds = Kinds::new();
    match held_refs::file_refs(&kinds, body, start, root, ino) {
        Some(n) => held_counts::held_refs(FileRefs {
            refs: Triples {
                body,
                from: start,
                n,
            },
            root,
            ino,
            offsets,
        }),
        None => false,
    }
}

#[tactic(auto, unfolding(format::specs::Bodies::held_only_by, format::specs::Bodies::body_fits, format::specs::Questions::told_of, format::specs::Questions::ask))]
pub fn held_only_by(body: &[u8], root: u64, ino: u64, offsets: &[u64]) -> Result<bool, Refusal>
    ensures { result ≡ told_of (held_only_by body.now root ino offsets.now) }
{
    if MOST_DATA < body.len() || MOST_OFFSETS < offsets.len() {
        return Err(Refusal::RANGE);
    }
    let Ok(start) = inline_refs::open_body(EXTENT_ITEM, body) else {
        return Ok(false);
    };
    Ok(held_from(body, start, root, ino, offsets))
}
