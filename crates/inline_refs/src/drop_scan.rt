// The scan of a drop: the first reference of the wanted name, and what those of its name behind it count. A body may have a name
// twice. It stands apart from the scan of an add, which has no sum to pay for.
ghost use Rattle.std.specs.Prelude.{◌≡◌, ◌≤◌, T, length};
ghost use Rattle.format.specs.Constants.{most_data};
ghost use Rattle.format.specs.References.{known, payload_length, count_position, start_of};
ghost use Rattle.inline_refs.specs.Steps.{ref_step_at, read_from};
ghost use Rattle.inline_refs.specs.Scans.{behind_of, drop_scan_of, refs_in};

use crate::kinds::{Kinds, Lengths};
use crate::noted::Found;
use crate::ref_name::RefName;
use crate::step::{Cursor, RefAt};
use format::Refusal;

// The first wanted reference, and what the wanted ones behind it count.
#[derive(Clone, Copy)]
pub struct First {
    pub found: Found,
    pub behind: u64,
}

// The step of a cursor at `at`. References of one kind stand together, so that of the wanted one is tried first: its lengths are
// at hand, and the processor goes on to the next reference without the table.
fn step_among(
    kinds: &Kinds,
    body: &[u8],
    cursor: Cursor,
    wanted: u8,
    own: Lengths,
) -> Result<Option<RefAt>, Refusal>
    requires { T (known wanted) × (own.payload ≡ payload_length wanted) × (own.count ≡ count_position wanted) }
    ensures { result ≡ ref_step_at body.now cursor.at }
{
    let at = cursor.at;
    if body.len() <= at || body[at] != wanted {
        return cursor.step(kinds, body);
    }
    let start = at + 1;
    let size = own.payload;
    if body.len() - start < size {
        return Err(Refusal::CUT);
    }
    Ok(Some(RefAt {
        kind: wanted,
        start,
        size,
        count: own.count,
        next: Cursor { at: start + size },
    }))
}

// From `start` to the end of the body.
fn sum_behind(kinds: &Kinds, body: &[u8], start: usize, wanted: RefName) -> Result<u64, Refusal>
    requires { length body.now ≤ most_data }
    ensures { result ≡ behind_of wanted (read_from body.now start) }
{
    let sought = crate::ref_name::kind_of(wanted);
    let own = crate::lengths::lengths_for(wanted);
    let mut cursor = Cursor { at: start };
    let mut sum: u64 = 0;
    while let Some(other) = step_among(kinds, body, cursor, sought, own)? {
        if other.kind == sought && crate::ref_name::is_named(wanted, body, other.start) {
            let weight = crate::scan::weight_at(body, sought, other.start, own.count);
            sum += weight as u64;
        }
        cursor = other.next;
    }
    Ok(sum)
}

// From `start` to the end of the body.
fn drop_from(
    kinds: &Kinds,
    body: &[u8],
    start: usize,
    wanted: RefName,
) -> Result<Option<First>, Refusal>
    requires { length body.now ≤ most_data }
    ensures { result ≡ drop_scan_of wanted start (read_from body.now start) }
{
    let sought = crate::ref_name::kind_of(wanted);
    let own = crate::lengths::lengths_for(wanted);
    let mut cursor = Cursor { at: start };
    while let Some(reference) = step_among(kinds, body, cursor, sought, own)? {
        if reference.kind == sought && crate::ref_name::is_named(wanted, body, reference.start) {
            let found = crate::scan::found_at(body, cursor, reference);
            let behind = sum_behind(kinds, body, reference.next.at, wanted)?;
            return Ok(Some(First { found, behind }));
        }
        cursor = reference.next;
    }
    Ok(None)
}

// Questions 3 and 6 to 8, and the scan of a body's references.
pub fn scan_to_drop(item_type: u8, body: &[u8], wanted: RefName) -> Result<Option<First>, Refusal>
    ensures { result ≡ drop_scan_of wanted (start_of item_type body.now) (refs_in item_type body.now) }
{
    let start = crate::start::open_body(item_type, body)?;
    drop_from(&Kinds::new(), body, start, wanted)
}
