// The one scan over the references of a body.
ghost use Rattle.std.specs.Prelude.{◌≡◌, false, ℕ, ◌+◌, ◌≤◌, T, length, drop};
ghost use Rattle.format.specs.References.{known, payload_length, count_position, ref_at, start_of, rank_of};
ghost use Rattle.inline_refs.specs.Steps.{read_from};
ghost use Rattle.inline_refs.specs.Scans.{kind_of, fields_of, KnownFor, found_at, scan_of, rest_of, refs_in};

use crate::kinds::Kinds;
use crate::noted::Found;
use crate::ref_name::{Ranked, RefName};
use crate::step::{Cursor, RefAt};
use extent_write::TreeRun;
use format::{EXTENT_DATA_REF, EXTENT_OWNER_REF, Refusal};

// What a scan has noted.
#[derive(Clone, Copy)]
pub enum Seen {
    // Neither the wanted reference nor one that a new one goes before; and whether one of its kind stood there.
    Open { others: bool },
    // A new one goes before the reference at `at`.
    Gap { at: usize, others: bool },
    // The wanted reference.
    Hit(Found),
    // The wanted reference, after one that a new one goes before.
    Late { gap: usize, found: Found },
}

// The weight of the reference of this kind whose payload starts at `start`.
pub fn weight_at(body: &[u8], kind: u8, start: usize, count: usize) -> u32
    requires { T (known kind) × (start + payload_length kind ≤ length body.now) × (count ≡ count_position kind) }
    ensures { result ≡ (ref_at kind (drop start body.now)).weight }
{
    if 0 < count {
        return fields::get_u32_le(body, start + count);
    }
    if kind == EXTENT_OWNER_REF {
        return 0;
    }
    1
}

// The reference at a cursor, as an answer of a search.
pub fn found_at(body: &[u8], cursor: Cursor, reference: RefAt) -> Found
    requires { T (known reference.kind) × (reference.start + payload_length reference.kind ≤ length body.now) × (reference.count ≡ count_position reference.kind) }
    ensures { result ≡ found_at cursor.at reference.next.at (ref_at reference.kind (drop reference.start body.now)) }
{
    Found {
        at: cursor.at,
        next: reference.next.at,
        weight: weight_at(body, reference.kind, reference.start, reference.count),
    }
}

// A scan has one loop for each thing that it still looks for, so that no loop asks what was noted before. This is the last, where
// nothing is noted any more: from `start` to the end of the body.
fn rest_of(kinds: &Kinds, body: &[u8], start: usize) -> Result<(), Refusal>
    ensures { result ≡ rest_of (read_from body.now start) }
{
    let mut cursor = Cursor { at: start };
    while let Some(reference) = cursor.step(kinds, body)? {
        cursor = reference.next;
    }
    Ok(())
}

// From `start` on, behind the reference at `gap` that a new one goes before: only the wanted one is looked for.
fn scan_gap(
    kinds: &Kinds,
    body: &[u8],
    start: usize,
    wanted: RefName,
    gap: usize,
    stood: bool,
) -> Result<Seen, Refusal>
    ensures { (rank : ℕ) → result ≡ scan_of wanted rank start (Seen.Gap gap stood) (read_from body.now start) }
{
    let sought = crate::ref_name::kind_of(wanted);
    let mut cursor = Cursor { at: start };
    let mut others = stood;
    while let Some(reference) = cursor.step(kinds, body)? {
        if crate::ref_name::names(wanted, body, reference.kind, reference.start) {
            let found = found_at(body, cursor, reference);
            rest_of(kinds, body, reference.next.at)?;
            return Ok(Seen::Late { gap, found });
        }
        others |= reference.kind == sought;
        cursor = reference.next;
    }
    Ok(Seen::Gap { at: gap, others })
}

// From `start` to the end of the body. The wanted reference is looked for first: it never stops a new one.
fn scan_from(
    kinds: &Kinds,
    body: &[u8],
    start: usize,
    wanted: RefName,
    rank: u64,
    own: TreeRun,
) -> Result<Seen, Refusal>
    ensures { result ≡ scan_of wanted rank start (Seen.Open false) (read_from body.now start) }
{
    let sought = crate::ref_name::kind_of(wanted);
    let mut cursor = Cursor { at: start };
    let mut others = false;
    while let Some(reference) = cursor.step(kinds, body)? {
        if crate::ref_name::names(wanted, body, reference.kind, reference.start) {
            let found = found_at(body, cursor, reference);
            rest_of(kinds, body, reference.next.at)?;
            return Ok(Seen::Hit(found));
        }
        others |= reference.kind == sought;
        if crate::ref_name::stops_at(sought, rank, own, body, reference.kind, reference.start) {
            return scan_gap(kinds, body, reference.next.at, wanted, cursor.at, others);
        }
        cursor = reference.next;
    }
    Ok(Seen::Open { others })
}

// From `start` to the end of the body, by the wanted one's own rank.
fn scan_ranked(
    kinds: &Kinds,
    body: &[u8],
    start: usize,
    wanted: RefName,
    known: Option<Ranked>,
) -> Result<Seen, Refusal>
    requires { KnownFor wanted known }
    ensures { result ≡ scan_of wanted (rank_of (kind_of wanted) (fields_of wanted)) start (Seen.Open false) (read_from body.now start) }
{
    let ranked = crate::ref_name::rank_by(wanted, known);
    scan_from(kinds, body, start, wanted, ranked.rank, ranked.own)
}

// The same for a data reference, whose rank costs a hash: the first reference is looked at before. Where a count is raised again,
// it is often the wanted one, and no rank is needed.
fn scan_first(
    kinds: &Kinds,
    body: &[u8],
    start: usize,
    wanted: RefName,
    known: Option<Ranked>,
) -> Result<Seen, Refusal>
    requires { KnownFor wanted known }
    ensures { result ≡ scan_of wanted (rank_of (kind_of wanted) (fields_of wanted)) start (Seen.Open false) (read_from body.now start) }
{
    let cursor = Cursor { at: start };
    let Some(reference) = cursor.step(kinds, body)? else {
        return Ok(Seen::Open { others: false });
    };
    if !crate::ref_name::names(wanted, body, reference.kind, reference.start) {
        return scan_ranked(kinds, body, start, wanted, known);
    }
    let found = found_at(body, cursor, reference);
    rest_of(kinds, body, reference.next.at)?;
    Ok(Seen::Hit(found))
}

// Questions 3 and 6 to 8, and the scan of a body's references. No caller asks by a data reference's rank, so no tree's run is made.
pub fn scan_body(item_type: u8, body: &[u8], wanted: RefName, rank: u64) -> Result<Seen, Refusal>
    ensures { result ≡ scan_of wanted rank (start_of item_type body.now) (Seen.Open false) (refs_in item_type body.now) }
{
    let start = crate::start::open_body(item_type, body)?;
    let own = extent_write::no_tree_run();
    scan_from(&Kinds::new(), body, start, wanted, rank, own)
}

// The same for a reference that is to be added, by its own rank, which the caller may have.
pub fn scan_to_add(
    item_type: u8,
    body: &[u8],
    wanted: RefName,
    known: Option<Ranked>,
) -> Result<Seen, Refusal>
    requires { KnownFor wanted known }
    ensures { result ≡ scan_of wanted (rank_of (kind_of wanted) (fields_of wanted)) (start_of item_type body.now) (Seen.Open false) (refs_in item_type body.now) }
{
    let start = crate::start::open_body(item_type, body)?;
    let kinds = Kinds::new();
    if crate::ref_name::kind_of(wanted) == EXTENT_DATA_REF {
        return scan_first(&kinds, body, start, wanted, known);
    }
    scan_ranked(&kinds, body, start, wanted, known)
}
