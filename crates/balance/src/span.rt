// Where the references of one type stand in a record whose references are in order.
ghost use Rattle.std.specs.Prelude.{◌≡◌, ◌+◌, ◌≤◌, T, length, Some};
ghost use Rattle.format.specs.References.{known as is_known, payload_length, ordered};
ghost use Rattle.balance.specs.Ranks.{Readable, refs_from, Skips, CountsIn, Spanned};

use inline_refs::{Cursor, Kinds};

// The references of a type: where the first of them stands, how many there are, and at which of them the last search ended (`n`:
// none was made, or all are above). The next search begins there, which is a hint and no more: it may be any number.
#[derive(Clone, Copy)]
pub struct Span {
    pub kind: u8,
    pub from: usize,
    pub n: usize,
    pub near: usize,
}

// Where the first reference of this type or a higher one stands.
fn skip(kinds: &Kinds, body: &[u8], start: usize, kind: u8) -> usize
    requires { Readable body.now start × (start ≤ length body.now) }
    ensures { Skips body.now start kind result }
{
    let mut cursor = Cursor { at: start };
    while let Some(reference) = cursor.step(kinds, body).unwrap_or(None) {
        if kind <= reference.kind {
            return cursor.at;
        }
        cursor = reference.next;
    }
    cursor.at
}

// How many references of this type stand from there on.
fn count(kinds: &Kinds, body: &[u8], from: usize, kind: u8) -> usize
    requires { Readable body.now from × (from ≤ length body.now) }
    ensures { CountsIn body.now from kind result }
{
    let mut cursor = Cursor { at: from };
    let mut n = 0;
    while let Some(reference) = cursor.step(kinds, body).unwrap_or(None) {
        if reference.kind != kind {
            return n;
        }
        cursor = reference.next;
        n += 1;
    }
    n
}

pub fn find_span(kinds: &Kinds, body: &[u8], start: usize, kind: u8) -> Span
    requires readable { Readable body.now start × (start ≤ length body.now) }
    requires t { T (is_known kind) × ((kind ≡ 172 → ⊥) × T (ordered (refs_from body.now start))) }
    ensures { Spanned body.now start result × (result.kind ≡ kind) }
{
    let from = skip(kinds, body, start, kind);
    let n = count(kinds, body, from, kind);
    Span {
        kind,
        from,
        n,
        near: n,
    }
}

// The same where those of one type are known already.
pub fn span_for(kinds: &Kinds, body: &[u8], start: usize, known: Option<Span>, kind: u8) -> Span
    requires readable { Readable body.now start × (start ≤ length body.now) }
    requires t { T (is_known kind) × ((kind ≡ 172 → ⊥) × T (ordered (refs_from body.now start))) }
    requires spanned { (span : Span) → known ≡ Some span → span.kind ≡ kind → Spanned body.now start span }
    ensures { Spanned body.now start result × (result.kind ≡ kind) }
{
    match known {
        Some(span) if span.kind == kind => span,
        _ => find_span(kinds, body, start, kind),
    }
}

// How many bytes a reference of this type takes.
pub fn stride(kinds: &Kinds, kind: u8) -> usize
    ensures { result ≡ 1 + payload_length kind }
{
    match kinds.row_of(kind) {
        Some(row) => 1 + row.payload,
        None => 1,
    }
}
