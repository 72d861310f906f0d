// The references of one record: in order, counting, no name twice among them; and their weight.
ghost use Rattle.std.specs.Prelude.{◌≡◌, ◌+◌, ◌≤◌, T, length, drop, None};
ghost use Rattle.format.specs.Constants.{most_sheet};
ghost use Rattle.format.specs.References.{known, payload_length, count_position, ref_at, rank};
ghost use Rattle.inline_refs.specs.Steps.{read_from};
ghost use Rattle.data_refs.specs.Triples.{triple_size};
ghost use Rattle.balance.specs.Spans.{last_rank, RunKept, one_more, Admitting, weighed_of, Light};

use crate::together;
use format::{EXTENT_DATA_REF, EXTENT_OWNER_REF};
use inline_refs::{Cursor, Kinds, RefAt};

// The references passed last: their type, what they are ordered by, where the first of them stands, how many there are, and of
// how many from the first on it is known that they have that rank and that their triples differ. Only data references of one hash
// are more than one. The rank of a reference is computed once another of its type stands beside it.
#[derive(Clone, Copy)]
pub struct Run {
    pub kind: u8,
    pub rank: Option<u64>,
    pub from: usize,
    pub n: usize,
    pub known: usize,
}

// One more reference that may stand there: the references passed with it, and its weight.
#[derive(Clone, Copy)]
pub struct Admitted {
    pub run: Run,
    pub weight: u32,
}

// What the references passed are ordered by.
fn last_rank(body: &[u8], run: Run) -> u64
    requires { T (known run.kind) × (run.rank ≡ None → run.from + 1 + payload_length run.kind ≤ length body.now) }
    ensures { result ≡ last_rank body.now run }
{
    match run.rank {
        Some(rank) => rank,
        None => inline_refs::rank_at(body, run.kind, run.from + 1),
    }
}

// The data references passed and one more of their hash.
fn one_more(run: Run, rank: Option<u64>, known: usize) -> Run
    requires { run.n ≤ most_sheet }
    ensures { result ≡ one_more run rank known }
{
    Run {
        kind: EXTENT_DATA_REF,
        rank,
        from: run.from,
        n: run.n + 1,
        known,
    }
}

// A data reference whose hash is not below that of the data references passed, `last`.
fn join(
    body: &[u8],
    run: Run,
    at: usize,
    start: usize,
    last: u64,
    own: u64,
    weight: u32,
) -> Option<Admitted>
    requires kind_value { (run.kind ≡ 178) × ((last ≡ last_rank body.now run) × ((last ≤ own) × (weight ≡ 0 → ⊥))) }
    requires start_value { (start ≡ at + 1) × ((at + triple_size ≤ length body.now) × RunKept body.now run at) }
    requires weight_value { (weight ≡ (ref_at 178 (drop start body.now)).weight) × (own ≡ rank (ref_at 178 (drop start body.now))) }
    requires body_len_bound { length body.now ≤ most_sheet }
    ensures { Admitting body.now run (ref_at 178 (drop start body.now)) (start + payload_length 178) result }
{
    if last < own {
        return None;
    }
    let known = together::known_in(body, run.from, run.n, own);
    if together::stands_twice(body, run.from, run.n, known, at) {
        return None;
    }
    Some(Admitted {
        run: one_more(run, Some(own), known),
        weight,
    })
}

// A reference of the type of those passed: they are ordered by their ranks.
fn follow(body: &[u8], run: Run, at: usize, start: usize, weight: u32) -> Option<Admitted>
    requires t { T (known run.kind) × ((run.kind ≡ 172 → ⊥) × (weight ≡ 0 → ⊥)) }
    requires start_value { (start ≡ at + 1) × ((start + payload_length run.kind ≤ length body.now) × RunKept body.now run at) }
    requires weight_value { (weight ≡ (ref_at run.kind (drop start body.now)).weight) × (length body.now ≤ most_sheet) }
    ensures { Admitting body.now run (ref_at run.kind (drop start body.now)) (start + payload_length run.kind) result }
{
    if run.n < run.known {
        return Some(Admitted {
            run: one_more(run, run.rank, run.known),
            weight,
        });
    }
    let last = last_rank(body, run);
    let own = inline_refs::rank_at(body, run.kind, start);
    if own < last {
        return Some(Admitted {
            run: Run {
                kind: run.kind,
                rank: Some(own),
                from: at,
                n: 1,
                known: 0,
            },
            weight,
        });
    }
    if run.kind != EXTENT_DATA_REF {
        return None;
    }
    join(body, run, at, start, last, own, weight)
}

// The reference that stands at `at`, if it may follow those passed.
fn admit(body: &[u8], run: Run, at: usize, reference: RefAt) -> Option<Admitted>
    requires t { T (known reference.kind) × (reference.start + payload_length reference.kind ≤ length body.now) × (reference.count ≡ count_position reference.kind) }
    requires start_value { (reference.start ≡ at + 1) × RunKept body.now run at }
    requires body_len_bound { length body.now ≤ most_sheet }
    ensures { Admitting body.now run (ref_at reference.kind (drop reference.start body.now)) (reference.start + payload_length reference.kind) result }
{
    let RefAt {
        kind,
        start,
        count,
        ..
    } = reference;
    if kind < run.kind {
        return None;
    }
    let weight = inline_refs::weight_at(body, kind, start, count);
    let alone = Run {
        kind,
        rank: None,
        from: at,
        n: 1,
        known: 0,
    };
    if kind == EXTENT_OWNER_REF {
        return Some(Admitted { run: alone, weight });
    }
    if weight == 0 {
        return None;
    }
    if run.kind < kind {
        return Some(Admitted { run: alone, weight });
    }
    follow(body, run, at, start, weight)
}

// The weight of the references from `start` to the end of a body; nothing if they do not read or do not stand as they must.
pub fn weigh_refs(kinds: &Kinds, body: &[u8], start: usize) -> Option<u64>
    requires { (length body.now ≤ most_sheet) × (start ≤ length body.now) }
    ensures { (result ≡ weighed_of (read_from body.now start)) × Light (length body.now) result }
{
    let mut cursor = Cursor { at: start };
    let mut run = Run {
        kind: 0,
        rank: Some(0),
        from: start,
        n: 0,
        known: 0,
    };
    let mut sum: u64 = 0;
    while let Some(reference) = cursor.step(kinds, body).ok()? {
        let admitted = admit(body, run, cursor.at, reference)?;
        run = admitted.run;
        sum += admitted.weight as u64;
        cursor = reference.next;
    }
    Some(sum)
}
