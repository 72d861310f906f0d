// Whether a name stands among the references of one type. Their ranks never rise, and those of reference items rise: the search goes
// down from where the last one ended, in steps that double, and then by halves.
ghost use Rattle.std.specs.Prelude.{◌≡◌, not, cond, ◌+◌, ◌-◌, ◌*◌, ◌≤◌, ◌<◌, ltb};
ghost use Rattle.format.specs.References.{payload_length, rank_of};
ghost use Rattle.inline_refs.specs.Scans.{kind_of, fields_of};
ghost use Rattle.balance.specs.Ranks.{Falling, CutsAt, absent_in};

use crate::span::Span;
use inline_refs::RefName;

// The numbers between which the first reference of no higher rank is.
#[derive(Clone, Copy)]
pub struct Bounds {
    pub low: usize,
    pub high: usize,
}

fn narrow(bounds: Bounds, mid: usize, rank: u64, middle: u64) -> Bounds
    requires { (mid + 1 ≤ bounds.high) × (bounds.low ≤ mid) }
    ensures { result ≡ cond (ltb rank middle) (record { low = mid + 1; high = bounds.high }) (record { low = bounds.low; high = mid }) }
{
    if rank < middle {
        return Bounds {
            low: mid + 1,
            ..bounds
        };
    }
    Bounds {
        high: mid,
        ..bounds
    }
}

// The number of the reference at which a search begins.
fn begins_at(span: Span) -> usize
    ensures { 0 < span.n → result < span.n }
{
    span.near.min(span.n.saturating_sub(1))
}

// The number to look at next: `step` below the high bound, and not past the middle.
fn middle_of(bounds: Bounds, step: usize) -> usize
    requires { (bounds.low ≤ bounds.high) × (1 ≤ step) }
    ensures { (result ≤ bounds.high) × (((bounds.high - result) * 2 ≤ bounds.high - bounds.low + 1) × (bounds.low < bounds.high → result < bounds.high)) }
{
    let apart = bounds.high - bounds.low;
    let half = apart - apart / 2;
    bounds.high - step.min(half)
}

// The number of the first reference whose rank is not above `rank`.
pub fn first_below(body: &[u8], size: usize, span: Span, rank: u64) -> usize
    requires { (size ≡ 1 + payload_length span.kind) × Falling body.now span }
    ensures { CutsAt body.now span rank result }
{
    let mut bounds = Bounds {
        low: 0,
        high: span.n,
    };
    let mut mid = begins_at(span);
    let mut step: usize = 1;
    while bounds.low < bounds.high {
        let middle = inline_refs::rank_at(body, span.kind, span.from + mid * size + 1);
        bounds = narrow(bounds, mid, rank, middle);
        mid = middle_of(bounds, step);
        step = (bounds.high - mid) * 2;
    }
    bounds.low
}

// Whether the wanted name stands among the references of its type, from the first whose rank is not above it.
pub fn stands(
    body: &[u8],
    size: usize,
    span: Span,
    wanted: RefName,
    rank: u64,
    first: usize,
) -> bool
    requires size_value { (size ≡ 1 + payload_length span.kind) × Falling body.now span }
    requires rank_value { (rank ≡ rank_of (kind_of wanted) (fields_of wanted)) × CutsAt body.now span rank first }
    ensures { result ≡ not (absent_in body.now span wanted) }
{
    for j in first..span.n {
        let start = span.from + j * size + 1;
        if inline_refs::rank_at(body, span.kind, start) != rank {
            return false;
        }
        if inline_refs::names(wanted, body, span.kind, start) {
            return true;
        }
    }
    false
}
