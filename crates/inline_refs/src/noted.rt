// What a scan's notes mean to a call: where the wanted reference stands, or where a new one goes.
ghost use Rattle.std.specs.Prelude.{◌≡◌};
ghost use Rattle.inline_refs.specs.Scans.{hit_of, add_anywhere, add_by_scan, others_in};

use crate::scan::Seen;

// Where the wanted reference stands, where the next one starts, and its weight.
#[derive(Clone, Copy)]
pub struct Found {
    pub at: usize,
    pub next: usize,
    pub weight: u32,
}

// The answer of an inline search.
#[tactic(auto, unfolding(crate::specs::Scans::hit_of))]
pub fn hit_of(seen: Seen) -> Option<Found>
    ensures { result ≡ hit_of seen }
{
    match seen {
        Seen::Hit(found) | Seen::Late { found, .. } => Some(found),
        Seen::Open { .. } | Seen::Gap { .. } => None,
    }
}

// Where an added reference goes: a new one at a position, or to the one that stands.
#[derive(Clone, Copy)]
pub enum AddAt {
    Gap(usize),
    Standing(Found),
}

// To the wanted one wherever it stands.
#[tactic(auto, unfolding(crate::specs::Scans::add_anywhere))]
pub fn add_anywhere(seen: Seen, end: usize) -> AddAt
    ensures { result ≡ add_anywhere end seen }
{
    match seen {
        Seen::Hit(found) | Seen::Late { found, .. } => AddAt::Standing(found),
        Seen::Open { .. } => AddAt::Gap(end),
        Seen::Gap { at, .. } => AddAt::Gap(at),
    }
}

// To the wanted one if it stands before the insert position.
#[tactic(auto, unfolding(crate::specs::Scans::add_by_scan))]
pub fn add_by_scan(seen: Seen, end: usize) -> AddAt
    ensures { result ≡ add_by_scan end seen }
{
    match seen {
        Seen::Hit(found) => AddAt::Standing(found),
        Seen::Late { gap, .. } => AddAt::Gap(gap),
        Seen::Open { .. } => AddAt::Gap(end),
        Seen::Gap { at, .. } => AddAt::Gap(at),
    }
}

// Whether a reference of the wanted kind stood where the wanted one did not.
#[tactic(auto, unfolding(crate::specs::Scans::others_in))]
pub fn any_others(seen: Seen) -> bool
    ensures { result ≡ others_in seen }
{
    match seen {
        Seen::Hit(_) | Seen::Late { .. } => true,
        Seen::Open { others } | Seen::Gap { others, .. } => others,
    }
}
