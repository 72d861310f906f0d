// Data references in chains: a triple is compared with those of its own chain alone. A chain goes from the reference that was put
// in last to the first one, by numbers that are one higher than those of the references; 0 ends it.
// Heads and links hold such numbers and no options: two bytes for each in fixed memory, and zeros alone are chains of nothing.
ghost use Rattle.std.specs.Prelude.{◌≤◌, ◌<◌, length};
ghost use Rattle.format.specs.Bodies.{triple};
ghost use Rattle.data_refs.specs.Triples.{Front, LooksUp};
ghost use Rattle.data_refs.specs.Keys.{chain_of};
ghost use Rattle.data_refs.specs.Chains.{few, Cleared, Leading, Chained};

use crate::keys;
use crate::triples::{FEW, Triples};
use format::DataRef;

// Along a chain of the first i references from `first` on: the number of one that has the triple.
fn walk(refs: Triples, i: usize, links: &[u16], first: usize, t: DataRef) -> Option<usize>
    requires { (i ≤ refs.n) × (i ≤ length links.now) × Leading refs.body.now refs.from links.now i first (triple t) }
    ensures { LooksUp refs.entry.body.now refs.entry.from i (triple t) result }
{
    let mut at = first;
    while 0 < at {
        let number = at - 1;
        if refs.is_at(number, t) {
            return Some(number);
        }
        at = links[number] as usize;
    }
    None
}

// Puts data references in chains, up to the first one whose triple stands before it too. Returns its number, or that of all. Few are
// compared each with each instead, and what was lent for chains is left as it is.
// Heads and links stand apart from `Chains` here: its ghost fields hold only once all references are in chains.
pub fn chain_all(refs: Triples, seed: u64, heads: &mut [u16], links: &mut [u16]) -> usize
    requires in_bounds { (refs.n ≤ 2259) × (1 ≤ length heads.old) × (length heads.old ≤ 4096) × (refs.n ≤ length links.old) }
    requires cleared { Cleared heads.old }
    ensures upper_bound { Front refs.entry.body.now refs.entry.from refs.entry.n result }
    ensures chained { few < refs.entry.n → Chained (chain_of seed (length heads.old)) refs.entry.body.now refs.entry.from heads.new links.new result }
{
    if refs.n <= FEW {
        return refs.front_among();
    }
    let chains = heads.len();
    for i in 0..refs.n {
        let t = refs.get(i);
        let chain = keys::chain_of(seed, chains, t);
        let first = heads[chain];
        if walk(refs, i, links, first as usize, t).is_some() {
            return i;
        }
        links[i] = first;
        heads[chain] = (i + 1) as u16;
    }
    refs.n
}

// Data references that `chain_all` put in chains; few are in none.
#[derive(Clone, Copy)]
pub struct Chains<'r, 'a> {
    pub refs: Triples<'r>,
    pub seed: u64,
    pub heads: &'a [u16],
    pub links: &'a [u16],
    ghost in_bounds: { (1 ≤ length heads.now) × (length heads.now ≤ 4096) × (refs.n ≤ length links.now) },
    ghost chained: { few < refs.n → Chained (chain_of seed (length heads.now)) refs.body.now refs.from heads.now links.now refs.n },
}

impl Chains<'_, '_> {
    // The number of the reference that has the triple.
    pub fn number_of(self, t: DataRef) -> Option<usize>
        ensures { LooksUp self.entry.refs.body.now self.entry.refs.from self.entry.refs.n (triple t) result }
    {
        let refs = self.refs;
        if refs.n <= FEW {
            return refs.number_among(t);
        }
        let chain = keys::chain_of(self.seed, self.heads.len(), t);
        walk(refs, refs.n, self.links, self.heads[chain] as usize, t)
    }
}

// How many data references, from the first on, have different triples, by arrays of these sizes. A call clears its arrays, so few do
// with small ones; and it stays a call, so that no caller has a frame with such arrays.
#[inline(never)]
fn front_within<const HEADS: usize, const LINKS: usize>(refs: Triples) -> usize
    requires sizes { (refs.n ≤ 2259) × (1 ≤ HEADS) × (HEADS ≤ 4096) × (refs.n ≤ LINKS) × (LINKS ≤ 4096) }
    ensures { Front refs.entry.body.now refs.entry.from refs.entry.n result }
{
    let mut heads: [u16; HEADS] = [0; HEADS];
    let mut links: [u16; LINKS] = [0; LINKS];
    let seed = keys::seed_of(refs);
    chain_all(refs, seed, &mut heads, &mut links)
}

// How many of them, from the first on, have different triples: all, or those before the first one whose triple stands before it too.
// It is a count, which callers ask for: an Option of the one that repeats would be turned into it.
pub fn distinct_front(refs: Triples) -> usize
    requires { refs.n ≤ 2259 }
    ensures { Front refs.entry.body.now refs.entry.from refs.entry.n result }
{
    if refs.n <= FEW {
        return refs.front_among();
    }
    if refs.n <= 64 {
        return front_within::<64, 64>(refs);
    }
    front_within::<4096, 2259>(refs)
}
