// The weights of a file's references held against how often their offsets were lent. The references are put in chains by their
// triples, which finds two at one offset, and then the reference that a lent offset is counted at.
ghost use Rattle.std.specs.Prelude.{◌≡◌, List, [], ℕ, ◌+◌, ◌*◌, ◌≤◌, ◌<◌, length};
ghost use Rattle.format.specs.Constants.{most_data};
ghost use Rattle.inline_refs.specs.Steps.{read_from};
ghost use Rattle.data_refs.specs.Triples.{triple_size, Distinct};
ghost use Rattle.data_refs.specs.Chains.{Cleared};
ghost use Rattle.transaction.specs.Held.{agrees, SideBySide, EqualUpTo, Tallied};

use crate::held_refs::{self, FileRefs};
use data_refs::Chains;
use format::DataRef;

// Where the equal offsets that stand side by side from `start` on end.
fn equal_end(offsets: &[u64], start: usize, offset: u64) -> usize
    requires { start ≤ length offsets.now }
    ensures { EqualUpTo offsets.now start offset result }
{
    for at in start..offsets.len() {
        if offsets[at] != offset {
            return at;
        }
    }
    offsets.len()
}

// Whether each reference weighs what was counted, and not 0. Where all lent offsets were counted at them, that says that they are
// held.
fn all_weigh(file: FileRefs, counts: &[u16]) -> bool
    requires distinct { Distinct file.refs.body.now file.refs.from file.refs.n }
    requires tallied { (file.refs.n ≤ length counts.now) × Tallied file.refs.body.now file.refs.from file.refs.n file.offsets.now counts.now [] }
    ensures { result ≡ agrees file.entry.root file.entry.ino file.entry.offsets.now (read_from file.entry.refs.body.now file.entry.refs.from) }
{
    for k in 0..file.refs.n {
        let weight = held_refs::weight_of(file.refs, k);
        if weight == 0 || weight != counts[k] as u32 {
            return false;
        }
    }
    true
}

// Of one reference: it needs no chains.
fn held_one(file: FileRefs) -> bool
    requires { file.refs.n ≡ 1 }
    ensures { result ≡ agrees file.entry.root file.entry.ino file.entry.offsets.now (read_from file.entry.refs.body.now file.entry.refs.from) }
{
    let offset = file.refs.get(0).offset;
    let end = equal_end(file.offsets, 0, offset);
    if end < file.offsets.len() {
        return false;
    }
    all_weigh(file, &[end as u16])
}

// Of references that were put in chains. Counters are all 0.
fn held_by_counts(file: FileRefs, chains: Chains, counts: &mut [u16]) -> bool
    requires same_refs { (chains.refs.body.now ≡ file.refs.body.now) × (chains.refs.from ≡ file.refs.from) × (chains.refs.n ≡ file.refs.n) }
    requires distinct { Distinct file.refs.body.now file.refs.from file.refs.n }
    requires cleared { (file.refs.n ≤ length counts.old) × Cleared counts.old }
    ensures { result ≡ agrees file.entry.root file.entry.ino file.entry.offsets.now (read_from file.entry.refs.body.now file.entry.refs.from) }
{
    let mut i: usize = 0;
    while i < file.offsets.len() {
        let offset = file.offsets[i];
        let name = DataRef {
            tree: file.root,
            objectid: file.ino,
            offset,
        };
        let Some(k) = chains.number_of(name) else {
            return false;
        };
        let end = equal_end(file.offsets, i, offset);
        counts[k] += (end - i) as u16;
        i = end;
    }
    all_weigh(file, counts)
}

// By heads and counters that are all 0.
fn held_by_chains(file: FileRefs, heads: &mut [u16], links: &mut [u16], counts: &mut [u16]) -> bool
    requires in_bounds { (1 ≤ length heads.old) × ((length heads.old ≤ 4096) × (file.refs.n ≤ length links.old)) }
    requires cleared { Cleared heads.old × ((file.refs.n ≤ length counts.old) × Cleared counts.old) }
    ensures { result ≡ agrees file.entry.root file.entry.ino file.entry.offsets.now (read_from file.entry.refs.body.now file.entry.refs.from) }
{
    let refs = file.refs;
    let seed = data_refs::seed_of(refs);
    if data_refs::chain_all(refs, seed, heads, links) < refs.n {
        return false;
    }
    let chains = Chains {
        refs,
        seed,
        heads,
        links,
    };
    held_by_counts(file, chains, counts)
}

// By arrays of these sizes.
fn held_within<const HEADS: usize, const LINKS: usize>(file: FileRefs) -> bool
    requires sizes { (1 ≤ HEADS) × (HEADS ≤ 4096) × (file.refs.n ≤ LINKS) × (LINKS ≤ 4096) }
    ensures { result ≡ agrees file.entry.root file.entry.ino file.entry.offsets.now (read_from file.entry.refs.body.now file.entry.refs.from) }
{
    let mut heads: [u16; HEADS] = [0; HEADS];
    let mut links: [u16; LINKS] = [0; LINKS];
    let mut counts: [u16; LINKS] = [0; LINKS];
    held_by_chains(file, &mut heads, &mut links, &mut counts)
}

// Few references do with arrays that are soon cleared, and no body has more than 2,259.
pub fn held_refs(file: FileRefs) -> bool
    ensures { result ≡ agrees file.entry.root file.entry.ino file.entry.offsets.now (read_from file.entry.refs.body.now file.entry.refs.from) }
{
    match file.refs.n {
        1 => held_one(file),
        n if n <= 64 => held_within::<64, 64>(file),
        _ => held_within::<4096, 2259>(file),
    }
}
