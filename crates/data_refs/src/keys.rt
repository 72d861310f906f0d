// Which chain a triple belongs to: a number made of the triple and a seed. The seed is made of all triples at hand, so triples that
// crowd into one chain would have to be made for a seed that follows from each of them. It is made in two passes: what the last
// triple does to the first pass runs through all of the second. Of chains only that equal triples belong to one has to be known.
ghost use Rattle.std.specs.Prelude.{◌≡◌, ◌+◌, ◌*◌, ◌≤◌, ◌<◌, length};
ghost use Rattle.format.specs.Bodies.{triple};
ghost use Rattle.data_refs.specs.Keys.{product_of, seeded_key, chain_of};

use crate::triples::{FEW, Triples};
use format::DataRef;

// What a seed starts from: the fraction of pi, as a number without a pattern.
const START: u64 = 0x243f6a8885a308d3;

// A number's halves, with another number added to each, multiplied.
fn product(x: u64, low: u64, high: u64) -> u64
    requires { (low < 8589934592) × (high < 8589934592) }
    ensures { result ≡ product_of x low high }
{
    ((x % 4294967296 + low) % 4294967296) * ((x / 4294967296 + high) % 4294967296)
}

// The numbers of a triple go in with the halves of the seed, each in another way, so that numbers that trade places or are equal do
// not cancel out. What is added for the offset is any two numbers without a pattern.
fn key_of(seed: u64, t: DataRef) -> u64
    ensures { result ≡ seeded_key seed (triple t) }
{
    let low = seed % 4294967296;
    let high = seed / 4294967296;
    let tree = product(t.tree, low, high);
    let objectid = product(t.objectid, high, low);
    let offset = product(t.offset, low + 2654435769, high + 2246822507);
    seed ^ tree ^ objectid ^ offset
}

// The chain of a triple, of so many. The factor is 2 ^ 32 over the golden ratio, made odd: it spreads numbers that are near each other.
pub fn chain_of(seed: u64, chains: usize, t: DataRef) -> usize
    requires { (1 ≤ chains) × (chains ≤ 4096) }
    ensures { (result ≡ chain_of seed chains (triple t)) × (result < chains) }
{
    let key = key_of(seed, t);
    let folded = ((key % 4294967296) as u32) ^ ((key / 4294967296) as u32);
    let spread = (folded as u64) * 2654435761 % 4294967296;
    (spread * (chains as u64) / 4294967296) as usize
}

// What a seed becomes by the triples, one after the other. Those of even and of odd numbers go apart, so that a multiplication need
// not wait for the last one.
fn seed_after(seed: u64, refs: Triples) -> u64 {
    let mut even = seed;
    let mut odd = seed / 2;
    for i in 0..refs.n / 2 {
        even = key_of(even, refs.get(2 * i));
        odd = key_of(odd, refs.get(2 * i + 1));
    }
    if refs.n % 2 == 1 {
        even = key_of(even, refs.get(refs.n - 1));
    }
    even ^ odd
}

// A seed made of the triples; few are in no chain. Which it is, is left open on purpose: any will do.
pub fn seed_of(refs: Triples) -> u64 {
    if refs.n <= FEW {
        return 0;
    }
    let once = seed_after(START, refs);
    seed_after(once, refs)
}
