// Data references of one hash that stand side by side: whether their triples differ.
ghost use Rattle.std.specs.Prelude.{◌≡◌, not, ◌+◌, ◌*◌, ◌≤◌, length};
ghost use Rattle.data_refs.specs.Triples.{triple_size, Distinct};
ghost use Rattle.format.specs.Constants.{most_sheet};
ghost use Rattle.balance.specs.Spans.{clear, OneRank};

use data_refs::Triples;
use format::EXTENT_DATA_REF;

// Whether the triple of the data reference at `at`, right behind n others from `from` on, is one of theirs. Of the first `known` it
// is known that they differ.
pub fn stands_twice(body: &[u8], from: usize, n: usize, known: usize, at: usize) -> bool
    requires n_value { (from + triple_size * n ≡ at) × (at + triple_size ≤ length body.now) }
    requires distinct { Distinct body.now from known × (length body.now ≤ most_sheet) }
    ensures { result ≡ not (clear body.now at from n) }
{
    if n < known {
        return false;
    }
    let refs = Triples { body, from, n };
    refs.number_among(data_refs::triple_at(body, at + 1))
        .is_some()
}

// How many data references stand side by side from `from` on: `passed`, and those of that hash behind them.
fn count(body: &[u8], from: usize, passed: usize, own: u64) -> usize
    requires { (length body.now ≤ most_sheet) × ((from + triple_size * passed ≤ length body.now) × (passed ≤ 2259)) }
    ensures { (from + triple_size * result ≤ length body.now) × ((result ≤ 2259) × OneRank body.now from passed result own) }
{
    let size = data_refs::data_size();
    let mut next = from + size * passed;
    for n in passed..2259 {
        if body.len() - next < size {
            return n;
        }
        if body[next] != EXTENT_DATA_REF {
            return n;
        }
        if inline_refs::rank_at(body, EXTENT_DATA_REF, next + 1) != own {
            return n;
        }
        next += size;
    }
    2259
}

// Behind n data references of one hash stands one more of it: of how many from the first on it is known that their triples differ,
// and that those behind it have that hash too. All of them are looked at as soon as there are two: each hash is then computed once,
// and what is known of them is known before many were compared.
pub fn known_in(body: &[u8], from: usize, n: usize, own: u64) -> usize
    requires { (length body.now ≤ most_sheet) × (from + triple_size * (n + 1) ≤ length body.now) }
    ensures { Distinct body.now from result × OneRank body.now from (n + 1) result own }
{
    if n != 1 {
        return 0;
    }
    let all = count(body, from, n + 1, own);
    data_refs::distinct_front(Triples { body, from, n: all })
}
