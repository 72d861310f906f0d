// How many references stand in a body: they are counted before anything is written, by the lister and by whoever is lent room for
// their positions.
ghost use Rattle.std.specs.Prelude.{◌≡◌, ◌≤◌, length};
ghost use Rattle.format.specs.Constants.{most_data};
ghost use Rattle.inline_refs.specs.Steps.{read_from};
ghost use Rattle.inline_refs.specs.Scans.{ref_count_of};

use crate::kinds::Kinds;
use crate::reader::Reader;
use format::Refusal;

// From `start` to the end of the body.
pub fn count_refs(kinds: &Kinds, body: &[u8], start: usize) -> Result<usize, Refusal>
    requires { (start ≤ length body.now) × (length body.now ≤ most_data) }
    ensures { result ≡ ref_count_of (read_from body.now start) }
{
    let mut reader = Reader::new(body, start);
    let mut n = 0;
    while let Some(_) = reader.step(kinds)? {
        n += 1;
    }
    Ok(n)
}
