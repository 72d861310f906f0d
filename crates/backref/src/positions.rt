// Where the inline references of a body stand. Refusal 21 writes nothing, so they are counted before they are written.
ghost use Rattle.std.specs.Prelude.{◌≡◌, ◌≤◌, length};
ghost use Rattle.fields.specs.Parts.{written};
ghost use Rattle.format.specs.Constants.{most_data};
ghost use Rattle.format.specs.Questions.{Answered};
ghost use Rattle.format.specs.Bodies.{inline_refs};
ghost use Rattle.format.specs.Sheets.{held_cuts};
ghost use Rattle.inline_refs.specs.Steps.{read_from};
ghost use Rattle.inline_refs.specs.Scans.{ref_count_of};
ghost use Rattle.backref.specs.Reads.{positions_in};

use format::{Edited, Refusal};
use inline_refs::{Kinds, Reader};

fn put_positions(kinds: &Kinds, body: &[u8], start: usize, count: usize, positions: &mut [u16])
    requires { (length body.now ≤ most_data) × (Ok count ≡ ref_count_of (read_from body.now start)) × (count ≤ length positions.old) }
    ensures { positions.new ≡ written 0 (positions_in start (read_from body.now start)) positions.old }
{
    let mut reader = Reader::new(body, start);
    let mut at = start;
    let mut i: usize = 0;
    // No step refuses: they were counted.
    while let Ok(Some(_)) = reader.step(kinds) {
        positions[i] = at as u16;
        i += 1;
        at = reader.at;
    }
}

pub fn inline_refs(item_type: u8, body: &[u8], positions: &mut [u16]) -> Result<Edited, Refusal>
    ensures { Answered (held_cuts (length positions.old) (inline_refs item_type body.now)) result positions.old positions.new }
{
    let start = inline_refs::open_body(item_type, body)?;
    let kinds = Kinds::new();
    let count = inline_refs::count_refs(&kinds, body, start)?;
    if positions.len() < count {
        return Err(Refusal::NO_ROOM);
    }
    put_positions(&kinds, body, start, count, positions);
    Ok(Edited::Written(count))
}
