// A cut at half the items.
ghost use Rattle.std.specs.Prelude.{[], ◌∷◌, length, ◌≤◌};
ghost use Rattle.format.specs.Questions.{Answered, accepted};
ghost use Rattle.format.specs.Sheets.{split, held_cuts};

use format::{Edited, Refusal};

// Question 21 of one cut, which goes to the lent slice.
pub fn put_cut(at: usize, cuts: &mut [u16]) -> Result<Edited, Refusal>
    requires { at ≤ 65535 }
    ensures { Answered (held_cuts (length cuts.old) (accepted (at ∷ []))) result cuts.old cuts.new }
{
    if cuts.len() < 1 {
        return Err(Refusal::NO_ROOM);
    }
    cuts[0] = at as u16;
    Ok(Edited::Written(1))
}

pub fn split(sheet: &[u8], cuts: &mut [u16]) -> Result<Edited, Refusal>
    ensures { Answered (held_cuts (length cuts.old) (split sheet.now)) result cuts.old cuts.new }
{
    let count = item_list::check(sheet)?;
    if count < 2 {
        return Err(Refusal::TOO_FEW);
    }
    put_cut(count.div_ceil(2), cuts)
}
