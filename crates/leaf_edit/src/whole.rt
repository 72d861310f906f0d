// A division in which every leaf fits.
ghost use Rattle.std.specs.Prelude.{length};
ghost use Rattle.format.specs.Questions.{Answered};
ghost use Rattle.format.specs.Sheets.{split_to_fit, held_cuts};

use crate::Sheet;
use format::{Edited, Refusal};

pub fn split_to_fit(nodesize: u32, sheet: &[u8], cuts: &mut [u16]) -> Result<Edited, Refusal>
    ensures { Answered (held_cuts (length cuts.old) (split_to_fit nodesize sheet.now)) result cuts.old cuts.new }
{
    let count = item_list::check(sheet)?;
    if !item_list::nodesize_fits(nodesize) {
        return Err(Refusal::RANGE);
    }
    let sheet = Sheet {
        bytes: sheet,
        count,
        nodesize: nodesize as usize,
    };
    sheet.divide(cuts)
}
