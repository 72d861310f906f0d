// Whether items fit a leaf. Space follows from the length of the bytes and the number of items.
ghost use Rattle.std.specs.Prelude.{◌≡◌};
ghost use Rattle.format.specs.Questions.{told_of};
ghost use Rattle.format.specs.Sheets.{fit, fits};

use super::editing;
use format::Refusal;

pub fn fit(nodesize: u32, sheet: &[u8]) -> Result<bool, Refusal>
    ensures { result ≡ told_of (fit nodesize sheet.now) }
{
    let count = item_list::check(sheet)?;
    if !item_list::nodesize_fits(nodesize) {
        return Err(Refusal::RANGE);
    }
    Ok(100 + sheet.len() + 4 * count <= nodesize as usize)
}

// With one more item of this data.
// Not one function with `fit`: question 3 and the space are others, and the rest is one line.
pub fn fits(nodesize: u32, sheet: &[u8], body: &[u8]) -> Result<bool, Refusal>
    ensures { result ≡ told_of (fits nodesize sheet.now body.now) }
{
    let count = item_list::check(sheet)?;
    if !editing::new_fits(nodesize, body.len()) {
        return Err(Refusal::RANGE);
    }
    Ok(125 + sheet.len() + 4 * count + body.len() <= nodesize as usize)
}
