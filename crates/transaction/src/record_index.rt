// record_of.
ghost use Rattle.std.specs.Prelude.{◌≡◌};
ghost use Rattle.format.specs.Questions.{told_of};
ghost use Rattle.format.specs.Apply.{record_number};

use format::Refusal;

// The item number of an extent's record.
pub fn record_of(sheet: &[u8], bytenr: u64) -> Result<u64, Refusal>
    ensures { result ≡ told_of (record_number sheet.now bytenr) }
{
    let Some(found) = record_edit::find_record(sheet, bytenr, true)? else {
        return Err(Refusal::MISSING);
    };
    Ok(found.index as u64)
}
