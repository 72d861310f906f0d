// The call that only asks: whether a data reference stands inline.
ghost use Rattle.std.specs.Prelude.{◌≡◌};
ghost use Rattle.format.specs.Questions.{told_of};
ghost use Rattle.format.specs.Bodies.{holds_inline_data_ref};

use format::{DataRef, Refusal};
use inline_refs::RefName;

pub fn holds_inline_data_ref(item_type: u8, body: &[u8], name: DataRef) -> Result<bool, Refusal>
    ensures { result ≡ told_of (holds_inline_data_ref item_type body.now name) }
{
    let seen = inline_refs::scan_body(item_type, body, RefName::Data(name), 0)?;
    Ok(inline_refs::hit_of(seen).is_some())
}
