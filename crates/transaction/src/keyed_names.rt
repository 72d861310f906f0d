// Whether an item of its own is a data reference of that name: whether the three fields in front of its count are there and equal.
ghost use Rattle.std.specs.Prelude.{◌≡◌};
ghost use Rattle.format.specs.Questions.{told_of};
ghost use Rattle.format.specs.Bodies.{keyed_data_ref_names};

use format::{DataRef, EXTENT_DATA_REF, MOST_DATA, Refusal};

#[tactic(auto, unfolding(format::specs::Bodies::keyed_data_ref_names, format::specs::Bodies::body_fits, format::specs::References::count_position, format::specs::References::row_in, format::specs::Questions::told_of, format::specs::Questions::ask))]
pub fn keyed_data_ref_names(item: &[u8], name: DataRef) -> Result<bool, Refusal>
    ensures { result ≡ told_of (keyed_data_ref_names item.now name) }
{
    if MOST_DATA < item.len() {
        return Err(Refusal::RANGE);
    }
    let fields = inline_refs::lengths_of(EXTENT_DATA_REF).count;
    Ok(fields <= item.len() && inline_refs::names_triple(name, item, 0))
}
