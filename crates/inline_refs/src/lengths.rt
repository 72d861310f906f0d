// What the table says of a kind's lengths, for a call that needs them where no reference is read.
ghost use Rattle.std.specs.Prelude.{◌≡◌, ◌≤◌};
ghost use Rattle.format.specs.References.{payload_length, count_position};
ghost use Rattle.inline_refs.specs.Scans.{kind_of};

use crate::kinds::{Kinds, Lengths};
use crate::ref_name::RefName;
use format::{EXTENT_DATA_REF, SHARED_BLOCK_REF, SHARED_DATA_REF, TREE_BLOCK_REF};

// Callers name the kind as a constant, so that the search is done and the table read when the program is compiled.
pub fn lengths_of(kind: u8) -> Lengths
    ensures { (result.payload ≡ payload_length kind) × (result.count ≡ count_position kind) × (result.payload ≤ 255) }
{
    Kinds::new().row_of(kind).unwrap_or(Lengths {
        payload: 0,
        count: 0,
    })
}

// Those of the wanted kind. Each arm names its kind, since the compiler then looks it up, and the call does not.
#[tactic(auto, unfolding(crate::specs::Scans::kind_of))]
pub fn lengths_for(wanted: RefName) -> Lengths
    ensures { (result.payload ≡ payload_length (kind_of wanted)) × (result.count ≡ count_position (kind_of wanted)) × (result.payload ≤ 255) }
{
    match wanted {
        RefName::Block(_) => lengths_of(TREE_BLOCK_REF),
        RefName::Data(_) => lengths_of(EXTENT_DATA_REF),
        RefName::SharedBlock(_) => lengths_of(SHARED_BLOCK_REF),
        RefName::SharedData(_) => lengths_of(SHARED_DATA_REF),
    }
}
