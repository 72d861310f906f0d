// The bytes of a reference, in front of zeros up to the longest. The row of its kind says how long it is, whether it has a count
// and where.
ghost use Rattle.std.specs.Prelude.{◌≡◌, ◌∷◌, [], ◌+◌, ◌≤◌, length, replicate, take};
ghost use Rattle.fields.specs.Numbers.{le_bytes};
ghost use Rattle.fields.specs.Parts.{written};
ghost use Rattle.format.specs.References.{payload_length, count_position, counted, make_ref, ref_bytes};
ghost use Rattle.inline_refs.specs.Scans.{kind_of, fields_of};
ghost use Rattle.backref.specs.ByName.{with_count};

use format::{DataRef, EXTENT_DATA_REF, SHARED_BLOCK_REF, SHARED_DATA_REF, TREE_BLOCK_REF};
use inline_refs::{Lengths, RefName};

// How many bytes a reference of the wanted kind takes.
pub fn size_of(wanted: RefName) -> usize
    ensures { result ≡ 1 + payload_length (kind_of wanted) }
{
    1 + inline_refs::lengths_for(wanted).payload
}

// Whether references of the wanted kind have a count.
pub fn counts(wanted: RefName) -> bool
    ensures { result ≡ counted (kind_of wanted) }
{
    0 < inline_refs::lengths_for(wanted).count
}

// The count goes behind the type byte and the fields, if the kind has one.
fn put_count(new: &mut [u8], row: Lengths, count: u32)
    requires { row.count + 5 ≤ length new.old }
    ensures { new.new ≡ with_count row.count count new.old }
{
    if 0 < row.count {
        fields::put_u32_le(new, 1 + row.count, count);
    }
}

// A kind with one field.
fn field_bytes(kind: u8, field: u64, count: u32) -> [u8; 32]
    ensures { result ≡ with_count (count_position kind) count (written 1 (le_bytes 8 field) (written 0 (kind ∷ []) (replicate 32 0))) }
{
    let mut new = [0; 32];
    fields::put_u8(&mut new, 0, kind);
    fields::put_u64_le(&mut new, 1, field);
    put_count(&mut new, inline_refs::lengths_of(kind), count);
    new
}

fn triple_bytes(name: DataRef, count: u32) -> [u8; 32]
    ensures { result ≡ with_count (count_position 178) count (written 17 (le_bytes 8 name.offset) (written 9 (le_bytes 8 name.objectid) (written 1 (le_bytes 8 name.tree) (written 0 (178 ∷ []) (replicate 32 0))))) }
{
    let mut new = [0; 32];
    fields::put_u8(&mut new, 0, EXTENT_DATA_REF);
    fields::put_u64_le(&mut new, 1, name.tree);
    fields::put_u64_le(&mut new, 9, name.objectid);
    fields::put_u64_le(&mut new, 17, name.offset);
    put_count(&mut new, inline_refs::lengths_of(EXTENT_DATA_REF), count);
    new
}

pub fn bytes_of(wanted: RefName, count: u32) -> [u8; 32]
    ensures result_value { take (1 + payload_length (kind_of wanted)) result ≡ ref_bytes (make_ref (kind_of wanted) (fields_of wanted) count) }
    ensures result_len { length result ≡ 32 }
{
    match wanted {
        RefName::Block(name) => field_bytes(TREE_BLOCK_REF, name.tree, count),
        RefName::Data(name) => triple_bytes(name, count),
        RefName::SharedBlock(parent) => field_bytes(SHARED_BLOCK_REF, parent, count),
        RefName::SharedData(parent) => field_bytes(SHARED_DATA_REF, parent, count),
    }
}
