// A reference as an item of its own.
ghost use Rattle.std.specs.Prelude.{◌≡◌, T};
ghost use Rattle.format.specs.Names.{is_ref_item};
ghost use Rattle.balance.specs.Groups.{Naming};

use format::{BlockRef, EXTENT_DATA_REF, Key, SHARED_DATA_REF, TREE_BLOCK_REF};
use inline_refs::RefName;

// What it weighs, and under which name, with that name's rank.
#[derive(Clone, Copy)]
pub struct Named {
    pub weight: u32,
    pub rank: u64,
    pub wanted: RefName,
}

fn data_name(key: Key, payload: &[u8]) -> Option<Named>
    requires { key.kind ≡ 178 }
    ensures { Naming (record { key = key; bytes = payload.now }) result }
{
    if payload.len() != 28 {
        return None;
    }
    let rank = inline_refs::rank_at(payload, EXTENT_DATA_REF, 0);
    if rank != key.offset {
        return None;
    }
    Some(Named {
        weight: fields::get_u32_le(payload, 24),
        rank,
        wanted: RefName::Data(data_refs::triple_at(payload, 0)),
    })
}

// Nothing where it is in no form of its type.
pub fn name_of(key: Key, payload: &[u8]) -> Option<Named>
    requires { T (is_ref_item (record { key = key; bytes = payload.now })) }
    ensures { Naming (record { key = key; bytes = payload.now }) result }
{
    if key.kind == EXTENT_DATA_REF {
        return data_name(key, payload);
    }
    if key.kind == SHARED_DATA_REF {
        if payload.len() != 4 {
            return None;
        }
        return Some(Named {
            weight: fields::get_u32_le(payload, 0),
            rank: key.offset,
            wanted: RefName::SharedData(key.offset),
        });
    }
    if payload.len() != 0 {
        return None;
    }
    if key.kind == TREE_BLOCK_REF {
        return Some(Named {
            weight: 1,
            rank: key.offset,
            wanted: RefName::Block(BlockRef { tree: key.offset }),
        });
    }
    Some(Named {
        weight: 1,
        rank: key.offset,
        wanted: RefName::SharedBlock(key.offset),
    })
}
