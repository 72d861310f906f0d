// A change of the ledger from numbers, as C has it: it goes by its number, and not by a kind of its own.
ghost use Rattle.std.specs.Prelude.{◌≡◌};
ghost use Rattle.std.proofs.Math.Option.{none};
ghost use Rattle.extent_refs.specs.Posts.{change_of, narrowed, stand_in};

use format::{BlockRef, Change, DataRef, SharedRef};

// A kind above 8 bits is none: 0 stands for it.
#[tactic(auto, unfolding(crate::specs::Posts::narrowed))]
fn narrow(kind: u64) -> u8
    ensures { result ≡ narrowed kind }
{
    u8::try_from(kind).unwrap_or(0)
}

// What another number stands for is refused with 3.
#[tactic(auto, unfolding(crate::specs::Posts::stand_in))]
fn unknown() -> Change
    ensures { result ≡ stand_in none }
{
    let name = SharedRef { kind: 0, parent: 0 };
    Change::DropShared {
        extent: 0,
        name,
        amount: 0,
    }
}

#[tactic(auto, unfolding(crate::specs::Posts::change_of, crate::specs::Posts::stand_in))]
pub fn change_of(number: u8, extent: u64, a: u64, b: u64, c: u64, amount: u32) -> Change
    ensures { result ≡ stand_in (change_of number extent a b c amount) }
{
    let block = BlockRef { tree: a };
    let data = DataRef {
        tree: a,
        objectid: b,
        offset: c,
    };
    let shared = SharedRef {
        kind: narrow(a),
        parent: b,
    };
    match number {
        1 => Change::AddBlock {
            extent,
            name: block,
        },
        2 => Change::AddData {
            extent,
            name: data,
            amount,
        },
        3 => Change::AddShared {
            extent,
            name: shared,
            amount,
        },
        4 => Change::DropBlock {
            extent,
            name: block,
        },
        5 => Change::DropData { extent, name: data },
        6 => Change::DropShared {
            extent,
            name: shared,
            amount,
        },
        _ => unknown(),
    }
}
