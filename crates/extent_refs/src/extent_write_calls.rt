// New extents: the calls of `extent_write.rs`.
ghost use Rattle.std.specs.Prelude.{◌≡◌, length};
ghost use Rattle.format.specs.Questions.{accepted};
ghost use Rattle.format.specs.Hash.{data_ref_hash};
ghost use Rattle.format.specs.Bodies.{held_body, data_extent_body, tree_block_body, tree_block_key};
ghost use Rattle.extent_refs.specs.Exports.{Coded};

use extent_write::TreeBlockAllocation;

#[unsafe(no_mangle)]
pub extern "C" fn extent_write_data_ref_hash(tree: u64, objectid: u64, offset: u64) -> u64
    ensures { result ≡ data_ref_hash tree objectid offset }
{
    extent_write::data_ref_hash(tree, objectid, offset)
}

#[unsafe(no_mangle)]
pub extern "C" fn extent_write_tree_block_key(
    bytenr: u64,
    level: u8,
    objectid: &mut u64,
    kind: &mut u64,
    offset: &mut u64,
) -> u32
    ensures { (result ≡ 0) × (objectid.new ≡ (tree_block_key bytenr level).objectid) × (kind.new ≡ (tree_block_key bytenr level).kind) × (offset.new ≡ (tree_block_key bytenr level).offset) }
{
    let block = TreeBlockAllocation {
        bytenr,
        level,
        generation: 0,
        owner: 0,
    };
    crate::put_filed(Ok(block.key()), objectid, kind, offset)
}

#[unsafe(no_mangle)]
pub extern "C" fn extent_write_tree_block_body(
    generation: u64,
    owner: u64,
    out: &mut [u8],
    len: &mut u64,
) -> u32
    ensures { Coded (held_body (length out.old) (accepted (tree_block_body generation (record { tree = owner })))) result len.new out.old out.new }
{
    let block = TreeBlockAllocation {
        bytenr: 0,
        level: 0,
        generation,
        owner,
    };
    let answer = block.body(out);
    crate::put_edited(answer, len)
}

#[unsafe(no_mangle)]
pub extern "C" fn extent_write_data_extent_body(
    generation: u64,
    root: u64,
    ino: u64,
    offset: u64,
    out: &mut [u8],
    len: &mut u64,
) -> u32
    ensures { Coded (held_body (length out.old) (accepted (data_extent_body generation (record { tree = root; objectid = ino; offset = offset })))) result len.new out.old out.new }
{
    let answer = extent_write::data_extent_body(generation, root, ino, offset, out);
    crate::put_edited(answer, len)
}
