// New extents: the hash that orders data references, and the bodies of a new tree block and a new data extent.
#![tactic(auto)]

ghost use Rattle.std.specs.Prelude.{◌≡◌, [], ◌∷◌, ◌*◌, ◌^◌, ◌≤◌, ltb, length};
ghost use Rattle.std.specs.Int.Bits.{bit_xor};
ghost use Rattle.crc32c.specs.Register.{crc32c, all_ones, crc_run};
ghost use Rattle.fields.specs.Numbers.{le_bytes};
ghost use Rattle.fields.specs.Parts.{written};
ghost use Rattle.format.specs.Questions.{Answered, accepted};
ghost use Rattle.format.specs.Hash.{data_ref_hash};
ghost use Rattle.format.specs.Bodies.{held_body, data_extent_body, tree_block_body, tree_block_key};

use format::{
    EXTENT_DATA_REF, Edited, FLAG_DATA, FLAG_TREE_BLOCK, METADATA_ITEM, MOST_DATA, Refusal,
    TREE_BLOCK_REF,
};

// The first register times 2 ^ 31, xor the second.
fn joined(one: u32, two: u32) -> u64
    ensures { result ≡ bit_xor (one * 2 ^ 31) two }
{
    ((one as u64) << 31) ^ (two as u64)
}

// A tree and the register after a run over it, for the hashes of many references of that tree.
#[derive(Clone, Copy)]
pub struct TreeRun {
    pub tree: u64,
    pub register: u32,
    pub ghost is_of_tree: { register ≡ crc_run crc32c all_ones (le_bytes 8 tree) },
}

pub fn tree_run(tree: u64) -> TreeRun
    ensures { result.tree ≡ tree }
{
    TreeRun {
        tree,
        register: crc32c::run_one(tree),
    }
}

// Tree 0, whose register is known, where no tree is asked for.
pub fn no_tree_run() -> TreeRun
    ensures { result.tree ≡ 0 }
{
    TreeRun {
        tree: 0,
        register: 0x73d74d75,
    }
}

// The hash of a data reference of a tree whose register is at hand.
pub fn hash_with(own: TreeRun, objectid: u64, offset: u64) -> u64
    ensures { result ≡ data_ref_hash own.tree objectid offset }
{
    joined(own.register, crc32c::run_two(objectid, offset))
}

// The hash of a data reference.
pub fn data_ref_hash(tree: u64, objectid: u64, offset: u64) -> u64
    ensures { result ≡ data_ref_hash tree objectid offset }
{
    hash_with(tree_run(tree), objectid, offset)
}

// The register of a tree, without a run where it is the one at hand.
fn register_of(tree: u64, own: TreeRun) -> u32
    ensures { result ≡ crc_run crc32c all_ones (le_bytes 8 tree) }
{
    if tree == own.tree {
        return own.register;
    }
    crc32c::run_one(tree)
}

// Whether the hash of a data reference is below a rank. Its top 32 bits are those of the first register alone, so the second
// run is made only where they are equal.
pub fn hash_below(tree: u64, objectid: u64, offset: u64, own: TreeRun, rank: u64) -> bool
    ensures { result ≡ ltb (data_ref_hash tree objectid offset) rank }
{
    let one = register_of(tree, own);
    let top = (one / 2) as u64;
    let bound = rank / 4294967296;
    if top != bound {
        return top < bound;
    }
    joined(one, crc32c::run_two(objectid, offset)) < rank
}

// Bytes that are at hand go to the front of a lent output, or are refused.
pub fn put_body(bytes: &[u8], out: &mut [u8]) -> Result<Edited, Refusal>
    ensures { Answered (held_body (length out.old) (accepted bytes.now)) result out.old out.new }
{
    let n = bytes.len();
    if out.len() < n || MOST_DATA < n {
        return Err(Refusal::NO_ROOM);
    }
    fields::copy_at(bytes, 0, n, out, 0);
    Ok(Edited::Written(n))
}

// What both bodies begin with: total 1, generation, flags, and an inline reference's kind and first field.
fn put_head(b: &mut [u8], generation: u64, flags: u64, kind: u8, field: u64)
    requires { 33 ≤ length b.old }
    ensures { b.new ≡ written 25 (le_bytes 8 field) (written 24 (kind ∷ []) (written 16 (le_bytes 8 flags) (written 8 (le_bytes 8 generation) (written 0 (le_bytes 8 1) b.old)))) }
{
    fields::put_u64_le(b, 0, 1);
    fields::put_u64_le(b, 8, generation);
    fields::put_u64_le(b, 16, flags);
    fields::put_u8(b, 24, kind);
    fields::put_u64_le(b, 25, field);
}

// A newly allocated tree block.
#[derive(Clone, Copy)]
pub struct TreeBlockAllocation {
    pub bytenr: u64,
    pub level: u8,
    pub generation: u64,
    pub owner: u64,
}

impl TreeBlockAllocation {
    // The key that the block is filed under: its offset is the level.
    pub fn key(self) -> format::Key
        ensures { result ≡ tree_block_key self.bytenr self.level }
    {
        format::Key {
            objectid: self.bytenr,
            kind: METADATA_ITEM,
            offset: self.level as u64,
        }
    }

    // The item's body, 33 bytes.
    pub fn body(self, out: &mut [u8]) -> Result<Edited, Refusal>
        ensures { Answered (held_body (length out.old) (accepted (tree_block_body self.generation (record { tree = self.owner })))) result out.old out.new }
    {
        let mut b = [0u8; 33];
        put_head(
            &mut b,
            self.generation,
            FLAG_TREE_BLOCK,
            TREE_BLOCK_REF,
            self.owner,
        );
        put_body(&b, out)
    }
}

// A new data extent's body, 53 bytes: one inline reference of count 1.
pub fn data_extent_body(
    generation: u64,
    root: u64,
    ino: u64,
    offset: u64,
    out: &mut [u8],
) -> Result<Edited, Refusal>
    ensures { Answered (held_body (length out.old) (accepted (data_extent_body generation (record { tree = root; objectid = ino; offset = offset })))) result out.old out.new }
{
    let mut b = [0u8; 53];
    put_head(&mut b, generation, FLAG_DATA, EXTENT_DATA_REF, root);
    fields::put_u64_le(&mut b, 33, ino);
    fields::put_u64_le(&mut b, 41, offset);
    fields::put_u32_le(&mut b, 49, 1);
    put_body(&b, out)
}
