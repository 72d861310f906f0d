// What a scan looks for: a named reference, and the rank of a new one.
ghost use Rattle.std.specs.Prelude.{◌≡◌, ◌||◌, ◌+◌, ◌≤◌, T, eqb, ltb, length, drop, get_or};
ghost use Rattle.format.specs.References.{known, payload_length, ref_at, rank, rank_of};
ghost use Rattle.format.specs.Bodies.{named, stops, triple};
ghost use Rattle.fields.specs.Lists.{same};
ghost use Rattle.fields.specs.Numbers.{words};
ghost use Rattle.inline_refs.specs.Scans.{kind_of, fields_of, tree_of, RankedFor, KnownFor};

use extent_write::TreeRun;
use format::{
    BlockRef, DataRef, EXTENT_DATA_REF, EXTENT_OWNER_REF, SHARED_BLOCK_REF, SHARED_DATA_REF,
    TREE_BLOCK_REF,
};

// The name of the reference that is looked for.
#[derive(Clone, Copy)]
pub enum RefName {
    Block(BlockRef),
    Data(DataRef),
    // The parent of a shared block (182) or of shared data (184).
    SharedBlock(u64),
    SharedData(u64),
}

pub fn kind_of(wanted: RefName) -> u8
    ensures { result ≡ kind_of wanted }
{
    match wanted {
        RefName::Block(_) => TREE_BLOCK_REF,
        RefName::Data(_) => EXTENT_DATA_REF,
        RefName::SharedBlock(_) => SHARED_BLOCK_REF,
        RefName::SharedData(_) => SHARED_DATA_REF,
    }
}

// Whether the second and the third field from `start` on are those of a data reference.
fn names_rest(name: DataRef, body: &[u8], start: usize) -> bool
    requires { start + 24 ≤ length body.now }
    ensures { result ≡ same (drop 1 (words 3 (drop start body.now))) (drop 1 (triple name)) }
{
    if fields::get_u64_le(body, start + 8) != name.objectid {
        return false;
    }
    fields::get_u64_le(body, start + 16) == name.offset
}

// Whether three fields from `start` on are those of a data reference.
pub fn names_triple(name: DataRef, body: &[u8], start: usize) -> bool
    requires { start + 24 ≤ length body.now }
    ensures { result ≡ same (words 3 (drop start body.now)) (triple name) }
{
    if fields::get_u64_le(body, start) != name.tree {
        return false;
    }
    names_rest(name, body, start)
}

// The wanted reference's first field.
#[tactic(auto, unfolding(crate::specs::Scans::fields_of))]
fn first_field(wanted: RefName) -> u64
    ensures { result ≡ get_or (fields_of wanted) 0 0 }
{
    match wanted {
        RefName::Block(name) => name.tree,
        RefName::Data(name) => name.tree,
        RefName::SharedBlock(parent) | RefName::SharedData(parent) => parent,
    }
}

// Whether the reference of the wanted kind whose payload starts at `start` is the wanted one. The first field, which all kinds
// have, is compared first, so that the loops of a drop do not ask for the kind of the name before it is needed.
pub fn is_named(wanted: RefName, body: &[u8], start: usize) -> bool
    requires { start + payload_length (kind_of wanted) ≤ length body.now }
    ensures { result ≡ named (kind_of wanted) (fields_of wanted) (ref_at (kind_of wanted) (drop start body.now)) }
{
    if fields::get_u64_le(body, start) != first_field(wanted) {
        return false;
    }
    match wanted {
        RefName::Data(name) => names_rest(name, body, start),
        RefName::Block(_) | RefName::SharedBlock(_) | RefName::SharedData(_) => true,
    }
}

// Whether the reference of this kind whose payload starts at `start` is the wanted one.
pub fn names(wanted: RefName, body: &[u8], kind: u8, start: usize) -> bool
    requires { T (known kind) × (start + payload_length kind ≤ length body.now) }
    ensures { result ≡ named (kind_of wanted) (fields_of wanted) (ref_at kind (drop start body.now)) }
{
    if kind_of(wanted) != kind {
        return false;
    }
    match wanted {
        RefName::Block(name) => fields::get_u64_le(body, start) == name.tree,
        RefName::Data(name) => names_triple(name, body, start),
        RefName::SharedBlock(parent) | RefName::SharedData(parent) => {
            fields::get_u64_le(body, start) == parent
        }
    }
}

// What the references of one kind are ordered by: the hash of a triple, else the first field.
pub fn rank_at(body: &[u8], kind: u8, start: usize) -> u64
    requires { T (known kind) × (start + payload_length kind ≤ length body.now) }
    ensures { result ≡ rank (ref_at kind (drop start body.now)) }
{
    if kind != EXTENT_DATA_REF {
        return fields::get_u64_le(body, start);
    }
    extent_write::data_ref_hash(
        fields::get_u64_le(body, start),
        fields::get_u64_le(body, start + 8),
        fields::get_u64_le(body, start + 16),
    )
}

// Whether that is below a limit. A triple seldom costs a whole hash here, least of all one of the tree `own`.
pub fn rank_below(body: &[u8], kind: u8, start: usize, own: TreeRun, limit: u64) -> bool
    requires { T (known kind) × (start + payload_length kind ≤ length body.now) }
    ensures { result ≡ ltb (rank (ref_at kind (drop start body.now))) limit }
{
    if kind != EXTENT_DATA_REF {
        return fields::get_u64_le(body, start) < limit;
    }
    extent_write::hash_below(
        fields::get_u64_le(body, start),
        fields::get_u64_le(body, start + 8),
        fields::get_u64_le(body, start + 16),
        own,
        limit,
    )
}

// The run over the wanted one's own tree. Only a data reference has hashes compared with its own.
#[tactic(auto, unfolding(crate::specs::Scans::tree_of))]
fn run_of(wanted: RefName) -> TreeRun
    ensures { result.tree ≡ tree_of wanted }
{
    match wanted {
        RefName::Data(name) => extent_write::tree_run(name.tree),
        RefName::Block(_) | RefName::SharedBlock(_) | RefName::SharedData(_) => {
            extent_write::no_tree_run()
        }
    }
}

// What the wanted reference is ordered by, from the run over its own tree.
fn rank_with(wanted: RefName, own: TreeRun) -> u64
    requires { own.tree ≡ tree_of wanted }
    ensures { result ≡ rank_of (kind_of wanted) (fields_of wanted) }
{
    match wanted {
        RefName::Block(name) => name.tree,
        RefName::Data(name) => extent_write::hash_with(own, name.objectid, name.offset),
        RefName::SharedBlock(parent) | RefName::SharedData(parent) => parent,
    }
}

// A name's own rank, with the run over its own tree.
#[derive(Clone, Copy)]
pub struct Ranked {
    pub rank: u64,
    pub own: TreeRun,
}

pub fn rank_of(wanted: RefName) -> Ranked
    ensures { RankedFor wanted result }
{
    let own = run_of(wanted);
    Ranked {
        rank: rank_with(wanted, own),
        own,
    }
}

// The rank of a name where the caller has it, or else computed: it may cost a hash, so it is not asked for before it is needed.
pub fn rank_by(wanted: RefName, known: Option<Ranked>) -> Ranked
    requires { KnownFor wanted known }
    ensures { RankedFor wanted result }
{
    match known {
        Some(ranked) => ranked,
        None => rank_of(wanted),
    }
}

// Whether a new reference of kind `wanted` with a rank goes before this one. Nothing has a rank below 0, so that rank
// costs no hash.
pub fn stops_at(wanted: u8, rank: u64, own: TreeRun, body: &[u8], kind: u8, start: usize) -> bool
    requires { T (known kind) × (start + payload_length kind ≤ length body.now) }
    ensures { result ≡ stops wanted rank (ref_at kind (drop start body.now)) }
{
    if kind == EXTENT_OWNER_REF {
        return false;
    }
    if wanted < kind {
        return true;
    }
    if wanted != kind {
        return false;
    }
    if rank == 0 {
        return false;
    }
    rank_below(body, kind, start, own, rank)
}
