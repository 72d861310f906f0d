// A body's references, as data references of one file that stand side by side.
ghost use Rattle.std.specs.Prelude.{◌≡◌, ◌+◌, ◌≤◌, ◌<◌, T, length, drop};
ghost use Rattle.format.specs.Constants.{most_data};
ghost use Rattle.format.specs.References.{known, payload_length, ref_at};
ghost use Rattle.transaction.specs.Held.{is_of_file, file_ref, FileRefsTold, SideBySide};

use data_refs::Triples;
use format::EXTENT_DATA_REF;
use inline_refs::{Cursor, Kinds};

// Whether it is a data reference of that root and inode.
fn is_of_file(body: &[u8], kind: u8, start: usize, root: u64, ino: u64) -> bool
    requires { T (known kind) × (start + payload_length kind ≤ length body.now) }
    ensures { result ≡ is_of_file root ino (ref_at kind (drop start body.now)) }
{
    kind == EXTENT_DATA_REF
        && fields::get_u64_le(body, start) == root
        && fields::get_u64_le(body, start + 8) == ino
}

// How many there are, if every one can be read and is a data reference of that root and inode.
pub fn file_refs(kinds: &Kinds, body: &[u8], start: usize, root: u64, ino: u64) -> Option<usize>
    requires { (length body.now ≤ most_data) × (start ≤ length body.now) }
    ensures { FileRefsTold root ino body.now start result }
{
    let mut cursor = Cursor { at: start };
    let mut n = 0;
    while let Some(reference) = cursor.step(kinds, body).ok()? {
        if !is_of_file(body, reference.kind, reference.start, root, ino) {
            return None;
        }
        cursor = reference.next;
        n += 1;
    }
    Some(n)
}

// A file's references, which stand side by side in a body where nothing else is read, and the offsets that they are to be held at.
#[derive(Clone, Copy)]
pub struct FileRefs<'r, 'a> {
    pub refs: Triples<'r>,
    pub root: u64,
    pub ino: u64,
    pub offsets: &'a [u64],
    ghost short: { (length refs.body.now ≤ most_data) × (length offsets.now ≤ 4096) },
    ghost side_by_side: { SideBySide root ino refs.body.now refs.from refs.n },
}

// The weight of number k of data references.
pub fn weight_of(refs: Triples, k: usize) -> u32
    requires { k < refs.n }
    ensures { result ≡ (file_ref refs.entry.body.now refs.entry.from k).weight }
{
    let count = inline_refs::lengths_of(EXTENT_DATA_REF).count;
    let start = refs.from + data_refs::data_size() * k + 1;
    inline_refs::weight_at(refs.body, EXTENT_DATA_REF, start, count)
}
