// A reference item of an extent.
ghost use Rattle.std.specs.Prelude.{T};
ghost use Rattle.format.specs.Names.{is_ref_item};
ghost use Rattle.balance.specs.Groups.{item_of, kept_after, ItemStands, GroupKept, Taking};

use crate::group::Group;
use crate::item::ItemAt;
use crate::{Span, reference};
use format::ITEM_HEAD;
use inline_refs::Kinds;

// Its extent has a record, in which its name does not stand, and it counts.
pub fn take_ref(kinds: &Kinds, s: &[u8], item: ItemAt, g: &mut Group) -> Option<()>
    requires item_stands { ItemStands s.now item.at item.next }
    requires t { T (is_ref_item (item_of s.now item.at item.next item.key)) × GroupKept s.now g.old item.at }
    ensures { Taking s.now g.old (item_of s.now item.at item.next item.key) item.next (kept_after result g.new) }
{
    let from = item.at + ITEM_HEAD;
    let named = reference::name_of(item.key, &s[from..item.next])?;
    let marked = g.marked?;
    if named.weight == 0 {
        return None;
    }
    let body = &s[marked.from..marked.to];
    let span = crate::span_for(kinds, body, marked.start, g.span, item.key.kind);
    let size = crate::stride(kinds, item.key.kind);
    let first = crate::first_below(body, size, span, named.rank);
    if crate::stands(body, size, span, named.wanted, named.rank, first) {
        return None;
    }
    g.weight += named.weight as u64;
    g.span = Some(Span {
        near: first,
        ..span
    });
    Some(())
}
