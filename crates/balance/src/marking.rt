// The record of an extent.
ghost use Rattle.std.specs.Prelude.{T};
ghost use Rattle.format.specs.Apply.{is_record};
ghost use Rattle.balance.specs.Groups.{item_of, kept_after, ItemStands, Taking};

use crate::group::{Group, Marked};
use crate::item::ItemAt;
use format::ITEM_HEAD;
use inline_refs::Kinds;

pub fn take_record(kinds: &Kinds, s: &[u8], item: ItemAt, g: &mut Group) -> Option<()>
    requires item_stands { ItemStands s.now item.at item.next }
    requires t { T (is_record (item_of s.now item.at item.next item.key)) }
    ensures { Taking s.now g.old (item_of s.now item.at item.next item.key) item.next (kept_after result g.new) }
{
    if g.marked.is_some() {
        return None;
    }
    let from = item.at + ITEM_HEAD;
    let body = &s[from..item.next];
    let start = inline_refs::open_body(item.key.kind, body).ok()?;
    let weight = crate::weigh_refs(kinds, body, start)?;
    let total = fields::get_u64_le(body, 0);
    g.marked = Some(Marked {
        from,
        to: item.next,
        start,
        total,
    });
    g.weight = weight;
    g.span = None;
    Some(())
}
