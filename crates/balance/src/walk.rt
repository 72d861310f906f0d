// The pass over the items of a sheet.
ghost use Rattle.std.specs.Prelude.{◌≡◌};
ghost use Rattle.format.specs.Names.{balanced as is_balanced};
ghost use Rattle.item_list.specs.Steps.{IsList, list_items};

use crate::group::Group;
use crate::turning;
use format::ITEM_HEAD;
use inline_refs::Kinds;

// Whether a sheet that passed questions 1 and 2 is balanced.
pub fn balanced(sheet: &[u8]) -> bool
    requires { IsList sheet.now }
    ensures { result ≡ is_balanced (list_items sheet.now) }
{
    let kinds = Kinds::new();
    let mut at: usize = 1;
    let mut size = ITEM_HEAD;
    let mut g = Group::new(0);
    while at < sheet.len() {
        size = item_list::size_after(sheet, at, size);
        let next = at + size;
        let Some(()) = turning::turn(&kinds, sheet, at, next, &mut g) else {
            return false;
        };
        at = next;
    }
    g.is_closed()
}
