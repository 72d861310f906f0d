// The best cut into two leaves, which the measuring pass (sheet.rt) carries along.
ghost use Rattle.std.specs.Prelude.{◌≡◌};
ghost use Rattle.leaf_edit.specs.Division.{improved, chosen};

use crate::Division;

// A two-way cut: the number of the item that it stands before, and its gap.
#[derive(Clone, Copy)]
pub struct Cut {
    at: usize,
    gap: usize,
}

// The better of the best cut so far and the one before item `at`, whose leaves take `left` and `right`.
#[tactic(auto, unfolding(crate::specs::Division::improved, crate::specs::Division::closest))]
pub fn improve(
    nodesize: usize,
    left: usize,
    right: usize,
    at: usize,
    best: Option<Cut>,
) -> Option<Cut>
    ensures { result ≡ improved nodesize left right at best }
{
    if at < 1 || nodesize < left || nodesize < right {
        return best;
    }
    let gap = left.abs_diff(right);
    if let Some(other) = best {
        if other.gap <= gap {
            return best;
        }
    }
    Some(Cut { at, gap })
}

// The best two-way cut if there is one, else leaves filled from the left.
pub fn choose(best: Option<Cut>, leaves: usize) -> Division
    ensures { result ≡ chosen best leaves }
{
    match best {
        Some(cut) => Division::TwoWay(cut.at),
        None => Division::Leaves(leaves),
    }
}
