// An item list that is to be divided into leaves: the pass that measures, the pass that writes the cuts of leaves filled from the left,
// and the questions of `split_to_fit` between them.
ghost use Rattle.std.specs.Prelude.{true, ◌≡◌, ◌≤◌, length};
ghost use Rattle.fields.specs.Parts.{written};
ghost use Rattle.format.specs.Items.{nodesize_fits};
ghost use Rattle.format.specs.Questions.{Answered};
ghost use Rattle.format.specs.Sheets.{filled, split_to_fit, held_cuts};
ghost use Rattle.item_list.specs.Steps.{list_items};
ghost use Rattle.leaf_edit.specs.Division.{Sized, Divided};

use super::{halves, two_way};
use crate::Division;
use format::{Edited, ITEM_HEAD, Refusal};

// An item list that passed questions 1 and 2, the number of its items, and a nodesize.
#[derive(Clone, Copy)]
pub struct Sheet<'a> {
    pub bytes: &'a [u8],
    pub count: usize,
    pub nodesize: usize,
    ghost known: { Sized bytes.now count × (nodesize ≤ 65536) },
}

impl Sheet<'_> {
    // `left` and `right` are what the leaves of a cut before item `i` take; `last` is what the last of the leaves filled from the
    // left takes, and `leaves` how many follow the first.
    pub fn measure(&self) -> Result<Division, Refusal>
        ensures { Divided self.now.nodesize (list_items self.now.bytes.now) result }
    {
        let s = self.bytes;
        let nodesize = self.nodesize;
        let mut at: usize = 1;
        let mut size = ITEM_HEAD;
        let mut i: usize = 0;
        let mut left: usize = 101;
        let mut right = 100 + s.len() + 4 * self.count;
        let mut best = None;
        let mut last: usize = 101;
        let mut leaves: usize = 0;
        // No `for`: each turn steps by the size of its own item.
        while at < s.len() {
            size = item_list::size_after(s, at, size);
            let space = size + 4;
            if nodesize < 101 + space {
                return Err(Refusal::NO_FIT);
            }
            best = two_way::improve(nodesize, left, right, i, best);
            left += space;
            right -= space;
            i += 1;
            at += size;
            if last + space <= nodesize {
                last += space;
                continue;
            }
            leaves += 1;
            last = 101 + space;
        }
        Ok(two_way::choose(best, leaves))
    }

    // The number of the first item of each later leaf.
    pub fn fill_write(&self, cuts: &mut [u16])
        requires { length (filled self.now.nodesize 0 101 (list_items self.now.bytes.now)) ≤ length cuts.old }
        ensures { cuts.new ≡ written 0 (filled self.now.nodesize 0 101 (list_items self.now.bytes.now)) cuts.old }
    {
        let s = self.bytes;
        let nodesize = self.nodesize;
        let mut at: usize = 1;
        let mut size = ITEM_HEAD;
        let mut used: usize = 101;
        let mut leaves: usize = 0;
        let mut i: usize = 0;
        // No `for`: each turn steps by the size of its own item.
        while at < s.len() {
            size = item_list::size_after(s, at, size);
            let space = size + 4;
            at += size;
            i += 1;
            if used + space <= nodesize {
                used += space;
                continue;
            }
            cuts[leaves] = (i - 1) as u16;
            leaves += 1;
            used = 101 + space;
        }
    }

    // Questions 18, 19 and 21. Two leaves hold two items or more, so that 19 is put to leaves filled from the left alone. Question 20 is
    // not put: with 18 answered yes every leaf holds an item.
    pub(crate) fn divide(&self, cuts: &mut [u16]) -> Result<Edited, Refusal>
        requires { nodesize_fits self.now.nodesize ≡ true }
        ensures { Answered (held_cuts (length cuts.old) (split_to_fit self.now.nodesize self.now.bytes.now)) result cuts.old cuts.new }
    {
        match self.measure()? {
            Division::TwoWay(at) => halves::put_cut(at, cuts),
            Division::Leaves(leaves) => {
                if self.count < 2 {
                    return Err(Refusal::TOO_FEW);
                }
                if cuts.len() < leaves {
                    return Err(Refusal::NO_ROOM);
                }
                self.fill_write(cuts);
                Ok(Edited::Written(leaves))
            }
        }
    }
}
