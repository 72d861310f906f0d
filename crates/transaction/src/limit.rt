// How long an extent record may grow.
ghost use Rattle.std.specs.Prelude.{◌≡◌};
ghost use Rattle.format.specs.Questions.{told_of};
ghost use Rattle.format.specs.Apply.{inline_limit, max_inline_extent_item};

use format::Refusal;

// "(nodesize - 101) / 16, rounded down, minus 25"
#[tactic(auto, unfolding(format::specs::Apply::inline_limit))]
pub fn inline_limit(nodesize: u32) -> usize
    ensures { result ≡ inline_limit nodesize }
{
    (nodesize.saturating_sub(101) / 16).saturating_sub(25) as usize
}

#[tactic(auto, unfolding(format::specs::Apply::max_inline_extent_item, format::specs::Questions::told_of, format::specs::Questions::ask))]
pub fn max_inline_extent_item(nodesize: u32) -> Result<u64, Refusal>
    ensures { result ≡ told_of (max_inline_extent_item nodesize) }
{
    if !item_list::nodesize_fits(nodesize) {
        return Err(Refusal::RANGE);
    }
    Ok(inline_limit(nodesize) as u64)
}
