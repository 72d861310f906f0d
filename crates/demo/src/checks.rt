// Four checks: three on the card of ten shifts, and `crowded`.
ghost use Rattle.std.specs.Prelude.{◌≤◌};

use crate::card::Card;
use crate::{card, crowded, image, say, shifts};
use format::Refusal;

// The end of a check: what it shows, said only if it came out right; 1 if it came out wrong.
fn verdict(rt: &impl Print, right: bool, shown: &[u8]) -> u32
    ensures { result ≤ 1 }
{
    say::text(rt, b"\n     ");
    if right {
        say::text(rt, shown);
        say::text(rt, b" Right.\n");
        return 0;
    }
    say::text(rt, b"WRONG.\n");
    1
}

// The last shift's map has no later shift that uses it.
fn expected(shift: u32) -> u64 {
    if shift < shifts::SHIFTS { 2 } else { 1 }
}

fn count_maps(rt: &impl Print, list: &[u8]) -> bool {
    say::text(
        rt,
        b"  1. Count the references of ten maps.\n     \
          From the first shift's to the last's they are used so many times:",
    );
    let mut right = true;
    for shift in 1..=shifts::SHIFTS {
        let used = card::used(list, shifts::map(shift));
        say::text(rt, b" ");
        say::number(rt, used);
        right = right & (used == expected(shift));
    }
    say::text(rt, b".");
    right
}

fn delete_oldest(rt: &impl Print, card: &Card) -> bool {
    say::text(
        rt,
        b"  2. Delete the oldest shift and read the base survey.\n     \
          The survey is taken from shift 1: ",
    );
    let survey = shifts::take(card, shifts::SURVEY, 1);
    say::answer(rt, survey.err());
    say::text(rt, b". Its own map: ");
    let left = survey.unwrap_or(*card);
    let both = shifts::take(&left, shifts::map(1), 1);
    say::answer(rt, both.err());
    say::text(rt, b". The survey a second time:\n     ");
    let left = both.unwrap_or(left);
    let again = shifts::take(&left, shifts::SURVEY, 1);
    say::answer(rt, again.err());
    say::text(rt, b".\n     The survey is used ");
    let left = again.unwrap_or(left);
    let used = card::used(left.list(), shifts::SURVEY);
    say::times(rt, used);
    say::text(rt, b".");
    let taken = survey.is_ok() & both.is_ok() & (again.err() == Some(Refusal::MISSING));
    taken & (used == 9) & (card::used(left.list(), shifts::map(1)) == 1)
}

// The number of checks that came out wrong.
pub fn show(rt: &impl Print) -> u32 {
    say::text(
        rt,
        b"Four checks, three of them on a card of ten shifts over one base survey. Each shift uses the survey,\n\
          its own map and the map of the shift before:\n\n",
    );
    // No call refuses; an empty card would show as four wrong checks.
    let card = shifts::ten().unwrap_or(Card::empty());
    let counted = verdict(
        rt,
        count_maps(rt, card.list()),
        b"Each is used by its own shift and the next, the last by its own alone.",
    );
    let deleted = verdict(
        rt,
        delete_oldest(rt, &card),
        b"That is once by each other shift, so nothing frees it.",
    );
    let saved = verdict(
        rt,
        crowded::save(rt),
        b"Both leaves fit, and every map is there, in order.",
    );
    let stored = verdict(
        rt,
        image::store(rt, &card),
        b"It is the same list, byte for byte, and the damage is seen.",
    );
    say::text(rt, b"\n");
    counted + deleted + saved + stored
}
