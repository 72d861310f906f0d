// The third check: a leaf is filled until a map is refused, and then divided.
use crate::card::Card;
use crate::{card, leaves, say, shifts};
use format::Refusal;

// A card, and the first shift whose map it refused, if it refused one.
#[derive(Drop)]
struct Full {
    card: Card,
    shift: u32,
    refusal: Option<Refusal>,
}

fn fill() -> Full {
    let mut card = Card::empty();
    for shift in 1..1000 {
        match shifts::save(&card, leaves::NODESIZE, shifts::map(shift), shift) {
            Ok(next) => card = next,
            Err(refusal) => {
                return Full {
                    card,
                    shift,
                    refusal: Some(refusal),
                };
            }
        }
    }
    Full {
        card,
        shift: 1000,
        refusal: None,
    }
}

// Whether it came out right.
pub fn save(rt: &impl Print) -> bool {
    say::text(rt, b"  3. Save on a crowded card.\n     A leaf of ");
    say::number(rt, leaves::NODESIZE as u64);
    say::text(rt, b" bytes takes ");
    let full = fill();
    say::number(rt, card::items(full.card.list()) as u64);
    say::text(rt, b" maps. One more: ");
    say::answer(rt, full.refusal);
    say::text(rt, b".\n     ");
    let body = shifts::record(full.shift);
    let key = shifts::key(shifts::map(full.shift));
    let more = full.card.insert_unbounded(key, &body);
    let whole = more.unwrap_or(full.card);
    let divided = leaves::divide(rt, whole.list(), full.shift);
    divided & (full.refusal == Some(Refusal::NO_FIT)) & more.is_ok()
}
