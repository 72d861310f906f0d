// Answers as numbers: the code is returned, the result's numbers are lent, and they are 0 without a result.
// A function for each form of result, with as many lent numbers as C has for it: C lends each by a pointer of its own.
ghost use Rattle.std.specs.Prelude.{◌≡◌, [], ◌∷◌};
ghost use Rattle.extent_refs.specs.Exports.{plain_code, edited_numbers, taken_numbers, told_numbers, filed_numbers, judged_numbers, picked_numbers, ranged_numbers};

use format::{Edited, InlineRef, Key, Refusal, Taken};
use leaf_edit::ItemRange;

const ACCEPTED: u32 = 0;

const ABSENT: u32 = 100;

const REMOVE: u32 = 101;

// The code of an answer that is a result or a refusal.
#[tactic(auto, unfolding(crate::specs::Exports::plain_code))]
fn code<T: Copy>(answer: Result<T, Refusal>) -> u32
    ensures { result ≡ plain_code answer }
{
    match answer {
        Ok(_) => ACCEPTED,
        Err(refusal) => refusal.number,
    }
}

pub fn put_edited(answer: Result<Edited, Refusal>, written: &mut u64) -> u32
    ensures { result ∷ written.new ∷ [] ≡ edited_numbers answer }
{
    *written = 0;
    match answer {
        Ok(Edited::Written(size)) => {
            *written = size as u64;
            ACCEPTED
        }
        Ok(Edited::Absent) => ABSENT,
        Ok(Edited::Remove) => REMOVE,
        Err(refusal) => refusal.number,
    }
}

pub fn put_taken(answer: Result<Option<Taken>, Refusal>, size: &mut u64, count: &mut u64) -> u32
    ensures { result ∷ size.new ∷ count.new ∷ [] ≡ taken_numbers answer }
{
    *size = 0;
    *count = 0;
    match answer {
        Ok(Some(taken)) => {
            *size = taken.size as u64;
            *count = taken.count as u64;
            ACCEPTED
        }
        Ok(None) => ABSENT,
        Err(refusal) => refusal.number,
    }
}

#[tactic(auto, using(crate::proofs::Answers::told_coded))]
pub fn put_told(answer: Result<u64, Refusal>, value: &mut u64) -> u32
    ensures { result ∷ value.new ∷ [] ≡ told_numbers answer }
{
    *value = answer.unwrap_or(0);
    code(answer)
}

#[tactic(auto, using(crate::proofs::Answers::judged_coded))]
pub fn put_judged(answer: Result<bool, Refusal>, value: &mut u64) -> u32
    ensures { result ∷ value.new ∷ [] ≡ judged_numbers answer }
{
    *value = answer.unwrap_or(false) as u64;
    code(answer)
}

#[tactic(auto, using(crate::proofs::Answers::filed_coded))]
pub fn put_filed(
    answer: Result<Key, Refusal>,
    objectid: &mut u64,
    kind: &mut u64,
    offset: &mut u64,
) -> u32
    ensures { result ∷ objectid.new ∷ kind.new ∷ offset.new ∷ [] ≡ filed_numbers answer }
{
    let key = answer.unwrap_or(Key::default());
    *objectid = key.objectid;
    *kind = key.kind as u64;
    *offset = key.offset;
    code(answer)
}

#[tactic(auto, using(crate::proofs::Answers::picked_coded))]
pub fn put_picked(
    answer: Result<InlineRef, Refusal>,
    kind: &mut u64,
    offset: &mut u64,
    start: &mut u64,
    len: &mut u64,
) -> u32
    ensures { result ∷ kind.new ∷ offset.new ∷ start.new ∷ len.new ∷ [] ≡ picked_numbers answer }
{
    let reference = answer.unwrap_or(InlineRef {
        kind: 0,
        offset: 0,
        start: 0,
        len: 0,
    });
    *kind = reference.kind as u64;
    *offset = reference.offset;
    *start = reference.start as u64;
    *len = reference.len as u64;
    code(answer)
}

#[tactic(auto, using(crate::proofs::Answers::ranged_coded))]
pub fn put_ranged(answer: Result<ItemRange, Refusal>, start: &mut u64, len: &mut u64) -> u32
    ensures { result ∷ start.new ∷ len.new ∷ [] ≡ ranged_numbers answer }
{
    let range = answer.unwrap_or(ItemRange { start: 0, size: 0 });
    *start = range.start as u64;
    *len = range.size as u64;
    code(answer)
}
