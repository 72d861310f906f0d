// Where the references of a body start.
ghost use Rattle.std.specs.Prelude.{◌≡◌, ◌≤◌, length};
ghost use Rattle.format.specs.References.{start_of};
ghost use Rattle.inline_refs.specs.Steps.{open_of};

use format::{BODY_HEAD, EXTENT_ITEM, MOST_DATA, Refusal};

pub fn refs_start(item_type: u8, body: &[u8]) -> usize
    requires { 24 ≤ length body.now }
    ensures { result ≡ start_of item_type body.now }
{
    if item_type != EXTENT_ITEM {
        return BODY_HEAD;
    }
    if fields::get_u64_le(body, 16) / 2 % 2 == 1 {
        return 42;
    }
    BODY_HEAD
}

// Questions 3 and 6 of a call that reads references.
pub fn open_body(item_type: u8, body: &[u8]) -> Result<usize, Refusal>
    ensures { result ≡ open_of item_type body.now }
{
    if MOST_DATA < body.len() {
        return Err(Refusal::RANGE);
    }
    if body.len() < BODY_HEAD {
        return Err(Refusal::SHORT);
    }
    let start = refs_start(item_type, body);
    if body.len() < start {
        return Err(Refusal::SHORT);
    }
    Ok(start)
}
