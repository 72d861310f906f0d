// A reader that borrows a body: its bytes and a position. `Reader::step` reads the reference at the position by the cursor,
// says what the cursor says, and moves behind it. Where the references of a body start, `open_body` says.
ghost use Rattle.std.specs.Prelude.{◌≡◌};
ghost use Rattle.inline_refs.specs.Steps.{ref_step_at, moved};

use crate::kinds::Kinds;
use crate::step::{Cursor, RefAt};
use format::Refusal;

#[derive(Drop)]
pub struct Reader<'a> {
    pub body: &'a [u8],
    pub at: usize,
}

impl<'a> Reader<'a> {
    pub fn new(body: &'a [u8], at: usize) -> Reader<'a>
        ensures { (result.body ≡ body.entry) × (result.at ≡ at) }
    {
        Reader { body, at }
    }

    // The body stays; the position is behind a whole reference, and as it was at the end and at a fault.
    pub fn step(&mut self, kinds: &Kinds) -> Result<Option<RefAt>, Refusal>
        ensures { (result ≡ ref_step_at self.old.body.now self.old.at) × (self.new.body ≡ self.old.body) × (self.new.at ≡ moved (ref_step_at self.old.body.now self.old.at) self.old.at) }
    {
        let cursor = Cursor { at: self.at };
        let step = cursor.step(kinds, self.body)?;
        if let Some(reference) = step {
            self.at = reference.next.at;
        }
        Ok(step)
    }
}
