// A cursor over the inline references of a body, by value: each step says what stands at it.
ghost use Rattle.std.specs.Prelude.{◌≡◌};
ghost use Rattle.inline_refs.specs.Steps.{ref_step_at};

use crate::kinds::Kinds;
use format::Refusal;

#[derive(Clone, Copy)]
pub struct Cursor {
    pub at: usize,
}

// A whole reference: where its payload starts, how long it is, where in it the count stands, and the next cursor.
#[derive(Clone, Copy)]
pub struct RefAt {
    pub kind: u8,
    pub start: usize,
    pub size: usize,
    pub count: usize,
    pub next: Cursor,
}

impl Cursor {
    // Questions 7 and 8; nothing where none is left.
    pub fn step(self, kinds: &Kinds, body: &[u8]) -> Result<Option<RefAt>, Refusal>
        ensures { result ≡ ref_step_at body.now self.at }
    {
        if body.len() <= self.at {
            return Ok(None);
        }
        let kind = body[self.at];
        let Some(row) = kinds.row_of(kind) else {
            return Err(Refusal::KIND);
        };
        let start = self.at + 1;
        if body.len() - start < row.payload {
            return Err(Refusal::CUT);
        }
        Ok(Some(RefAt {
            kind,
            start,
            size: row.payload,
            count: row.count,
            next: Cursor {
                at: start + row.payload,
            },
        }))
    }
}
