// A whole item of a sheet: where it stands, where the next one starts, and its key.
use format::Key;

#[derive(Clone, Copy)]
pub struct ItemAt {
    pub at: usize,
    pub next: usize,
    pub key: Key,
}
