// Numbers inside byte slices, and copies of lent bytes. What each call does is one `written` (specs/Parts.antt), so that calls in
// a row compose by one law.
#![tactic(auto)]

mod appending;
mod clearing;
mod copy;
mod get;
mod put;

pub use appending::append;
pub use clearing::clear;
pub use copy::copy_at;
pub use get::{get_u32_be, get_u32_le, get_u64_be, get_u64_le};
pub use put::{put_u8, put_u32_be, put_u32_le, put_u64_be, put_u64_le};
