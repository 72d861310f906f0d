// The ledger (document 01's books): one change posted to a balanced item list.
#![tactic(auto)]

mod adds;
mod also;
mod owned;
mod posting;

pub use posting::post;
