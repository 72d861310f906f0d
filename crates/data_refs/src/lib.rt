// Data references that stand side by side in a body, by their numbers: the triple of each, the search of one by its triple, and
// whether all of them differ. Few are compared each with each; more are put in chains by their triples, so that a triple is compared
// with those of its own chain alone.
#![tactic(auto)]

mod chains;
mod keys;
mod triples;

pub use chains::{Chains, chain_all, distinct_front};
pub use keys::seed_of;
pub use triples::{Triples, data_size, triple_at};
