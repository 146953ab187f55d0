//! What cores at rest have: the gap that stays between their loads, and how soon policies by thread counts come to
//! rest.
#![tactic(auto)]

mod laws;

pub use laws::{
    law_even_counts, law_even_soon, law_lowest_first, law_rest_gap, law_steps_by_one, law_two_apart,
};
