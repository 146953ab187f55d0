//! The C header of a policy by the verdict on it. Of a policy that isn't accepted it is a draft, for lectures and
//! tries: its first line names the obligations that fail or are undecided. Its rules are printed as those of an
//! accepted one.
#![tactic(auto, using(c_printer::proofs::AddsLemmas::glued_append))]

mod comment;
mod drafting;

pub use drafting::draft_text;
