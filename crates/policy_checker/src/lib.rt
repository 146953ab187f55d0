//! Verdicts on policies: every obligation is decided, and a policy is accepted only with a right certificate for each
//! of its systems.
#![tactic(auto)]

mod accepted;
mod answer;
mod checking;
mod deciding;
mod last_threads;
mod laws;
mod one;
mod playing;
mod rest_gaps;
mod smaller;
mod verdict;

pub use accepted::AcceptedPolicy;
pub use answer::{Answered, CertList, ObAnswer, ObAnswers, Outcome};
pub use checking::check_policy;
pub use last_threads::{LastOnes, check_last};
pub use laws::{
    law_answers, law_certified, law_differences, law_playable, law_points, law_statements,
};
pub use one::{One, OneFault, check_one};
pub use playing::{PlayablePolicy, playable};
pub use rest_gaps::{LeastGap, WiderGap, check_gap, least_gap};
pub use verdict::{CheckFault, Verdict};
