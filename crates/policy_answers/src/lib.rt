//! Checks a policy's text: the answers of `check`, `explain`, `bound`, `rest` and `verify`, and how each is written.
#![tactic(auto)]

mod answer;
mod bounding;
mod explaining;
mod lines;
mod points;
mod reading;
mod resting;
mod text_lines;
mod verifying;

pub use answer::{CheckAnswer, check_text};
pub use bounding::{BoundAnswer, Bounding, bound_text};
pub use explaining::{ExplainAnswer, Explanation, explain_text};
pub use reading::{CheckMemory, Refusal};
pub use resting::{RestAnswer, Resting, rest_text};
pub use text_lines::put_text;
pub use verifying::{VerifyAnswer, verify_text};
