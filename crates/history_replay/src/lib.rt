//! Judges the text of a history under a policy and a trace's text: what it comes to, and how that is written.
//!
//! A contract sees texts as lists of bytes, and what they spell as plans and histories of the model.
#![tactic(auto)]

mod answer;
mod explanations;
mod judging;
mod refusal;

pub use answer::{HistoryAnswer, migrate_texts, replay_texts, report_texts, why_texts};
pub use judging::{JudgeStop, Judged, explain_texts, judge_texts};
pub use refusal::HistoryRefusal;
