//! The two languages that a text may be in.

/// What a text is: a policy, or a level text. They have the same productions, but a level text begins with `levels` in
/// place of `policy` and has levels in place of a filter. Three words more are reserved in it.
#[derive(Clone, Copy)]
pub enum Language {
    Policies,
    LevelTexts,
}
