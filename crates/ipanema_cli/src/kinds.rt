//! Commands that differ only in what they write.

/// The commands that write a text of an accepted policy.
#[derive(Clone, Copy)]
pub enum ExportCommand {
    /// To write its certificates.
    Prove,
    /// To write its rules as a header in C.
    Emit,
}

/// The commands that simulate a trace.
#[derive(Clone, Copy)]
pub enum SimulationCommand {
    /// To write its serial history.
    Simulate,
    /// To say what that history wasted and why its steals failed, where an entry explains it.
    Waste,
}

/// The commands that judge a history.
#[derive(Clone, Copy)]
pub enum HistoryCommand {
    /// To say whether it is whole.
    Replay,
    /// To say what it wasted and why its steals failed.
    Report,
    /// To write its text of the second format.
    Migrate,
    /// To say why it isn't whole, and what may come in it.
    Why,
}
