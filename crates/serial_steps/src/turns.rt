//! What the next step of a core in its turn comes to.

use round_model::Entry;

/// What the next step of a core comes to.
#[derive(Clone, Copy)]
pub enum NextStep {
    /// It adds this entry.
    Adds(Entry),
    /// The core looks at all cores, and adds nothing.
    Looks,
    /// The turn of the core is over.
    Over,
}
