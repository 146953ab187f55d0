//! What plans come to that are played in several ways.

/// What the plays of some plans come to.
#[derive(Clone, Copy)]
pub(crate) struct Agreement {
    /// Running cores come to the histories of plain lists, and all are whole.
    pub(crate) by_cores: bool,
    /// So does the table by hand.
    pub(crate) by_hand: bool,
    /// The table in threads comes to whole histories.
    pub(crate) in_threads: bool,
    /// The table by one worker and by two comes to whole histories.
    pub(crate) by_crews: bool,
    /// A steal of them fails by one worker.
    pub(crate) fails_alone: bool,
    /// A steal of them moves several threads.
    pub(crate) in_batches: bool,
}

impl Agreement {
    /// No plan is played yet.
    pub(crate) fn of_none() -> Agreement {
        Agreement {
            by_cores: true,
            by_hand: true,
            in_threads: true,
            by_crews: true,
            fails_alone: false,
            in_batches: false,
        }
    }

    /// A plan that can't be played.
    pub(crate) fn failed() -> Agreement {
        Agreement {
            by_cores: false,
            by_hand: false,
            in_threads: false,
            by_crews: false,
            fails_alone: false,
            in_batches: false,
        }
    }

    /// The same of these plans and of others.
    pub(crate) fn and(self, others: Agreement) -> Agreement {
        Agreement {
            by_cores: self.by_cores && others.by_cores,
            by_hand: self.by_hand && others.by_hand,
            in_threads: self.in_threads && others.in_threads,
            by_crews: self.by_crews && others.by_crews,
            fails_alone: self.fails_alone || others.fails_alone,
            in_batches: self.in_batches || others.in_batches,
        }
    }
}
