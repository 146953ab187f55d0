//! What a history is judged to be.

ghost use Rattle.std.specs.Prelude.{◌≡◌};

use round_model::ModelMemory;
use sched_base::Pos;

/// What a whole history has.
#[derive(Clone, Copy)]
pub struct Replayed {
    /// The number of its entries.
    pub entries: u32,
    /// The number of its rounds.
    pub rounds: u32,
}

/// Why a history isn't found to be whole.
#[derive(Clone, Copy)]
pub enum ReplayFault {
    /// The position, from 0, of the first entry that isn't legal after those before it.
    Illegal(Pos),
    /// All entries are legal, so many they are, and more have to come: the last round isn't complete, or one more is
    /// due.
    Short(Pos),
    /// There was no memory to judge it.
    Memory,
}

impl From<ModelMemory> for ReplayFault {
    ghost use Rattle.history_judge.specs.declared.judgement.ReplayFault.TheVariants.{Memory};

    ghost from_gives = { λ _ fault. fault ≡ Memory };

    fn from(_fault: ModelMemory) -> ReplayFault {
        ReplayFault::Memory
    }
}
