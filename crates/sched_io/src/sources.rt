//! Where files come from.

ghost use Rattle.std.specs.Prelude.{◌≡◌, ℕ, ◌<◌, ◌≤◌, ◌⊎◌, List, [], ◌∷◌, IfOk, IsErrOf, Option, length, vec_len};
ghost use Rattle.sched_io.specs.Faults.{Rose};
ghost use Rattle.sched_io.specs.Loads.{AreRequested, LoadRequest, load_request};
ghost use Rattle.sched_io.specs.Told.{Told, IfHolds, missing};

use crate::faults::LoadFault;
use std::alloc::Global;

/// A source of files. It may tell of a name whether a file has it, of a file its bytes, and which
/// loads were requested; it counts its faults.
pub trait Files {
    /// What it tells of a name.
    ghost told: { Self → List ℕ → Told };

    /// How often the outside has failed.
    ghost faults: { Self → ℕ };

    /// Which loads were requested of it so far, in order and each with its limit, where it tells that.
    ghost requested: { Self → Option (List LoadRequest) };

    /// The bytes of that file, at most `limit`.
    fn load(&mut self, alloc: Global, name: &str, limit: u64) -> Result<Vec<u8>, LoadFault>
        ensures bytes { IfOk result (λ bytes. IfHolds (told self.old name.now) (λ held. bytes.items ≡ held)) }
        ensures within { IfOk result (λ bytes. vec_len bytes ≤ limit) }
        ensures too_long { IsErrOf result LoadFault.TooLong →
            IfHolds (told self.old name.now) (λ held. limit < length held) }

        // The outside failed, which counts once, or the name is told to be missing, which is no fault of the outside.
        ensures failed { IsErrOf result LoadFault.Failed →
            Rose (faults self.old) (faults self.new) ⊎ (told self.old name.now ≡ missing) }
        ensures missing { told self.old name.now ≡ missing →
            IsErrOf result LoadFault.Failed ⊎ IsErrOf result LoadFault.Memory }
        ensures missing_is_no_fault { told self.old name.now ≡ missing → faults self.new ≡ faults self.old }
        ensures steady { IsErrOf result LoadFault.Failed ⊎ (faults self.new ≡ faults self.old) }

        ensures same { (other : List ℕ) → told self.new other ≡ told self.old other }
        ensures later { faults self.old ≤ faults self.new }

        // Where it tells which loads were requested, this is one more, however it ends.
        ensures requests { AreRequested (load_request name.now limit ∷ []) (requested self.old) (requested self.new) };
}
