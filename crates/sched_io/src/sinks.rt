//! Where output goes.

ghost use Rattle.std.specs.Prelude.{◌≡◌, ◌≢◌, ◌<◌, [], ◌∷◌, IfOk, None, OnErr, OnOk};
ghost use Rattle.sched_io.specs.Faults.{Rose};
ghost use Rattle.sched_io.specs.Puts.{Puts};
ghost use Rattle.sched_io.specs.Shown.{Refuses, Shown, Takes};
ghost use Rattle.sched_io.specs.Written.{Adds, AddsPart};

use crate::faults::PutFault;

/// A sink of bytes. It counts its faults; it may tell the bytes that were written and the pieces that it was offered.
pub trait Sink {
    /// What it shows of itself.
    ghost shown: { Self → Shown };

    /// Offers a piece, of which the sink takes a front, and answers how many bytes it took.
    fn put(&mut self, piece: &[u8]) -> Result<u64, PutFault>
        ensures takes { IfOk result (λ count. Takes piece.now count (shown self.old) (shown self.new)) }
        ensures refuses { OnErr result (Refuses piece.now (shown self.old) (shown self.new)) };
}

/// Puts until the whole piece is written, or a put fails. An empty piece is offered once.
pub fn put_all<S: Sink>(out: &mut S, piece: &[u8]) -> Result<(), PutFault>
    ensures { Puts (piece.now ∷ []) result (S.shown out.old) (S.shown out.new) }
{
    let count = out.put(piece)?;
    let (_taken, rest) = piece.split_at(count as usize);
    put_rest(out, rest)
}

/// Puts what is left of a piece, if anything is.
fn put_rest<S: Sink>(out: &mut S, rest: &[u8]) -> Result<(), PutFault>
    ensures whole { OnOk result (Adds rest.now (S.shown out.old).written (S.shown out.new).written) }
    ensures steady { OnOk result ((S.shown out.new).faults ≡ (S.shown out.old).faults) }
    ensures part { OnErr result (AddsPart rest.now (S.shown out.old).written (S.shown out.new).written) }
    ensures fault { OnErr result (Rose (S.shown out.old).faults (S.shown out.new).faults) }
    ensures some { OnErr result (rest.now ≢ []) }
    ensures silent { (S.shown out.old).offered ≡ None → (S.shown out.new).offered ≡ None }
    ensures idle { rest.now ≡ [] → (S.shown out.new).offered ≡ (S.shown out.old).offered }
{
    let mut left = rest;
    while !left.is_empty() {
        let count = out.put(left)?;
        let (_taken, behind) = left.split_at(count as usize);
        left = behind;
    }
    Ok(())
}
