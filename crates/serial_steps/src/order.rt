//! The order of the steps of a turn. Whoever plays a turn asks here.

ghost use Rattle.std.specs.Prelude.{◌≡◌};
ghost use Rattle.serial_steps.specs.Orders.{in_order};

use sched_base::ThreadId;

/// What comes next in a turn. `W` says which thread wakes, and `L` what was seen in a look.
#[derive(Clone, Copy)]
pub enum NextInTurn<W, L> {
    /// This thread enters.
    Enter(ThreadId),
    /// This one wakes.
    Wake(W),
    /// The core runs its unit of work.
    Work,
    /// It looks at all cores.
    Look,
    /// It makes its attempt by this look.
    Attempt(L),
    /// Nothing: the turn is over.
    Over,
}

/// What comes next in a turn, of which these threads are still to enter and to wake, and which has come so far. All that
/// enter come first, and those that wake behind them. Then come the unit, the look, and the attempt.
pub fn next_in_turn<W: Copy, L: Copy>(
    entering: Option<ThreadId>,
    waking: Option<W>,
    worked: bool,
    attempted: bool,
    look: Option<L>,
) -> NextInTurn<W, L>
    ensures { result ≡ in_order entering waking worked attempted look }
{
    if let Some(thread) = entering {
        return NextInTurn::Enter(thread);
    }
    if let Some(thread) = waking {
        return NextInTurn::Wake(thread);
    }
    if attempted {
        return NextInTurn::Over;
    }
    if !worked {
        return NextInTurn::Work;
    }
    match look {
        None => NextInTurn::Look,
        Some(look) => NextInTurn::Attempt(look),
    }
}
