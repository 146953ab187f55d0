//! Hands are dealt to a worker, and gathered.

ghost use Rattle.std.specs.Prelude.{◌≡◌, ◌+◌, ◌≤◌, length, vec_capacity, vec_len};
ghost use Rattle.core_table.specs.Public.{IsOf, plan_of, view_of};
ghost use Rattle.parallel_play.specs.Playing.{IdleFrom, Played};
ghost use Rattle.parallel_play.specs.Stages.{table_in};
ghost use Rattle.crew_play.specs.Hands.{AllOver, Anybody, IsCrew, Nobody, dealt};

use crate::hands::Hand;
use core_calls::Turned;
use core_table::Seat;
use parallel_play::{Stage, Tally, split_off, take_back};
use std::snapshot::Snapshot;
use turn_steps::Turning;

/// A seat for each core from the first up to but without the end, in the order of their numbers.
pub(crate) fn deal(
    stage: &Stage<'_>,
    mut seat: Seat,
    mut hands: Vec<Hand>,
    first: u32,
    end: u32,
) -> (Seat, Vec<Hand>)
    requires seat { IsOf (table_in stage.now) seat }
    requires idle { IdleFrom first (view_of seat) }
    requires round { stage.now.round ≡ (view_of seat).round }
    requires cores { (first ≤ end) × (end ≤ (plan_of (table_in stage.now)).cores) }
    requires room { (vec_len hands ≡ 0) × (end ≤ first + vec_capacity hands) }
    ensures seat { IsOf (table_in stage.now) result.0 }
    ensures view { view_of result.0 ≡ dealt first (length result.1.items) (view_of seat) }
    ensures idle { IdleFrom end (view_of result.0) }
    ensures crew { IsCrew (table_in stage.now) Nobody stage.now.round first result.1.items }
    ensures len { first + length result.1.items ≡ end }
    ensures capacity { vec_capacity result.1 ≡ vec_capacity hands }
{
    for core in first..end {
        let (left, own) = split_off(stage, seat, core);
        seat = left;
        hands.push_reserved(Hand {
            seat: Some(own),
            turning: Turning::new(stage.plan, core, stage.round),
        });
    }
    (seat, hands)
}

/// The seats come back, the highest core first, and what they come to is counted. The list is empty then. The seat was
/// `before` when no seat was dealt, and `start` was counted when none of the workers behind had played.
pub(crate) fn gather(
    stage: &Stage<'_>,
    before: &Snapshot<Seat>,
    start: &Snapshot<Tally>,
    mut seat: Seat,
    mut hands: Vec<Hand>,
    first: u32,
    mut tally: Tally,
) -> (Seat, Vec<Hand>, Tally)
    requires seat { IsOf (table_in stage.now) seat }
    requires crew { IsCrew (table_in stage.now) Anybody stage.now.round first hands.items }
    requires over { AllOver hands.items }
    requires idle { IdleFrom first (view_of before.now.value) }
    requires cores { first + length hands.items ≤ (view_of before.now.value).plan.cores }
    requires played { Played (first + length hands.items) start.now.value tally
        (dealt first (length hands.items) (view_of before.now.value)) (view_of seat) }
    ensures seat { IsOf (table_in stage.now) result.0 }
    ensures played { Played first start.now.value result.2 (view_of before.now.value) (view_of result.0) }
    ensures empty { vec_len result.1 ≡ 0 }
    ensures capacity { vec_capacity result.1 ≡ vec_capacity hands }
{
    while let Some(hand) = hands.pop() {
        let Hand { seat: own, turning } = hand;
        let Some(own) = own else { unreachable!() };
        let (entries, ended) = turning.turned();
        (seat, tally) = take_back(stage, seat, own, tally, Turned { entries, ended });
    }
    (seat, hands, tally)
}
