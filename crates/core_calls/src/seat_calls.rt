//! A core at the shared table, with its seat.

use crate::actor::Actor;
use core_table::Seat;

/// A core at the shared table, with the seat that it has for a whole turn. So it is one value, of which the clauses of
/// `CoreCalls` speak, while an actor alone takes single steps by a seat that it is lent.
#[derive(Drop)]
pub struct SeatCalls<'a> {
    pub(crate) actor: Actor<'a>,
    pub(crate) seat: Seat,
}
