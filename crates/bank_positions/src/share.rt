//! What one thread adds.
ghost use Rattle.std.specs.Prelude.{◌≡◌, []};
ghost use Rattle.bank_positions.specs.calls.Rule.{sums, IsSeat};

use crate::name::PositionsName;
use crate::rule::Sums;
use atomic_table::Seat;
use std::marker::{Model, PhantomData};

/// One thread's right to add. Contracts see it as what it has added, a sum in paise for each bank
/// and leg: three of the first bank, three of the next, and so on. Where the list ends the sums are
/// 0. It has no bytes.
#[derive(Drop)]
pub struct Share<N: PositionsName> {
    pub(crate) seat: Seat<(), Sums>,
    of: PhantomData<N>,
}

impl<N: PositionsName> Model for Share<N> {
    ghost use Rattle.std.specs.Prelude.{ℕ, List};
    ghost use Rattle.bank_positions.specs.calls.Rule.{IsSeat};

    ghost Value = { List ℕ };

    ghost view = { λ s. s.seat.me.0.added };

    ghost invariant = { λ s. IsSeat N.layout.table s.seat };
}

impl<N: PositionsName> Share<N> {
    pub(crate) fn of(seat: Seat<(), Sums>) -> Share<N>
        requires table { seat.table_id ≡ N.layout.table }
        requires fresh { seat.me ≡ (sums 1 [], []) }
        ensures { result ≡ [] }
    {
        Share {
            seat,
            of: PhantomData,
        }
    }

    pub(crate) fn into_seat(self) -> Seat<(), Sums>
        ensures seat { IsSeat N.layout.table result }
        ensures added { result.me.0.added ≡ self }
    {
        let Share { seat, of: _ } = self;
        seat
    }
}
