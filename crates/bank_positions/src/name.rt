//! Which sums a share belongs to.
use std::marker::Brand;

/// Names one `Positions`. What lies behind a lock is known by its type alone, so a share says by
/// its type to which sums it adds.
pub trait PositionsName {
    ghost use Rattle.bank_positions.specs.Sums.{Layout};

    /// The table of words on which it stands, how many banks it has, and how many shards.
    ghost layout: { Layout };
}

impl PositionsName for Brand {
    ghost use Rattle.bank_positions.specs.Sums.{no_layout};

    ghost layout = { no_layout };
}
