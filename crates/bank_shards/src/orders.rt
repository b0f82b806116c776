//! The shard of an order, and the account that a line gives.
ghost use Rattle.std.specs.Prelude.{◌≡◌, ◌<◌, ℕ, Some, None, option_map, option_to_list};
ghost use Rattle.upi_base.specs.Setup.{line_accounts};
ghost use Rattle.upi_base.specs.Shards.{account_shard as account_shard_of};
ghost use Rattle.upi_words.specs.Prelude.{Order};
ghost use Rattle.upi_model.specs.Accounts.{order_of};

use upi_base::{Account, Body, Sent, SetupLine, account_shard};

/// The shard of the account that an order names; 0 where the message is no order.
pub(crate) fn place_of(message: &Sent) -> usize
    ensures bound { result < 16 }
    ensures value { (o : Order) → order_of message.now.body ≡ Some o → result ≡ account_shard_of o.ac }
{
    match &message.body {
        Body::Order {
            txn: _txn,
            leg: _leg,
            amount: _amount,
            ac,
            addr: _addr,
            extra: _extra,
        } => account_shard(ac.get()) as usize,
        _ => 0,
    }
}

/// The account that a line gives, if it gives one.
pub(crate) fn account_in(line: &SetupLine) -> Option<Account>
    ensures { option_to_list result ≡ line_accounts line.now }
{
    match line {
        SetupLine::Account {
            ac,
            opening,
            no_debit,
            no_credit,
        } => Some(Account {
            ac: ac.copy(),
            opening: *opening,
            no_debit: *no_debit,
            no_credit: *no_credit,
        }),
        _ => None,
    }
}
