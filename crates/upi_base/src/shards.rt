//! The sixteen shards of transactions and of accounts.
ghost use Rattle.std.specs.Prelude.{◌≡◌, ◌<◌};
ghost use Rattle.upi_base.specs.Shards.{hash_after as hash_of, txn_shard as txn_shard_of, account_shard as account_shard_of};

use crate::TxnId;
use crate::setup::AccountRef;

/// How many shards there are.
pub const SHARDS: u8 = 16;

// The number of a text behind one whose number is this.
fn hash_after(before: u32, text: &[u8]) -> u32
    requires { before < 65_521 }
    ensures bound { result < 65_521 }
    ensures value { result ≡ hash_of before text.now }
{
    let mut hash = before;
    for byte in text {
        hash = (131 * hash + u32::from(*byte)) % 65_521;
    }
    hash
}

/// The shard of a transaction, below 16.
#[tactic(auto, using(crate::proofs::Hashes::shard_after_is))]
pub fn txn_shard(t: &TxnId) -> u8
    ensures value { result ≡ txn_shard_of t.now }
    ensures bound { result < 16 }
{
    (hash_after(0, t.bytes()) % 16) as u8
}

/// The shard of an account, below 16: that of its text `BANK/NUM`.
#[tactic(auto, using(crate::proofs::Hashes::shard_after_is, crate::proofs::Hashes::hash_append))]
pub fn account_shard(a: &AccountRef) -> u8
    ensures value { result ≡ account_shard_of a.now }
    ensures bound { result < 16 }
{
    let bank = hash_after(0, a.bank.bytes());
    let slash = hash_after(bank, b"/");
    (hash_after(slash, a.num.bytes()) % 16) as u8
}
