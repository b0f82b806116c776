//! What the sixteen shards have to do with histories. The function has an empty body, and its
//! contract is the law.
ghost use Rattle.txn_shards.specs.TxnLaws;

/// What is planned of a call after a legal history is what the definitions reply and send; with its
/// entry the shards stand for the longer history, and any other entry changes nothing. What they
/// would make arrive at a Close is what it makes arrive.
#[tactic(auto, using(crate::proofs::Gathered::txn_laws))]
pub fn txn_laws()
    ensures { TxnLaws.TxnLaws }
{}
