//! The laws of histories, one record a subject; the promise comes first. Each function has an empty
//! body, and its contract is the law.
ghost use Rattle.upi_laws.specs.BalanceLaws;
ghost use Rattle.upi_laws.specs.CloseLaws;
ghost use Rattle.upi_laws.specs.LegLaws;
ghost use Rattle.upi_laws.specs.LocalLaws;
ghost use Rattle.upi_laws.specs.MessageLaws;
ghost use Rattle.upi_laws.specs.Sound;
ghost use Rattle.upi_laws.specs.StormLaws;
ghost use Rattle.upi_laws.specs.TellingLaws;
ghost use Rattle.upi_laws.specs.WaitingLaws;

/// The promise: every legal history over an accepted setup is sound, at each of its prefixes.
///
/// Outcomes stay and are told as they stand; each leg posts once; an entry moves balances by what
/// arrives with it alone; no COLLECT is debited without the approval of its payer's PSP; no money is
/// made or lost; and the close settles every transaction, so that all banks balance.
pub fn legal_is_sound()
    ensures { Sound.LegalIsSound }
{}

/// The parts of the promise but for the first, each with the premises that it needs.
#[tactic(auto, using(crate::proofs::Gathered::parts_sound))]
pub fn parts_sound()
    ensures { Sound.PartsSound }
{}

/// Arrivals and balances on every list of entries: only first arrivals move money, debits are covered,
/// credits are capped, totals are bounded.
#[tactic(auto, using(crate::proofs::Gathered::balance_laws))]
pub fn balance_laws()
    ensures { BalanceLaws.BalanceLaws }
{}

/// Before a Close nothing ends by it; at it and after it each opened transaction has an outcome, and
/// nothing is sent.
#[tactic(auto, using(crate::proofs::Gathered::close_laws))]
pub fn close_laws()
    ensures { CloseLaws.CloseLaws }
{}

/// Each message of a legal history is backed by it, has the version of its transaction's opening, and
/// a bank's answer comes from the bank of its leg's account.
#[tactic(auto, using(crate::proofs::Gathered::message_laws))]
pub fn message_laws()
    ensures { MessageLaws.MessageLaws }
{}

/// Orders come after the places that order them and are answered; answers are the legs' and end them;
/// question, debit, credit and reversal end one after the other.
#[tactic(auto, using(crate::proofs::Gathered::leg_laws))]
pub fn leg_laws()
    ensures { LegLaws.LegLaws }
{}

/// Every status and every message about an outcome tells the outcome that then stands; each outcome is
/// told to the asking PSP once, and to the asked PSP one to four times.
#[tactic(auto, using(crate::proofs::Gathered::telling_laws))]
pub fn telling_laws()
    ensures { TellingLaws.TellingLaws }
{}

/// A reversal that is wanted was sent, and what is opened and has no outcome is due at a moment.
#[tactic(auto, using(crate::proofs::Gathered::waiting_laws))]
pub fn waiting_laws()
    ensures { WaitingLaws.WaitingLaws }
{}

/// What the entries of one owner say of a legal history, and which entries fit after them.
#[tactic(auto, using(crate::proofs::Gathered::local_laws))]
pub fn local_laws()
    ensures { LocalLaws.LocalLaws }
{}

/// Storms: before a Close, what is lost, and an order or a bank's answer that is delivered once more,
/// changes no outcome, no due moment, no moved amount, no balance and no money in flight.
#[tactic(auto, using(crate::proofs::Storms::storm_laws))]
pub fn storm_laws()
    ensures { StormLaws.StormLaws }
{}
