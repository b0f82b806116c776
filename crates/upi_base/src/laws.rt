//! Laws of the definitions, each as a function with an empty body.
ghost use Rattle.upi_base.specs.Money.{PaiseReadsBack};
ghost use Rattle.upi_base.specs.Time.{MomentReadsBack};
ghost use Rattle.upi_base.specs.Setup.{SetupsExtend, AcceptedAreSound};

/// A sum that is written reads as that sum.
pub fn paise_reads_back()
    ensures { PaiseReadsBack }
{}

/// A moment that is written reads as that moment.
pub fn moment_reads_back()
    ensures { MomentReadsBack }
{}

/// A setup with one line more that is accepted behind it is a setup.
pub fn setups_extend()
    ensures { SetupsExtend }
{}

/// In an accepted setup the account and the PSP of each address are there, as is the bank of each
/// account, and each account is there once.
pub fn accepted_are_sound()
    ensures { AcceptedAreSound }
{}
