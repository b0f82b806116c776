//! An entry as it is handed out: it borrows what the list keeps.
ghost use Rattle.std.specs.Prelude.{◌≡◌};
ghost use Rattle.entry_log.specs.Rows.{call_of};
ghost use Rattle.entry_log.specs.Views.{shown, shown_call};

use crate::rows::Made;
use upi_base::{Call, Entry, Moment, Reply, Sent};

/// The call of an entry.
#[derive(Clone, Copy)]
pub enum CallView<'a> {
    /// A Hear or a Late.
    Whole(&'a Call),
    /// The message of this number was handed to its receiver.
    Deliver(u64),
    /// The message of this number was lost.
    Lose(u64),
    /// The switch closed.
    Close,
}

/// An entry of the history.
#[derive(Clone, Copy)]
pub struct EntryView<'a> {
    /// What was asked of the switch.
    pub call: CallView<'a>,
    /// When, in seconds since 1970-01-01T00:00:00Z.
    pub at: Moment,
    /// Who made the call: a number, 0 where a script did.
    pub caller: u64,
    /// What the switch said.
    pub reply: Reply,
    /// The messages that the call sent, in their order.
    pub sent: &'a [Sent],
}

/// The call that a row keeps.
pub(crate) fn call_view(made: &Made) -> CallView<'_>
    ensures { shown_call result ≡ call_of made.now }
{
    match made {
        Made::Whole(call) => CallView::Whole(call.get()),
        Made::Deliver(n) => CallView::Deliver(*n),
        Made::Lose(n) => CallView::Lose(*n),
        Made::Close => CallView::Close,
    }
}

impl EntryView<'_> {
    /// The view of an entry that stands whole elsewhere.
    pub fn of(entry: &Entry) -> EntryView<'_>
        ensures { shown result ≡ entry.now }
    {
        EntryView {
            call: CallView::Whole(&entry.call),
            at: entry.at,
            caller: entry.caller,
            reply: entry.reply,
            sent: entry.sent.items(),
        }
    }
}
