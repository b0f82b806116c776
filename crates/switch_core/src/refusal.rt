//! Which calls are refused.
ghost use Rattle.std.specs.Prelude.{◌≡◌};
ghost use Rattle.upi_model.specs.History;
ghost use Rattle.upi_model.specs.Legal;
ghost use Rattle.switch_core.specs.Calls;

use crate::fault::CoreFault;
use crate::switch::Core;
use upi_base::{Call, MAX_ENTRIES};

/// Whether a call is a Close.
pub(crate) fn is_close(call: &Call) -> bool
    ensures { result ≡ History.is_close call.now }
{
    match call {
        Call::Close => true,
        _ => false,
    }
}

impl Core {
    // Whether there is room for a call, or it is the first Close.
    fn has_room(&self, call: &Call) -> bool
        ensures { result ≡ Legal.has_room self.now.history call.now }
    {
        self.len() < MAX_ENTRIES || (is_close(call) && !self.is_closed())
    }

    /// Why a call is refused, if it is.
    pub(crate) fn refusal(&self, call: &Call) -> Option<CoreFault>
        ensures why { result ≡ Calls.refused_by self.now.history call.now }
        ensures switch { Calls.IsSwitch self.now }
    {
        let _log = &self.log;
        self.refused(call)
    }

    // Why a call is refused: for want of room, or of its message.
    fn refused(&self, call: &Call) -> Option<CoreFault>
        ensures { result ≡ Calls.refused_by self.now.history call.now }
    {
        if !self.has_room(call) {
            return Some(CoreFault::Full { len: self.len() });
        }
        match call {
            Call::Deliver(n) | Call::Lose(n) => self.missing(*n),
            _ => None,
        }
    }

    // That the message of a number wasn't sent, if it wasn't.
    fn missing(&self, n: u64) -> Option<CoreFault>
        ensures { result ≡ Calls.missing self.now.history n }
    {
        let sent = self.sent_count();
        if n == 0 || n > sent {
            Some(CoreFault::NoMessage { n, sent })
        } else {
            None
        }
    }
}
