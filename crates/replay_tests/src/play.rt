//! Plays a journal: its calls and moments give the replies and the messages.
use std::alloc::Global;
use std::test::Fail;
use upi_base::Setup;
use upi_replay::Replay;
use upi_text::word;
use worked_rows::journal::{call_of, moment};

/// The switch to which a journal's calls happened.
pub(crate) fn play(alloc: Global, setup: &Setup, text: &[u8]) -> Result<Replay, Fail> {
    let mut switch = Replay::new(alloc, setup.lines.copy(alloc)?);
    for line in text.split(|c| *c == b'\n') {
        if word(line, 0) == b"E".as_slice() {
            let call = call_of(alloc, line)?;
            let at = moment(word(line, 3))?;
            let step = switch.plan(0, call, at)?;
            switch.commit(step)?;
        }
    }
    Ok(switch)
}
