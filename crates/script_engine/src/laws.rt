//! What holds of each script, each law as a function with an empty body: its contract is the law.
ghost use Rattle.script_engine.specs.Writing.{TextIsOfHistory};

/// Whatever lines play to, what they have written is, but for remarks that are put in, the text of
/// the setup that was read and then the journal of the history.
pub fn text_is_of_history()
    ensures { TextIsOfHistory }
{}
