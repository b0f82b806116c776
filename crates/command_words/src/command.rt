//! The commands that wait for nobody, and their words.
ghost use Rattle.std.specs.Prelude.{◌≡◌, ◌≤◌, IfSome, string_bytes};
ghost use Rattle.load_generator.specs.declared.text.TheConstants.{MAX_COUNT, MAX_SEED};
ghost use Rattle.command_words.specs.Commands;

use load_generator::{MAX_COUNT, MAX_SEED};
use upi_io::Words;
use upi_text::number;

/// How many digits a value has at most.
const MAX_DIGITS: usize = 10;

/// How large a load is, and what it is drawn from.
#[derive(Clone, Copy, Debug, PartialEq, Eq)]
pub struct LoadSize {
    /// How many payments it has: 1 to 50,000.
    pub count: u32,
    /// The seed that they are drawn from: at most 2,147,483,647.
    pub seed: u32,
}

/// What the words of a command line ask for.
#[derive(Clone, Copy, Debug, PartialEq, Eq)]
pub enum Command {
    /// `script`: play the lines of the input.
    Script,
    /// `audit`: judge the journal of the input.
    Audit,
    /// `gen COUNT SEED`: write the text of a load.
    Generate(LoadSize),
    /// `load COUNT SEED`: play a load, and sum it up in a line.
    Load(LoadSize),
}

/// The number in these bounds that a word of 1 to 10 digits spells; `None` for any other word.
fn value(word: &String, least: u32, most: u32) -> Option<u32>
    ensures value { result ≡ Commands.value least most (string_bytes word.now) }
    ensures within { IfSome result (λ n. n ≤ most) }
{
    let digits = word.as_bytes();
    if digits.len() > MAX_DIGITS {
        return None;
    }
    let n = number(digits)?;
    if n < u64::from(least) || n > u64::from(most) {
        return None;
    }
    Some(n as u32)
}

/// The load of these two words.
fn load_size(count: &String, seed: &String) -> Option<LoadSize>
    ensures size { result ≡ Commands.load_size (string_bytes count.now) (string_bytes seed.now) }
    ensures within { IfSome result (λ s. (s.count ≤ MAX_COUNT) × (s.seed ≤ MAX_SEED)) }
{
    Some(LoadSize {
        count: value(count, 1, MAX_COUNT)?,
        seed: value(seed, 0, MAX_SEED)?,
    })
}

/// The command with these two values behind its name.
fn sized(name: &String, count: &String, seed: &String) -> Option<Command>
    ensures command { result ≡ Commands.sized (string_bytes name.now) (string_bytes count.now) (string_bytes seed.now) }
    ensures within { Commands.IsWithin result }
{
    let size = load_size(count, seed)?;
    match name.as_str() {
        "gen" => Some(Command::Generate(size)),
        "load" => Some(Command::Load(size)),
        _ => None,
    }
}

/// The command that is one word.
fn bare(name: &String) -> Option<Command>
    ensures command { result ≡ Commands.bare (string_bytes name.now) }
    ensures within { Commands.IsWithin result }
{
    match name.as_str() {
        "script" => Some(Command::Script),
        "audit" => Some(Command::Audit),
        _ => None,
    }
}

/// What the words behind a program's name ask for; `None` exactly where no command has this form:
/// `script`, `audit`, `gen COUNT SEED` and `load COUNT SEED`. A value is 1 to 10 digits, and leading
/// zeros may stand; COUNT is 1 to 50,000, and SEED at most 2,147,483,647.
pub fn command_of(words: &Words) -> Option<Command>
    ensures command { result ≡ Commands.command_of words.now }
    // A load is no larger than loads may be.
    ensures within { Commands.IsWithin result }
{
    match words.as_slice() {
        [name] => bare(name),
        [name, count, seed] => sized(name, count, seed),
        _ => None,
    }
}
