//! The grammars.
ghost use Rattle.std.specs.Prelude.{◌≡◌};
ghost use Rattle.std.specs.Str.{is_utf8};
ghost use Rattle.upi_base.specs.Texts.{is_run, is_name, is_psp, is_bank, is_account, is_address, is_note, is_path, is_two_digits};

use crate::classes::{Alnum, Class, Digit, Name, Path, Plain, Psp, Upper, is_all, run};
use crate::text::Rule;
use std::str;

fn is_run<C: Class>(text: &[u8]) -> bool
    ensures { result ≡ is_run C.has text.now }
{
    !text.is_empty() && is_all::<C>(text)
}

#[tactic(auto, using(crate::proofs::Utf8::utf8_yes, crate::proofs::Utf8::utf8_no))]
fn is_utf8(text: &[u8]) -> bool
    ensures { result ≡ is_utf8 text.now }
{
    match str::from_utf8(text) {
        Ok(_) => true,
        Err(_) => false,
    }
}

#[tactic(auto, unfolding(crate::specs::Texts::is_psp))]
fn is_psp(text: &[u8]) -> bool
    ensures { result ≡ is_psp text.now }
{
    is_run::<Psp>(text) && text[0].is_ascii_lowercase()
}

/// The grammar of `TxnId`: letters, digits, `-`, `.` and `_`, at least one.
#[derive(Clone, Copy)]
pub struct TxnRule;

impl Rule for TxnRule {
    ghost allows = { is_name };

    fn allows(text: &[u8]) -> bool {
        is_run::<Name>(text)
    }
}

/// The grammar of `MsgId`: letters, digits, `-`, `.` and `_`, at least one.
#[derive(Clone, Copy)]
pub struct MessageRule;

impl Rule for MessageRule {
    ghost allows = { is_name };

    fn allows(text: &[u8]) -> bool {
        is_run::<Name>(text)
    }
}

/// The grammar of `OrgId`: letters, digits, `-`, `.` and `_`, at least one.
#[derive(Clone, Copy)]
pub struct OrgRule;

impl Rule for OrgRule {
    ghost allows = { is_name };

    fn allows(text: &[u8]) -> bool {
        is_run::<Name>(text)
    }
}

/// The grammar of `PspName`: lower-case letters and digits, the first a letter.
#[derive(Clone, Copy)]
pub struct PspRule;

impl Rule for PspRule {
    ghost allows = { is_psp };

    fn allows(text: &[u8]) -> bool {
        is_psp(text)
    }
}

/// The grammar of `BankCode`: four upper-case letters.
#[derive(Clone, Copy)]
pub struct BankRule;

impl Rule for BankRule {
    ghost allows = { is_bank };

    fn allows(text: &[u8]) -> bool {
        text.len() == 4 && is_all::<Upper>(text)
    }
}

/// The grammar of `AcNum`: letters and digits, at least one.
#[derive(Clone, Copy)]
pub struct AccountRule;

impl Rule for AccountRule {
    ghost allows = { is_account };

    fn allows(text: &[u8]) -> bool {
        is_run::<Alnum>(text)
    }
}

/// The grammar of `Addr`: 1 to 50 letters, digits, `-`, `.` or `_`, then `@`, then a `PspName`.
#[derive(Clone, Copy)]
pub struct AddressRule;

impl Rule for AddressRule {
    ghost allows = { is_address };

    fn allows(text: &[u8]) -> bool {
        let count = run::<Name>(text);
        count >= 1
            && count <= 50
            && count < text.len()
            && text[count] == b'@'
            && text.len() - count <= 21
            && is_psp(&text[count + 1..])
    }
}

/// The grammar of `Note`: UTF-8 without a byte below 32 and without byte 127, at least one byte.
#[derive(Clone, Copy)]
pub struct NoteRule;

impl Rule for NoteRule {
    ghost allows = { is_note };

    fn allows(text: &[u8]) -> bool {
        is_run::<Plain>(text) && is_utf8(text)
    }
}

/// The grammar of `PathText`: `-`, or letters, digits, `.`, `[` and `]`, at least one.
#[derive(Clone, Copy)]
pub struct PathRule;

impl Rule for PathRule {
    ghost allows = { is_path };

    fn allows(text: &[u8]) -> bool {
        is_run::<Path>(text) || (text.len() == 1 && text[0] == b'-')
    }
}

/// The grammar of `TwoDigits`: two digits.
#[derive(Clone, Copy)]
pub struct DigitsRule;

impl Rule for DigitsRule {
    ghost allows = { is_two_digits };

    fn allows(text: &[u8]) -> bool {
        text.len() == 2 && is_all::<Digit>(text)
    }
}
