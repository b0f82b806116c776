//! Classes of bytes.
ghost use Rattle.std.specs.Prelude.{◌≡◌, ◌≤◌, ℕ, Bool, length};
ghost use Rattle.std.specs.List.{list_all, prefix_len};
ghost use Rattle.std.specs.Char.{is_ascii_alphanumeric, is_ascii_uppercase, is_ascii_digit};
ghost use Rattle.upi_base.specs.Texts.{is_name_byte, is_psp_byte, is_path_byte, is_plain_byte};

/// A class of bytes.
pub(crate) trait Class {
    ghost has: { ℕ → Bool };

    fn has(c: u8) -> bool
        ensures { result ≡ has c };
}

/// Bytes of names.
pub(crate) struct Name;

impl Class for Name {
    ghost has = { is_name_byte };

    #[tactic(auto, unfolding(crate::specs::Texts::is_name_byte))]
    fn has(c: u8) -> bool {
        c.is_ascii_alphanumeric() || c == b'-' || c == b'.' || c == b'_'
    }
}

/// Bytes of names of PSPs.
pub(crate) struct Psp;

impl Class for Psp {
    ghost has = { is_psp_byte };

    #[tactic(auto, unfolding(crate::specs::Texts::is_psp_byte))]
    fn has(c: u8) -> bool {
        c.is_ascii_lowercase() || c.is_ascii_digit()
    }
}

/// Bytes of paths.
pub(crate) struct Path;

impl Class for Path {
    ghost has = { is_path_byte };

    #[tactic(auto, unfolding(crate::specs::Texts::is_path_byte))]
    fn has(c: u8) -> bool {
        c.is_ascii_alphanumeric() || c == b'.' || c == b'[' || c == b']'
    }
}

/// Bytes that are no controls.
pub(crate) struct Plain;

impl Class for Plain {
    ghost has = { is_plain_byte };

    #[tactic(auto, unfolding(crate::specs::Texts::is_plain_byte))]
    fn has(c: u8) -> bool {
        c >= 32 && c != 127
    }
}

/// Upper-case letters.
pub(crate) struct Upper;

impl Class for Upper {
    ghost has = { is_ascii_uppercase };

    fn has(c: u8) -> bool {
        c.is_ascii_uppercase()
    }
}

/// Letters and digits.
pub(crate) struct Alnum;

impl Class for Alnum {
    ghost has = { is_ascii_alphanumeric };

    fn has(c: u8) -> bool {
        c.is_ascii_alphanumeric()
    }
}

/// Digits.
pub(crate) struct Digit;

impl Class for Digit {
    ghost has = { is_ascii_digit };

    fn has(c: u8) -> bool {
        c.is_ascii_digit()
    }
}

/// How many bytes of the class the text begins with.
pub(crate) fn run<C: Class>(text: &[u8]) -> usize
    ensures count { result ≡ prefix_len C.has text.now }
    ensures within { result ≤ length text.now }
{
    for (place, c) in text.iter().enumerate() {
        if !C::has(*c) {
            return place;
        }
    }
    text.len()
}

/// Whether each byte is of the class.
pub(crate) fn is_all<C: Class>(text: &[u8]) -> bool
    ensures { result ≡ list_all C.has text.now }
{
    for c in text {
        if !C::has(*c) {
            return false;
        }
    }
    true
}
