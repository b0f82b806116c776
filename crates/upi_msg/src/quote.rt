//! JSON strings.
ghost use Rattle.std.specs.Prelude.{◌≡◌, ◌++◌, ◌<◌, OnOk};
ghost use Rattle.std.specs.Char.{digit_char};
ghost use Rattle.std.specs.List.{list_all};
ghost use Rattle.upi_msg.specs.Pieces.{is_bare};
ghost use Rattle.json.specs.Print.{escape_letter, escape_byte, escape, quoted};

use upi_base::NoMemory;

// The letter of the short escape of a byte, or 0.
fn escape_letter(c: u8) -> u8
    ensures { result ≡ escape_letter c }
{
    if c == b'"' || c == b'\\' {
        return c;
    }
    if c == 8 {
        return b'b';
    }
    if c == 12 {
        return b'f';
    }
    if c == b'\n' {
        return b'n';
    }
    if c == b'\r' {
        return b'r';
    }
    if c == b'\t' {
        return b't';
    }
    0
}

// The last digit of a byte in hexadecimal.
fn hex(digit: u8) -> u8
    requires { digit < 16 }
    ensures { result ≡ digit_char digit }
{
    if digit < 10 {
        b'0' + digit
    } else {
        b'a' - 10 + digit
    }
}

// Appends what stands in a string for a byte.
fn push_byte(out: &mut Vec<u8>, c: u8) -> Result<(), NoMemory>
    ensures { OnOk result (out.new.items ≡ out.old.items ++ escape_byte c) }
{
    let letter = escape_letter(c);
    if letter > 0 {
        out.extend_from_slice(&[b'\\', letter])?;
    } else if c < 32 {
        out.extend_from_slice(&[b'\\', b'u', b'0', b'0', hex(c / 16), hex(c % 16)])?;
    } else {
        out.push(c)?;
    }
    Ok(())
}

// Whether a byte stands in a string as it is.
#[tactic(auto, unfolding(crate::specs::Pieces::is_bare))]
fn is_bare(c: u8) -> bool
    ensures { result ≡ is_bare c }
{
    32 <= c && c != b'"' && c != b'\\'
}

// Whether each byte does.
fn are_bare(text: &[u8]) -> bool
    ensures { result ≡ list_all is_bare text.now }
{
    'bytes: for c in text {
        if !is_bare(*c) {
            return false;
        }
    }
    true
}

// Appends what stands in a string for these bytes, one by one.
fn push_each(out: &mut Vec<u8>, text: &[u8]) -> Result<(), NoMemory>
    ensures { OnOk result (out.new.items ≡ out.old.items ++ escape text.now) }
{
    for c in text {
        push_byte(out, *c)?;
    }
    Ok(())
}

/// Appends what stands in a string for these bytes.
#[tactic(auto, using(crate::proofs::Clear::escape_bare))]
pub(crate) fn push_escaped(out: &mut Vec<u8>, text: &[u8]) -> Result<(), NoMemory>
    ensures { OnOk result (out.new.items ≡ out.old.items ++ escape text.now) }
{
    if are_bare(text) {
        out.extend_from_slice(text)?;
        Ok(())
    } else {
        push_each(out, text)
    }
}

/// Appends the string of these bytes.
pub(crate) fn push_quoted(out: &mut Vec<u8>, text: &[u8]) -> Result<(), NoMemory>
    ensures { OnOk result (out.new.items ≡ out.old.items ++ quoted text.now) }
{
    out.push(b'"')?;
    push_escaped(out, text)?;
    out.push(b'"')?;
    Ok(())
}
