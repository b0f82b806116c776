//! How a top call ends.
ghost use Rattle.std.specs.Prelude.{◌≡◌, ◌++◌, OnOk, OnErr};
ghost use Rattle.upi_io.specs.Status.{why_name, audit_why_name, status_code, status_text, bad_line_text, long_line_text, audit_no_text};

use itoa::Buffer;
use upi_base::{AuditWhy, NoMemory, Why};

/// How a top call ends.
#[derive(Clone, Copy, Debug, PartialEq, Eq)]
pub enum Status {
    /// All was done.
    Done,
    /// The words are no command.
    Usage,
    /// A line is outside the grammar.
    BadLine {
        /// The number of the line. The first line is line 1.
        line: u64,
        /// The number of the word in it, the first word being 1; 0 stands for the whole line.
        field: u32,
        /// What is wrong with it.
        why: Why,
    },
    /// A line is too long.
    TooLong {
        /// The number of the line.
        line: u64,
    },
    /// The source failed.
    ReadFault,
    /// The sink failed.
    WriteFault,
    /// There was no memory.
    NoMemory,
    /// A journal isn't right.
    AuditNo {
        /// The place of its first wrong entry, counted from 1; the count of entries where there is no
        /// Close; or the number of the first wrong line of its report.
        entry: u64,
        /// What is wrong there first.
        why: AuditWhy,
    },
}

impl Status {
    /// The exit code of a program that ends so.
    pub fn code(&self) -> u8
        ensures { result ≡ status_code self.now }
    {
        match self {
            Status::Done => 0,
            Status::Usage => 2,
            Status::BadLine {
                line: _line,
                field: _field,
                why: _why,
            } => 3,
            Status::TooLong { line: _line } => 3,
            Status::ReadFault => 4,
            Status::WriteFault => 5,
            Status::NoMemory => 6,
            Status::AuditNo {
                entry: _entry,
                why: _why,
            } => 7,
        }
    }

    /// Appends the line that a program prints on standard error, with its LF. `Done` has none.
    ///
    /// Where there is no memory for it, nothing is appended.
    pub fn write_line(&self, out: &mut Vec<u8>) -> Result<(), NoMemory>
        ensures ok { OnOk result (out.new.items ≡ out.old.items ++ status_text self.now) }
        ensures err { OnErr result (out.new.items ≡ out.old.items) }
    {
        match self {
            Status::Done => Ok(()),
            Status::Usage => push(out, b"upi: usage\n"),
            Status::BadLine { line, field, why } => push_bad_line(out, *line, *field, *why),
            Status::TooLong { line } => push_long_line(out, *line),
            Status::ReadFault => push(out, b"upi: read fault\n"),
            Status::WriteFault => push(out, b"upi: write fault\n"),
            Status::NoMemory => push(out, b"upi: no memory\n"),
            Status::AuditNo { entry, why } => push_audit_no(out, *entry, *why),
        }
    }
}

// The name of a reason, in capitals.
fn why_name(why: Why) -> &'static [u8]
    ensures { result.now ≡ why_name why }
{
    match why {
        Why::Utf8 => b"UTF8",
        Why::Word => b"WORD",
        Why::Fields => b"FIELDS",
        Why::Value => b"VALUE",
        Why::Twice => b"TWICE",
        Why::NoBank => b"NOBANK",
        Why::NoPsp => b"NOPSP",
        Why::NoAccount => b"NOACCOUNT",
        Why::Limit => b"LIMIT",
        Why::End => b"END",
    }
}

/// The name of what is wrong with a journal, in capitals.
pub fn audit_why_name(why: AuditWhy) -> &'static [u8]
    ensures { result.now ≡ audit_why_name why }
{
    match why {
        AuditWhy::Call => b"CALL",
        AuditWhy::Reply => b"REPLY",
        AuditWhy::Sent => b"SENT",
        AuditWhy::NoClose => b"NOCLOSE",
        AuditWhy::Report => b"REPORT",
    }
}

// Appends bytes.
fn push(out: &mut Vec<u8>, bytes: &[u8]) -> Result<(), NoMemory>
    ensures ok { OnOk result (out.new.items ≡ out.old.items ++ bytes.now) }
    ensures err { OnErr result (out.new.items ≡ out.old.items) }
{
    out.extend_from_slice(bytes)?;
    Ok(())
}

// Appends the line of a bad line.
fn push_bad_line(out: &mut Vec<u8>, line: u64, field: u32, why: Why) -> Result<(), NoMemory>
    ensures ok { OnOk result (out.new.items ≡ out.old.items ++ bad_line_text line field why) }
    ensures err { OnErr result (out.new.items ≡ out.old.items) }
{
    let mut line_digits = Buffer::new();
    let line = line_digits.format(line).as_bytes();
    let mut field_digits = Buffer::new();
    let field = field_digits.format(field).as_bytes();
    let why = why_name(why);
    out.reserve(20 + line.len() + field.len() + why.len())?;
    out.extend_from_slice(b"upi: line ")?;
    out.extend_from_slice(line)?;
    out.extend_from_slice(b": word ")?;
    out.extend_from_slice(field)?;
    out.extend_from_slice(b": ")?;
    out.extend_from_slice(why)?;
    out.extend_from_slice(b"\n")?;
    Ok(())
}

// Appends the line of a line that is too long.
fn push_long_line(out: &mut Vec<u8>, line: u64) -> Result<(), NoMemory>
    ensures ok { OnOk result (out.new.items ≡ out.old.items ++ long_line_text line) }
    ensures err { OnErr result (out.new.items ≡ out.old.items) }
{
    let mut digits = Buffer::new();
    let line = digits.format(line).as_bytes();
    out.reserve(21 + line.len())?;
    out.extend_from_slice(b"upi: line ")?;
    out.extend_from_slice(line)?;
    out.extend_from_slice(b": too long\n")?;
    Ok(())
}

// Appends the line of a journal that isn't right.
fn push_audit_no(out: &mut Vec<u8>, entry: u64, why: AuditWhy) -> Result<(), NoMemory>
    ensures ok { OnOk result (out.new.items ≡ out.old.items ++ audit_no_text entry why) }
    ensures err { OnErr result (out.new.items ≡ out.old.items) }
{
    let mut digits = Buffer::new();
    let entry = digits.format(entry).as_bytes();
    let why = audit_why_name(why);
    out.reserve(21 + entry.len() + why.len())?;
    out.extend_from_slice(b"upi: audit: entry ")?;
    out.extend_from_slice(entry)?;
    out.extend_from_slice(b": ")?;
    out.extend_from_slice(why)?;
    out.extend_from_slice(b"\n")?;
    Ok(())
}
