//! How a verdict is written.
ghost use Rattle.std.specs.Prelude.{◌≡◌, ◌++◌, OnOk};
ghost use Rattle.upi_audit.specs.Written;

use upi_base::{NoMemory, Verdict, write_number};
use upi_io::audit_why_name;

/// Appends the line of a verdict, with its line feed: `YES entries` or `NO entry WHY`. At want of
/// memory a part may be appended.
pub fn write_verdict(verdict: Verdict, out: &mut Vec<u8>) -> Result<(), NoMemory>
    ensures { OnOk result (out.new.items ≡ out.old.items ++ Written.verdict_text verdict) }
{
    match verdict {
        Verdict::Yes { entries } => {
            out.extend_from_slice(b"YES ")?;
            write_number(entries, out)?;
            out.push(b'\n')?;
            Ok(())
        }
        Verdict::No { entry, why } => {
            out.extend_from_slice(b"NO ")?;
            write_number(entry, out)?;
            out.push(b' ')?;
            out.extend_from_slice(audit_why_name(why))?;
            out.push(b'\n')?;
            Ok(())
        }
    }
}
