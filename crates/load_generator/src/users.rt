//! The banks, PSPs, accounts and addresses of a load.
//!
//! At an `Err` a part may be appended: callers write into a buffer of their own.
ghost use Rattle.std.specs.Prelude.{◌≡◌, ◌<◌, ◌++◌, OnOk};
ghost use Rattle.load_generator.specs.Users;

use upi_base::{NoMemory, write_number};

/// Appends bytes.
pub(crate) fn push(text: &[u8], out: &mut Vec<u8>) -> Result<(), NoMemory>
    ensures { OnOk result (out.new.items ≡ out.old.items ++ text.now) }
{
    out.extend_from_slice(text)?;
    Ok(())
}

/// The bank of a number.
#[tactic(auto, unfolding(crate::specs::Users::bank_name))]
fn bank_name(i: u32) -> &'static [u8]
    ensures { result.now ≡ Users.bank_name i }
{
    if i % 4 == 0 {
        b"AAAA"
    } else if i % 4 == 1 {
        b"BBBB"
    } else if i % 4 == 2 {
        b"CCCC"
    } else {
        b"DDDD"
    }
}

/// The PSP of a number.
#[tactic(auto, unfolding(crate::specs::Users::psp_name))]
pub(crate) fn psp_name(i: u32) -> &'static [u8]
    ensures { result.now ≡ Users.psp_name i }
{
    if i % 4 == 0 {
        b"alpha"
    } else if i % 4 == 1 {
        b"beta"
    } else if i % 4 == 2 {
        b"gamma"
    } else {
        b"delta"
    }
}

/// Appends the account of a user.
#[tactic(auto, unfolding(crate::specs::Users::account_name))]
fn push_account(i: u32, out: &mut Vec<u8>) -> Result<(), NoMemory>
    requires { i < 40 }
    ensures { OnOk result (out.new.items ≡ out.old.items ++ Users.account_name i) }
{
    push(bank_name(i), out)?;
    push(b"/", out)?;
    write_number(u64::from(i) + 1, out)
}

/// Appends the address of a user.
#[tactic(auto, unfolding(crate::specs::Users::address))]
pub(crate) fn push_address(i: u32, out: &mut Vec<u8>) -> Result<(), NoMemory>
    requires { i < 40 }
    ensures { OnOk result (out.new.items ≡ out.old.items ++ Users.address i) }
{
    push(b"u", out)?;
    write_number(u64::from(i) + 1, out)?;
    push(b"@", out)?;
    push(psp_name(i), out)
}

/// Appends the line of a user's account.
#[tactic(auto, unfolding(crate::specs::Users::account_line))]
fn push_account_line(i: u32, out: &mut Vec<u8>) -> Result<(), NoMemory>
    requires { i < 40 }
    ensures { OnOk result (out.new.items ≡ out.old.items ++ Users.account_line i) }
{
    push(b"ACCOUNT ", out)?;
    push_account(i, out)?;
    push(b" 1000.00", out)?;
    push(if i == 7 { b" NOCREDIT" } else { b"" }, out)
}

/// Appends the line of a user's address.
#[tactic(auto, unfolding(crate::specs::Users::address_line))]
fn push_address_line(i: u32, out: &mut Vec<u8>) -> Result<(), NoMemory>
    requires { i < 40 }
    ensures { OnOk result (out.new.items ≡ out.old.items ++ Users.address_line i) }
{
    push(b"ADDR ", out)?;
    push_address(i, out)?;
    push(b" ", out)?;
    push_account(i, out)?;
    push(if i % 10 == 9 { b" NO" } else { b" YES" }, out)
}

/// Appends a line of the setup, which is counted from 0, without a line end: START, four banks, four PSPs,
/// forty accounts, forty addresses, and OPEN. It fails only for want of memory, and a part may then be
/// appended.
#[tactic(auto, unfolding(crate::specs::Users::setup_line))]
pub fn push_setup_line(k: u32, out: &mut Vec<u8>) -> Result<(), NoMemory>
    ensures { OnOk result (out.new.items ≡ out.old.items ++ Users.setup_line k) }
{
    match k {
        0 => push(b"START 2024-01-01T05:30:00+05:30", out),
        1..=4 => {
            push(b"BANK ", out)?;
            push(bank_name(k - 1), out)
        }
        5..=8 => {
            push(b"PSP ", out)?;
            push(psp_name(k - 5), out)
        }
        9..=48 => push_account_line(k - 9, out),
        49..=88 => push_address_line(k - 49, out),
        _ => push(b"OPEN", out),
    }
}
