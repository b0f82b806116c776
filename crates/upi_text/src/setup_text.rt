//! The setup that lines of a script make, with the text that is written for them.
ghost use Rattle.std.specs.Prelude.{◌≡◌, ◌++◌, OnOk};
ghost use Rattle.upi_text.specs.SetupText.{flags_text, line_text, start_text, setup_text_of, step_of};

use crate::pieces::{policy_word, push, push_account, push_sum, push_word};
use crate::refusal::Refusal;
use crate::setup::{SetupRead, is_utf8, later_line, start_line};
use crate::words::is_skipped;
use std::alloc::Global;
use std::marker::Model;
use upi_base::{EngineFault, Moment, NoMemory, SetupLine};
use vpa_directory::Directory;

/// What a line of the setup did.
#[derive(Clone, Copy, Debug, PartialEq, Eq)]
pub enum SetupStep {
    /// More lines are to come.
    More,
    /// The line was OPEN: the setup has ended.
    Opened,
}

/// A setup that is read line by line. Contracts see the moment of START, the lines behind it, and
/// whether OPEN was read.
#[derive(Drop)]
pub struct SetupText {
    alloc: Global,
    // From START on.
    directory: Option<Directory>,
    is_open: bool,
}

impl Model for SetupText {
    ghost use Rattle.upi_text.specs.Setup.{SetupState};
    ghost use Rattle.upi_text.specs.calls.Kept.{state_of, IsKept};

    ghost Value = { SetupState };

    ghost view = { λ s. state_of s.directory s.is_open };

    ghost invariant = { λ s. IsKept s.directory s.is_open };
}

impl SetupText {
    ghost use Rattle.std.specs.Prelude.{◌≡◌, ◌++◌, Some, IfOk, OnOk, OnErr, true, false};
    ghost use Rattle.upi_base.specs.Setup.{is_setup};
    ghost use Rattle.upi_text.specs.Setup.{unread, setup_read, state_after, MayFollow, IsPlaced};
    ghost use Rattle.upi_text.specs.SetupText.{setup_text_of, SetupAnswer};
    ghost use Rattle.upi_text.specs.declared.setup.SetupRead.TheVariants as read;

    /// No lines yet. `alloc` serves the lines that are kept.
    pub fn new(alloc: Global) -> SetupText
        ensures { result ≡ unread }
    {
        SetupText {
            alloc,
            directory: None,
            is_open: false,
        }
    }

    /// Whether OPEN was read.
    pub fn is_open(&self) -> bool
        ensures { result ≡ self.now.is_open }
    {
        self.is_open
    }

    /// The setup that was read, with its tables. Condition: OPEN was read. It takes no memory.
    pub fn into_directory(self) -> Directory
        requires { self.is_open ≡ true }
        ensures read { self ≡ record { start = Some result.start; lines = result.lines; is_open = true } }
        ensures accepted { is_setup result.lines ≡ true }
    {
        self.directory.unwrap()
    }

    // What a line says behind those that were taken, or the first reason for which it is refused.
    #[tactic(auto, using(crate::proofs::Kept::kept_lines))]
    fn read(&self, line: &[u8]) -> Result<SetupRead, Refusal>
        ensures read { result ≡ setup_read self.now line.now }
        ensures follows { IfOk result (λ r. MayFollow self.now.lines r) }
        ensures accepted { is_setup self.now.lines ≡ true }
    {
        let _is_open = self.is_open;
        if is_skipped(line) {
            return Ok(SetupRead::Skipped);
        }
        if !is_utf8(line) {
            return Err(Refusal::not_utf8());
        }
        match &self.directory {
            None => start_line(line),
            Some(directory) => later_line(directory, line),
        }
    }

    // Keeps a line that is accepted. Condition: START was read.
    fn keep(&mut self, line: SetupLine) -> Result<(), NoMemory>
        requires follows { MayFollow self.old.lines (read.Line line) }
        requires placed { IsPlaced self.old.start (read.Line line) }
        ensures ok { OnOk result (self.new ≡ state_after self.old (read.Line line)) }
        ensures err { OnErr result (self.new ≡ self.old) }
        ensures accepted { is_setup self.new.lines ≡ true }
    {
        let Some(directory) = &mut self.directory else {
            unreachable!();
        };
        directory.push(line)?;
        Ok(())
    }

    // Keeps what a line says.
    #[tactic(auto, using(crate::proofs::Kept::kept_lines))]
    fn note(&mut self, read: SetupRead) -> Result<(), NoMemory>
        requires follows { MayFollow self.old.lines read }
        requires placed { IsPlaced self.old.start read }
        ensures ok { OnOk result (self.new ≡ state_after self.old read) }
        ensures err { OnErr result (self.new ≡ self.old) }
        ensures accepted { is_setup self.new.lines ≡ true }
    {
        let _is_open = self.is_open;
        match read {
            SetupRead::Skipped => Ok(()),
            SetupRead::Start(start) => {
                self.directory = Some(Directory::new(self.alloc, start));
                Ok(())
            }
            SetupRead::Line(line) => self.keep(line),
            SetupRead::Open => {
                self.is_open = true;
                Ok(())
            }
        }
    }

    // Keeps what a line says, and appends its one form. At want of memory nothing changes.
    fn take(&mut self, read: SetupRead, out: &mut Vec<u8>) -> Result<(), NoMemory>
        requires follows { MayFollow self.old.lines read }
        requires placed { IsPlaced self.old.start read }
        ensures ok { OnOk result ((self.new ≡ state_after self.old read) × (out.new.items ≡ out.old.items ++ setup_text_of read)) }
        ensures err { OnErr result ((self.new ≡ self.old) × (out.new.items ≡ out.old.items)) }
        ensures accepted { is_setup self.new.lines ≡ true }
    {
        let mut text = Vec::new(self.alloc);
        push_read(&read, &mut text)?;
        out.reserve(text.len())?;
        self.note(read)?;
        out.extend_from_slice(&text)?;
        Ok(())
    }

    /// Reads a line, which comes without its line end, and appends its one form: START at
    /// `+05:30`, sums with two decimals, a line feed at the end; nothing for a line that is passed
    /// over. Condition: OPEN wasn't read.
    ///
    /// A line outside the grammar is `Bad` with the first reason: that it isn't UTF-8, its first
    /// word, the number of its words, the first word outside its grammar, and what the setup says
    /// of it. A refusal changes nothing, and want of memory neither.
    pub fn line(&mut self, line: &[u8], out: &mut Vec<u8>) -> Result<SetupStep, EngineFault>
        requires { self.old.is_open ≡ false }
        ensures answer { SetupAnswer self.old line.now out.old.items out.new.items self.new result }
        ensures accepted { is_setup self.new.lines ≡ true }
    {
        let read = self.read(line)?;
        let step = step_of(&read);
        self.take(read, out)?;
        Ok(step)
    }
}

// Whether the line is OPEN, or more is to come.
fn step_of(read: &SetupRead) -> SetupStep
    ensures { result ≡ step_of read.now }
{
    match read {
        SetupRead::Open => SetupStep::Opened,
        SetupRead::Skipped | SetupRead::Start(_) | SetupRead::Line(_) => SetupStep::More,
    }
}

fn push_flags(no_debit: bool, no_credit: bool, out: &mut Vec<u8>) -> Result<(), NoMemory>
    ensures { OnOk result (out.new.items ≡ out.old.items ++ flags_text no_debit no_credit) }
{
    if no_debit {
        push(b" NODEBIT", out)?;
    }
    if no_credit {
        push(b" NOCREDIT", out)?;
    }
    Ok(())
}

// Appends a line without its line feed.
fn push_line(line: &SetupLine, out: &mut Vec<u8>) -> Result<(), NoMemory>
    ensures { OnOk result (out.new.items ≡ out.old.items ++ line_text line.now) }
{
    match line {
        SetupLine::Bank(code) => {
            push(b"BANK", out)?;
            push_word(code.bytes(), out)
        }
        SetupLine::Psp(name) => {
            push(b"PSP", out)?;
            push_word(name.bytes(), out)
        }
        SetupLine::Account {
            ac,
            opening,
            no_debit,
            no_credit,
        } => {
            push(b"ACCOUNT", out)?;
            push_account(ac, out)?;
            push_sum(*opening, out)?;
            push_flags(*no_debit, *no_credit, out)
        }
        SetupLine::Address { addr, ac, policy } => {
            push(b"ADDR", out)?;
            push_word(addr.bytes(), out)?;
            push_account(ac, out)?;
            push_word(policy_word(*policy), out)
        }
    }
}

// Appends the line of START without its line feed.
fn push_start(start: Moment, out: &mut Vec<u8>) -> Result<(), NoMemory>
    ensures { OnOk result (out.new.items ≡ out.old.items ++ start_text start) }
{
    push(b"START ", out)?;
    start.write(out)
}

// Appends what is written for a line.
fn push_read(read: &SetupRead, out: &mut Vec<u8>) -> Result<(), NoMemory>
    ensures { OnOk result (out.new.items ≡ out.old.items ++ setup_text_of read.now) }
{
    match read {
        SetupRead::Skipped => Ok(()),
        SetupRead::Start(start) => {
            push_start(*start, out)?;
            push(b"\n", out)
        }
        SetupRead::Line(line) => {
            push_line(line, out)?;
            push(b"\n", out)
        }
        SetupRead::Open => push(b"OPEN\n", out),
    }
}
