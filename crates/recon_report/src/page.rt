//! A page of comma-separated values, six fields a line.
ghost use Rattle.std.specs.Prelude.{◌≡◌, [], ◌∷◌, IfOk, OnOk};
ghost use Rattle.recon_report.specs.Report.{header};
ghost use Rattle.recon_report.specs.calls.Pages.{Adds, IsAtLine, amount_text, text_of};

use csv::Writer;
use std::alloc::Global;
use upi_base::{NoMemory, Paise, write_sum, write_total};

/// An amount, as the fifth field of a line.
pub(crate) enum Amount {
    /// What a transaction pays.
    Paise(Paise),
    /// A sum of any size, in paise.
    Total(u128),
    /// A sum with its sign, in paise.
    Net(i128),
}

/// Lines that were written. After an `Err` it isn't to be used any more.
#[derive(Drop)]
pub(crate) struct Page {
    writer: Writer<Vec<u8>>,
    // The amount of the line that is written; its memory is used again from line to line.
    amount: Vec<u8>,
}

// Adds a line. The texts have one lifetime, since they stand together in an array.
#[tactic(auto, unfolding(crate::specs::Report::line_text))]
fn write_line<'a>(
    out: &mut Writer<Vec<u8>>,
    kind: &'a [u8],
    id: &'a [u8],
    bank: &'a [u8],
    detail: &'a [u8],
    amount: &'a [u8],
    code: &'a [u8],
) -> Result<(), NoMemory>
    requires { IsAtLine out.old }
    ensures { OnOk result (Adds out.old out.new (record { kind = kind.now; id = id.now; bank = bank.now; detail = detail.now; amount = amount.now; code = code.now } ∷ [])) }
{
    match out.write_fields(&[kind, id, bank, detail, amount, code]) {
        Ok(()) => Ok(()),
        Err(_) => Err(NoMemory),
    }
}

impl Page {
    /// An empty page.
    pub(crate) fn new(alloc: Global) -> Page
        ensures at_line { IsAtLine result.writer }
        ensures empty { text_of result.writer ≡ [] }
    {
        Page {
            writer: Writer::from_writer(Vec::new(alloc)),
            amount: Vec::new(alloc),
        }
    }

    // Writes an amount in place of the one before.
    fn set_amount(&mut self, amount: Amount) -> Result<(), NoMemory>
        ensures amount { OnOk result (self.new.amount.items ≡ amount_text amount) }
        ensures same { self.new.writer ≡ self.old.writer }
    {
        self.amount.clear();
        match amount {
            Amount::Paise(sum) => sum.write(&mut self.amount),
            Amount::Total(sum) => write_total(sum, &mut self.amount),
            Amount::Net(sum) => write_sum(sum, &mut self.amount),
        }
    }

    /// Adds the names of the fields.
    pub(crate) fn header(&mut self) -> Result<(), NoMemory>
        requires { IsAtLine self.old.writer }
        ensures { OnOk result (Adds self.old.writer self.new.writer (header ∷ [])) }
    {
        write_line(
            &mut self.writer,
            b"row",
            b"id",
            b"bank",
            b"detail",
            b"amount",
            b"code",
        )
    }

    /// Adds a line.
    pub(crate) fn line(
        &mut self,
        kind: &[u8],
        id: &[u8],
        bank: &[u8],
        detail: &[u8],
        amount: Amount,
        code: &[u8],
    ) -> Result<(), NoMemory>
        requires { IsAtLine self.old.writer }
        ensures { OnOk result (Adds self.old.writer self.new.writer (record { kind = kind.now; id = id.now; bank = bank.now; detail = detail.now; amount = amount_text amount; code = code.now } ∷ [])) }
    {
        self.set_amount(amount)?;
        write_line(&mut self.writer, kind, id, bank, detail, &self.amount, code)
    }

    /// What was written.
    pub(crate) fn finish(self) -> Result<Vec<u8>, NoMemory>
        ensures { IfOk result (λ text. text.items ≡ text_of self.writer) }
    {
        let Page { writer, amount: _ } = self;
        match writer.into_inner() {
            Ok(text) => Ok(text),
            Err(_) => Err(NoMemory),
        }
    }
}
