//! A generated payment, and the SEND line that asks for it.
ghost use Rattle.std.specs.Prelude.{◌≡◌, ◌<◌, ◌≤◌, ◌++◌, OnOk};
ghost use Rattle.load_generator.specs.Payments;

use crate::draws::Draws;
use crate::users::{psp_name, push, push_address};
use upi_base::{NoMemory, write_total};

/// A payment from one of the forty users, who are counted from 0, to another.
#[derive(Clone, Copy, Debug, PartialEq, Eq)]
pub(crate) struct Payment {
    /// Who pays.
    pub(crate) payer: u32,
    /// Who is paid.
    pub(crate) payee: u32,
    /// The amount in paise.
    pub(crate) amount: u32,
    /// Whether the payee's PSP asks.
    pub(crate) is_collect: bool,
}

/// A payee who isn't the payer.
fn payee_from(payer: u32, b: u32) -> u32
    requires payer { payer < 40 }
    ensures value { result ≡ Payments.payee_from payer b }
    ensures bound { result < 40 }
{
    (payer + 1 + b % 39) % 40
}

impl Payment {
    /// Draws a payment.
    #[tactic(auto, unfolding(crate::specs::Payments::payment_from, crate::specs::Payments::state_after))]
    pub(crate) fn draw(draws: &mut Draws) -> Payment
        ensures drawn { result ≡ Payments.payment_from draws.old }
        ensures state { draws.new ≡ Payments.state_after draws.old }
        ensures users { (result.payer < 40) × (result.payee < 40) }
    {
        let payer = draws.next() % 40;
        let payee = payee_from(payer, draws.next());
        let amount = 1 + draws.next() % 20_000;
        let is_collect = draws.next() % 4 == 0;
        Payment {
            payer,
            payee,
            amount,
            is_collect,
        }
    }

    /// The PSP of the side that asks.
    fn asking(self) -> &'static [u8]
        ensures { result.now ≡ Payments.asking self }
    {
        psp_name(if self.is_collect {
            self.payee
        } else {
            self.payer
        })
    }
}

/// The digit of a number at a place with this weight.
fn digit_at(weight: u32, n: u32) -> u8
    requires { 0 < weight }
    ensures { result ≡ Payments.digit_at weight n }
{
    b'0' + (n / weight % 10) as u8
}

/// A number in six digits.
#[tactic(auto, unfolding(crate::specs::Payments::six_digits))]
fn six_digits(n: u32) -> [u8; 6]
    ensures { result ≡ Payments.six_digits n }
{
    [
        digit_at(100_000, n),
        digit_at(10_000, n),
        digit_at(1000, n),
        digit_at(100, n),
        digit_at(10, n),
        digit_at(1, n),
    ]
}

/// The type of a payment.
fn type_word(is_collect: bool) -> &'static [u8]
    ensures { result.now ≡ Payments.type_word is_collect }
{
    if is_collect { b"COLLECT" } else { b"PAY" }
}

/// How a message begins.
#[tactic(auto, unfolding(crate::specs::Payments::head_front))]
fn head_front() -> &'static [u8]
    ensures { result.now ≡ Payments.head_front }
{
    b"{\"ReqPay\":{\"Head\":{\"msgId\":\"G"
}

/// What stands before the payee's address.
#[tactic(auto, unfolding(crate::specs::Payments::payee_front))]
fn payee_front() -> &'static [u8]
    ensures { result.now ≡ Payments.payee_front }
{
    b",\"Payees\":{\"Payee\":[{\"addr\":\""
}

/// What stands before the amount.
#[tactic(auto, unfolding(crate::specs::Payments::amount_front))]
fn amount_front() -> &'static [u8]
    ensures { result.now ≡ Payments.amount_front }
{
    b",\"Payer\":{\"Amount\":{\"curr\":\"INR\",\"value\":\""
}

/// Appends the name of a message.
#[tactic(auto, unfolding(crate::specs::Payments::head_name))]
fn push_head_name(j: u32, out: &mut Vec<u8>) -> Result<(), NoMemory>
    ensures { OnOk result (out.new.items ≡ out.old.items ++ Payments.head_name j) }
{
    push(head_front(), out)?;
    push(&six_digits(j), out)
}

/// Appends the rest of its head.
#[tactic(auto, unfolding(crate::specs::Payments::head_rest))]
fn push_head_rest(psp: &[u8], out: &mut Vec<u8>) -> Result<(), NoMemory>
    ensures { OnOk result (out.new.items ≡ out.old.items ++ Payments.head_rest psp.now) }
{
    push(b"\",\"orgId\":\"", out)?;
    push(psp, out)?;
    push(
        b"\",\"ts\":\"2024-01-01T05:30:00+05:30\",\"ver\":\"1.0\"}",
        out,
    )
}

/// Appends the payee.
#[tactic(auto, unfolding(crate::specs::Payments::payee_text))]
fn push_payee(payee: u32, out: &mut Vec<u8>) -> Result<(), NoMemory>
    requires { payee < 40 }
    ensures { OnOk result (out.new.items ≡ out.old.items ++ Payments.payee_text payee) }
{
    push(payee_front(), out)?;
    push_address(payee, out)?;
    push(b"\"}]}", out)
}

/// Appends the amount.
#[tactic(auto, unfolding(crate::specs::Payments::amount_text))]
fn push_amount(amount: u32, out: &mut Vec<u8>) -> Result<(), NoMemory>
    ensures { OnOk result (out.new.items ≡ out.old.items ++ Payments.amount_text amount) }
{
    push(amount_front(), out)?;
    write_total(u128::from(amount), out)?;
    push(b"\"}", out)
}

/// Appends the payer.
#[tactic(auto, unfolding(crate::specs::Payments::payer_text))]
fn push_payer(payer: u32, out: &mut Vec<u8>) -> Result<(), NoMemory>
    requires { payer < 40 }
    ensures { OnOk result (out.new.items ≡ out.old.items ++ Payments.payer_text payer) }
{
    push(b",\"addr\":\"", out)?;
    push_address(payer, out)?;
    push(b"\"}", out)
}

/// Appends the name of the payment.
#[tactic(auto, unfolding(crate::specs::Payments::name_text))]
fn push_name(j: u32, out: &mut Vec<u8>) -> Result<(), NoMemory>
    ensures { OnOk result (out.new.items ≡ out.old.items ++ Payments.name_text j) }
{
    push(b",\"Txn\":{\"id\":\"L", out)?;
    push(&six_digits(j), out)
}

/// Appends the type of the payment, and the end of its message.
#[tactic(auto, unfolding(crate::specs::Payments::type_text))]
fn push_type(is_collect: bool, out: &mut Vec<u8>) -> Result<(), NoMemory>
    ensures { OnOk result (out.new.items ≡ out.old.items ++ Payments.type_text is_collect) }
{
    push(b"\",\"type\":\"", out)?;
    push(type_word(is_collect), out)?;
    push(b"\"}}}", out)
}

/// Appends the message that asks for the payment of a number.
#[tactic(auto, unfolding(crate::specs::Payments::message_text))]
fn push_message(j: u32, payment: Payment, out: &mut Vec<u8>) -> Result<(), NoMemory>
    requires { (payment.payer < 40) × (payment.payee < 40) }
    ensures { OnOk result (out.new.items ≡ out.old.items ++ Payments.message_text j payment) }
{
    push_head_name(j, out)?;
    push_head_rest(payment.asking(), out)?;
    push_payee(payment.payee, out)?;
    push_amount(payment.amount, out)?;
    push_payer(payment.payer, out)?;
    push_name(j, out)?;
    push_type(payment.is_collect, out)
}

/// Appends the line in which the asking PSP sends the payment of a number.
#[tactic(auto, unfolding(crate::specs::Payments::send_line))]
pub(crate) fn push_send(j: u32, payment: Payment, out: &mut Vec<u8>) -> Result<(), NoMemory>
    requires { (payment.payer < 40) × (payment.payee < 40) }
    ensures { OnOk result (out.new.items ≡ out.old.items ++ Payments.send_line j payment) }
{
    push(b"SEND ", out)?;
    push(payment.asking(), out)?;
    push(b" ", out)?;
    push_message(j, payment, out)
}
