//! How words of messages are written.
ghost use Rattle.std.specs.Prelude.{◌≡◌};
ghost use Rattle.upi_msg.specs.Pieces;
ghost use Rattle.upi_msg.specs.Tree;

use upi_base::{Api, Kind, Ver};

/// How a `Head` ends behind its moment: the quotation mark that closes it, and the version.
pub(crate) fn ver_end(ver: Ver) -> &'static [u8]
    ensures { result.now ≡ Pieces.ver_end ver }
{
    match ver {
        Ver::One => b"\",\"ver\":\"1.0\"}",
        Ver::Two => b"\",\"ver\":\"2.0\"}",
    }
}

/// The word of a kind.
pub(crate) fn kind_text(kind: Kind) -> &'static [u8]
    ensures { result.now ≡ Tree.kind_text kind }
{
    match kind {
        Kind::Pay => b"PAY",
        Kind::Collect => b"COLLECT",
    }
}

/// The word of a yes or a no.
pub(crate) fn result_text(yes: bool) -> &'static [u8]
    ensures { result.now ≡ Tree.result_text yes }
{
    if yes { b"SUCCESS" } else { b"FAILURE" }
}

/// The root name of a message that a PSP may not send.
pub(crate) fn api_text(api: Api) -> &'static [u8]
    ensures { result.now ≡ Tree.api_text api }
{
    match api {
        Api::RespPay => b"RespPay",
        Api::ReqAuthDetails => b"ReqAuthDetails",
        Api::RespChkTxn => b"RespChkTxn",
        Api::ReqTxnConfirmation => b"ReqTxnConfirmation",
    }
}
