//! The kinds of statements.

ghost use Rattle.std.specs.Prelude.{◌≡◌, Option};
ghost use Rattle.nys_wire.specs.Reading.{kind_named};

use nys_stmt::FilledKind;

/// The kind of a statement, without what it says.
#[derive(Clone, Copy, Debug, PartialEq, Eq)]
pub enum Kind {
    Filled(FilledKind),
    Attest,
    Ask,
    Wedge,
    Frozen,
    Open,
}

/// The kind that a byte names.
pub fn kind_of(byte: u8) -> Option<Kind>
    ensures { result ≡ kind_named byte }
{
    match byte {
        0x01 => Some(Kind::Filled(FilledKind::Offer)),
        0x02 => Some(Kind::Filled(FilledKind::Order)),
        0x03 => Some(Kind::Filled(FilledKind::Deliver)),
        0x04 => Some(Kind::Attest),
        0x05 => Some(Kind::Ask),
        0x06 => Some(Kind::Wedge),
        0x07 => Some(Kind::Filled(FilledKind::Report)),
        0x08 => Some(Kind::Frozen),
        0x09 => Some(Kind::Open),
        0x0a => Some(Kind::Filled(FilledKind::Inherit)),
        _ => None,
    }
}
