//! Promotion, the common type, and how words of a kind are read.

ghost use Rattle.std.specs.Prelude.{◌≡◌};
ghost use Rattle.cas_typed.specs.Types.{promoted, common, reading};

use cas_base::Kind;
use cas_typed::Signedness;

/// The kind that an integer of a kind is promoted to.
pub fn promoted_kind(kind: Kind) -> Kind
    ensures { result ≡ promoted kind }
{
    match kind {
        Kind::U32 => Kind::U32,
        Kind::I8 | Kind::U8 | Kind::I16 | Kind::U16 | Kind::I32 => Kind::I32,
    }
}

/// The common kind of two integers.
pub fn common_kind(left: Kind, right: Kind) -> Kind
    ensures { result ≡ common left right }
{
    match promoted_kind(left) {
        Kind::U32 => Kind::U32,
        _ => promoted_kind(right),
    }
}

/// How a word of the kind is read after promotion.
pub fn signedness(kind: Kind) -> Signedness
    ensures { result ≡ reading kind }
{
    match kind {
        Kind::U32 => Signedness::Unsigned,
        Kind::I8 | Kind::U8 | Kind::I16 | Kind::U16 | Kind::I32 => Signedness::Signed,
    }
}
