//! Objects.

ghost use Rattle.std.specs.Prelude.{IsTrue};
ghost use Rattle.cas_object_text.specs.Labels.{are_labelled};

use cas_asm::AsmFun;
use cas_base::Unit;

/// A compiled module: its declarations, its data with values, and its functions as instructions. In each function no
/// label is set twice, and each label that a jump uses is set.
#[derive(Debug, Drop)]
pub struct Object {
    /// The module.
    pub unit: Unit<AsmFun>,
    pub ghost labelled: { IsTrue (are_labelled unit) },
}
