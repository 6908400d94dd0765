//! Laws of the definitions, each the contract of a function without effect.

ghost use Rattle.std.specs.Prelude.{◌≡◌, ◌≤◌, ℕ, List, Ok, length};
ghost use Rattle.cas_asm.specs.declared.line.AsmFun.{AsmFun};
ghost use Rattle.cas_asm.specs.declared.line.Line.{Line};
ghost use Rattle.cas_base.specs.declared.decl.Unit.{Unit as Module};
ghost use Rattle.cas_object.specs.Texts.{read};
ghost use Rattle.cas_pieces.specs.Pieces.{pieces};
ghost use Rattle.cas_object_line.specs.Codes.{code_line};
ghost use Rattle.cas_object_line.specs.declared.code.CodeLine.TheVariants.{Code};
ghost use Rattle.cas_object_laws.specs.Counts.{AreSmall};
ghost use Rattle.cas_object_text.specs.Values.{AreWhole};
ghost use Rattle.cas_object_laws.specs.Formed.{IsFormed, line_text};

/// What is printed of a line of a function is read as that line.
pub fn lines_are_read_back()
    ensures { (l : Line) → IsFormed l → code_line (pieces (line_text l)) ≡ Ok (Code l) }
{}

/// The data and functions of an object that is read are its defined declarations in their order, and a global that is
/// no lock has one value for each of its words.
pub fn objects_are_whole()
    ensures { (text : List ℕ) (units : List (Module AsmFun)) → read text ≡ Ok units → AreWhole units }
{}

/// An object that is read has at most 1,024 functions, and a text has no more objects than bytes.
pub fn objects_are_few()
    ensures { (text : List ℕ) (units : List (Module AsmFun)) → read text ≡ Ok units →
        AreSmall units × (length units ≤ length text) }
{}
