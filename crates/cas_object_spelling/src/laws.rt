//! Laws of the definitions, each the contract of a function without effect.

ghost use Rattle.std.specs.Prelude.{◌≡◌, ◌+◌, ◌<◌, ◌^◌, ℕ, List, Ok, length};
ghost use Rattle.cas_asm.specs.declared.line.AsmFun.{AsmFun};
ghost use Rattle.cas_asm.specs.declared.line.Line.{Line};
ghost use Rattle.cas_base.specs.declared.decl.Unit.{Unit as Module};
ghost use Rattle.cas_object.specs.Texts.{read};
ghost use Rattle.cas_pieces.specs.Pieces.{pieces};
ghost use Rattle.cas_object_line.specs.Codes.{code_line};
ghost use Rattle.cas_object_line.specs.declared.code.CodeLine.TheVariants.{Code};
ghost use Rattle.cas_object_laws.specs.Formed.{line_text};
ghost use Rattle.cas_object_spelling.specs.Texts.{objects_text};

/// A line of a function that is read is printed as its text. So no two texts are read as the same line.
pub fn lines_have_one_text()
    ensures { (text : List ℕ) (l : Line) → code_line (pieces text) ≡ Ok (Code l) → text ≡ line_text l }
{}

/// A text that is read is printed of its objects.
pub fn texts_are_printed()
    ensures { (text : List ℕ) (units : List (Module AsmFun)) → length text + 1 < 2 ^ 64 → read text ≡ Ok units →
        text ≡ objects_text units }
{}

/// No two texts are read as the same objects.
pub fn objects_have_one_text()
    ensures { (text other : List ℕ) (units : List (Module AsmFun)) → length text + 1 < 2 ^ 64 →
        length other + 1 < 2 ^ 64 → read text ≡ Ok units → read other ≡ Ok units → text ≡ other }
{}
