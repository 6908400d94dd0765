//! Laws of the definitions, as the contract of a function without effect.

ghost use Rattle.std.specs.Prelude.{◌≡◌, ◌⊎◌, List, ℕ};
ghost use Rattle.cas_base.specs.declared.place.Place.{Place};
ghost use Rattle.cas_lex.specs.declared.code.ReadCode.{ReadCode};
ghost use Rattle.cas_syntax.specs.Reading.{IsReadAs, HasReadFault};
ghost use Rattle.cas_syntax.specs.Tree.{ModuleTree};

/// Each text, of any length, is read as one module, or has one first fault, and never both.
pub fn texts_are_read_once()
    ensures either { (text : List ℕ) → ((m : ModuleTree) × IsReadAs text m)
        ⊎ ((code : ReadCode) × (p : Place) × HasReadFault text code p) }
    ensures one_module { (text : List ℕ) (m n : ModuleTree) → IsReadAs text m → IsReadAs text n → m ≡ n }
    ensures one_fault { (text : List ℕ) (c d : ReadCode) (p q : Place) → HasReadFault text c p → HasReadFault text d q
        → (c ≡ d) × (p ≡ q) }
    ensures not_both { (text : List ℕ) (m : ModuleTree) (c : ReadCode) (p : Place) → IsReadAs text m
        → ¬ (HasReadFault text c p) }
{}
