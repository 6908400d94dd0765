//! Laws of the definitions, each the contract of a function without effect.

ghost use Rattle.std.specs.Prelude.{◌≡◌, ◌<◌, ◌^◌, ℕ, List, IsTrue, Some};
ghost use Rattle.std.specs.Fmt.{decimal};
ghost use Rattle.cas_pieces.specs.declared.piece.Piece.{Piece};
ghost use Rattle.cas_pieces.specs.Pieces.{pieces, text, AreProper};
ghost use Rattle.cas_pieces.specs.Numbers.{number};

/// A text is what its pieces spell; and pieces of which no two words follow one another are those of the text that they
/// spell.
pub fn pieces_spell_their_text()
    ensures spelt { (bytes : List ℕ) → text (pieces bytes) ≡ bytes }
    ensures split { (ps : List Piece) → AreProper ps → pieces (text ps) ≡ ps }
    ensures proper { (bytes : List ℕ) → AreProper (pieces bytes) }
{}

/// A number of 64 bits has one spelling as a word: its decimal digits.
pub fn numbers_have_one_spelling()
    ensures read { (n : ℕ) → n < 2 ^ 64 → number (decimal n) ≡ Some n }
    ensures only { (n : ℕ) (digits : List ℕ) → n < 2 ^ 64 → number digits ≡ Some n → digits ≡ decimal n }
{}
