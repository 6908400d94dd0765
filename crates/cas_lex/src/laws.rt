//! Laws of the definitions, each the contract of a function without effect.

ghost use Rattle.std.specs.Prelude.{◌≡◌, ◌≤◌, List, ℕ, Some, None, IsTrue, length, nat_eq};
ghost use Rattle.std.specs.List.{starts_with};
ghost use Rattle.cas_base.specs.declared.place.Place.{Place};
ghost use Rattle.cas_lex.specs.declared.code.ReadCode.{ReadCode};
ghost use Rattle.cas_lex.specs.declared.token.Token.{Token};
ghost use Rattle.cas_lex.specs.declared.token.Sign.{Sign};
ghost use Rattle.cas_lex.specs.declared.token.Word.{Word};
ghost use Rattle.cas_lex.specs.Spellings.{sign_at, sign_spelling, word_of, word_spelling};
ghost use Rattle.cas_lex.specs.Lexed.{HasTokens, HasFault, IsLexed};

/// Each text, of any length, has one list of tokens, or one first lexical fault, and never both.
pub fn texts_are_lexed_once()
    ensures either { (text : List ℕ) → IsLexed text }
    ensures one_list { (text : List ℕ) (ts us : List Token) → HasTokens text ts → HasTokens text us → ts ≡ us }
    ensures one_fault { (text : List ℕ) (c d : ReadCode) (p q : Place) → HasFault text c p → HasFault text d q
        → (c ≡ d) × (p ≡ q) }
    ensures not_both { (text : List ℕ) (ts : List Token) (c : ReadCode) (p : Place) → HasTokens text ts
        → ¬ (HasFault text c p) }
{}

/// The spelling of each word and of each sign is read as it.
pub fn spellings_are_read()
    ensures words { (word : Word) → word_of (word_spelling word) ≡ Some word }
    ensures signs { (sign : Sign) → sign_at (sign_spelling sign) ≡ Some sign }
{}

/// The sign that is read at the front of a text begins it, and no longer sign does; and if none is read,
/// no sign begins the text.
pub fn signs_are_longest()
    ensures begins { (text : List ℕ) (s : Sign) → sign_at text ≡ Some s
        → IsTrue (starts_with nat_eq text (sign_spelling s)) }
    ensures longest { (text : List ℕ) (s t : Sign) → sign_at text ≡ Some s
        → IsTrue (starts_with nat_eq text (sign_spelling t))
        → length (sign_spelling t) ≤ length (sign_spelling s) }
    ensures none { (text : List ℕ) (t : Sign) → sign_at text ≡ None
        → ¬ (IsTrue (starts_with nat_eq text (sign_spelling t))) }
{}
