//! The tokens of a text.

ghost use Rattle.std.specs.Prelude.{◌≡◌, ◌<◌, ◌+◌, ◌^◌, length, IfOk, IfErr, MatchResult, List, IsUtf8};
ghost use Rattle.cas_base.specs.declared.place.Place.{Place};
ghost use Rattle.cas_lex.specs.declared.code.ReadCode.{ReadCode};
ghost use Rattle.cas_lex.specs.declared.token.Token.{Token};
ghost use Rattle.cas_lex.specs.Lexed as spec;
ghost use Rattle.cas_lex.specs.Answers as answers;
ghost use Rattle.cas_lex.specs.Places as places;

use crate::code::ReadCode;
use crate::fault::LexFault;
use crate::front::{Front, front_of};
use crate::place::{START, behind};
use crate::token::Token;
use crate::word::WordTable;
use std::alloc::Global;

/// The tokens of a text by longest match, with their places; comments and blanks separate them. Time is
/// linear in the text.
///
/// # Errors
///
/// `At` exactly with the text's first lexical fault, of code R1, R2, R3, R4 or R7. A text that isn't UTF-8 has R1
/// after its longest front that is; in any other text the fault is the first from left to right. `Memory` if it runs
/// out of memory.
pub fn lex(alloc: Global, text: &[u8]) -> Result<Vec<Token>, LexFault>
    requires { length text.now + 1 < 2 ^ 32 }
    ensures tokens { IfOk result (λ tokens. spec.HasTokens text.now tokens.items) }
    ensures fault { IfErr result (answers.IfAt (spec.HasFault text.now)) }

    // and no other tokens, and no other fault
    ensures only_tokens { (tokens : List Token) → spec.HasTokens text.now tokens → answers.IsTokens tokens result }
    ensures only_fault { (code : ReadCode) (place : Place) → spec.HasFault text.now code place
        → answers.IsFault code place result }
{
    lexed(alloc, text)
}

fn lexed(alloc: Global, text: &[u8]) -> Result<Vec<Token>, LexFault>
    requires { length text.now + 1 < 2 ^ 32 }
    ensures { answers.IsAnswer text.now result }
{
    match str::from_utf8(text) {
        Ok(_) => tokens_of(alloc, text),
        Err(error) => Err(LexFault::At {
            code: ReadCode::R1,
            place: behind(START, &text[..error.valid_up_to()]),
        }),
    }
}

// The tokens of a text that is UTF-8.
fn tokens_of(alloc: Global, text: &[u8]) -> Result<Vec<Token>, LexFault>
    requires short { length text.now + 1 < 2 ^ 32 }
    requires utf8 { IsUtf8 text.now }
    ensures { answers.IsAnswer text.now result }
{
    let words = WordTable::new();
    let mut tokens = Vec::new(alloc);
    let mut rest = text;
    let mut place = START;
    'fronts: while !rest.is_empty() {
        let len = match front_of(alloc, &words, rest)? {
            Front::Blank(len) => len,
            Front::Token(kind, len) => {
                tokens.push(Token { kind, place })?;
                len
            }
            Front::Fault(code) => return Err(LexFault::At { code, place }),
        };
        let (front, after) = rest.split_at(len);
        place = behind(place, front);
        rest = after;
    }
    Ok(tokens)
}
