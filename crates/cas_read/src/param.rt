//! Types and parameters of functions.

ghost use Rattle.std.specs.Prelude.{◌≡◌, ◌≢◌, ◌<◌, ◌≤◌, ◌++◌, ◌∷◌, [], ℕ, Bool, length, List, Option, None, IfOk};
ghost use Rattle.std.specs.Prelude.{IfErr};
ghost use Rattle.cas_base.specs.declared.kind.Ty.{Ty};
ghost use Rattle.cas_syntax.specs.declared.tree.Ident.{Ident};
ghost use Rattle.cas_syntax.specs.Tree.{ItemTree};
ghost use Rattle.cas_read_expr.specs.declared.stop.Stop.TheVariants.{Memory};
ghost use Rattle.cas_parse.specs.Frames.{Opening, HaveKind, WantKind, ReturnKind, ParameterKind, WantFunction};
ghost use Rattle.cas_parse.specs.Frames.{ParameterType, WantParameters, WantParameter, HaveParameter};
ghost use Rattle.cas_parse.specs.Frames.{AfterParameters};
ghost use Rattle.cas_read_expr.specs.Follow.{Follows, verdict};
ghost use Rattle.cas_read.specs.FollowItems.{has_more_parameters};

use cas_base::{Kind, Ty};
use cas_lex::{Sign, Token, TokenKind, Word};
use cas_read_expr::front::{expect_outside, ident};
use cas_read_expr::kind::kind;
use cas_read_expr::stop::{Stop, left_out, next_token, unexpected_outside};
use cas_syntax::Ident;
use std::alloc::Global;

/// What the text says of a function's parameters: their types, and the names of those that have one.
#[derive(Debug, Drop)]
pub struct Parameters {
    pub types: Vec<Ty>,
    pub names: Vec<Option<Ident>>,
}

/// The type of a parameter, or of what a function returns, and the rest.
pub fn typed(tokens: &[Token]) -> Result<(Ty, &[Token]), Stop>
    ensures returned { (d : Bool) (items : List ItemTree)
        → Follows result (verdict tokens.now (WantKind None) (ReturnKind d items ∷ []))
        (λ p. verdict p.1.now (WantFunction d p.0 items) []) }
    ensures passed { (o : Opening) (tys : List Ty) (xs : List (Option Ident)) (items : List ItemTree)
        → Follows result (verdict tokens.now (WantKind None) (ParameterKind o tys xs items ∷ []))
        (λ p. verdict p.1.now (ParameterType o tys xs p.0 items) []) }
    ensures shorter { IfOk result (λ p. length p.1.now < length tokens.now) }
    ensures faults { IfErr result (λ e. e ≢ Memory) }
{
    let (kind, _, rest) = kind(tokens, None)?;
    pointed(rest, kind)
}

// The type that begins with the words of a kind, after them.
fn pointed(tokens: &[Token], kind: Kind) -> Result<(Ty, &[Token]), Stop>
    ensures returned { (b : Option ℕ) (d : Bool) (items : List ItemTree)
        → Follows result (verdict tokens.now (HaveKind b kind) (ReturnKind d items ∷ []))
        (λ p. verdict p.1.now (WantFunction d p.0 items) []) }
    ensures passed { (b : Option ℕ) (o : Opening) (tys : List Ty) (xs : List (Option Ident)) (items : List ItemTree)
        → Follows result (verdict tokens.now (HaveKind b kind) (ParameterKind o tys xs items ∷ []))
        (λ p. verdict p.1.now (ParameterType o tys xs p.0 items) []) }
    ensures no_longer { IfOk result (λ p. length p.1.now ≤ length tokens.now) }
    ensures faults { IfErr result (λ e. e ≢ Memory) }
{
    let (token, rest) = next_token(tokens)?;
    let TokenKind::Sign(Sign::Star) = token.kind else {
        return Ok((Ty::Int(kind), tokens));
    };
    match rest.split_first() {
        Some(
            (
                Token {
                    kind: TokenKind::Sign(Sign::Star),
                    ..
                },
                _,
            ),
        ) => Err(left_out(rest)),
        _ => Ok((Ty::Ptr(kind), rest)),
    }
}

/// The parameters of a function, after `(`, and the rest after `)`.
pub fn parameters_at(alloc: Global, tokens: &[Token]) -> Result<(Parameters, &[Token]), Stop>
    ensures follows { (o : Opening) (items : List ItemTree)
        → Follows result (verdict tokens.now (WantParameters o items) [])
        (λ p. verdict p.1.now (AfterParameters o p.0.types.items p.0.names.items items) []) }
    ensures shorter { IfOk result (λ p. length p.1.now < length tokens.now) }
{
    let (token, rest) = next_token(tokens)?;
    match token.kind {
        TokenKind::Sign(Sign::CloseParen) => Ok((no_parameters(alloc), rest)),
        TokenKind::Word(Word::Void) => {
            let rest = expect_outside(rest, Sign::CloseParen)?;
            Ok((no_parameters(alloc), rest))
        }
        _ => some_parameters(alloc, tokens),
    }
}

// No parameters.
fn no_parameters(alloc: Global) -> Parameters
    ensures types { result.types.items ≡ [] }
    ensures names { result.names.items ≡ [] }
{
    Parameters {
        types: Vec::new(alloc),
        names: Vec::new(alloc),
    }
}

// Parameters of a function, one or more, and the rest after `)`.
fn some_parameters(alloc: Global, tokens: &[Token]) -> Result<(Parameters, &[Token]), Stop>
    ensures follows { (o : Opening) (items : List ItemTree)
        → Follows result (verdict tokens.now (WantParameter o [] [] items) [])
        (λ p. verdict p.1.now (AfterParameters o p.0.types.items p.0.names.items items) []) }
    ensures shorter { IfOk result (λ p. length p.1.now < length tokens.now) }
{
    let mut types = Vec::new(alloc);
    let mut names = Vec::new(alloc);
    let mut rest = tokens;
    'parameters: loop {
        let (ty, after) = parameter_type(rest)?;
        types.push(ty)?;
        let (name, after) = parameter_name(alloc, after)?;
        names.push(name)?;
        let (goes_on, after) = more_parameters(after)?;
        if !goes_on {
            return Ok((Parameters { types, names }, after));
        }
        rest = after;
    }
}

// The type of a parameter.
#[tactic(auto, using(crate::proofs::ItemSteps::wants_parameter))]
fn parameter_type(tokens: &[Token]) -> Result<(Ty, &[Token]), Stop>
    ensures follows { (o : Opening) (tys : List Ty) (xs : List (Option Ident)) (items : List ItemTree)
        → Follows result (verdict tokens.now (WantParameter o tys xs items) [])
        (λ p. verdict p.1.now (ParameterType o tys xs p.0 items) []) }
    ensures shorter { IfOk result (λ p. length p.1.now < length tokens.now) }
    ensures faults { IfErr result (λ e. e ≢ Memory) }
{
    typed(tokens)
}

// The name of a parameter after its type, or none.
#[tactic(auto, using(crate::proofs::ItemSteps::named_parameter))]
fn parameter_name(alloc: Global, tokens: &[Token]) -> Result<(Option<Ident>, &[Token]), Stop>
    ensures follows { (o : Opening) (tys : List Ty) (xs : List (Option Ident)) (ty : Ty) (items : List ItemTree)
        → Follows result (verdict tokens.now (ParameterType o tys xs ty items) [])
        (λ p. verdict p.1.now (HaveParameter o (tys ++ ty ∷ []) (xs ++ p.0 ∷ []) items) []) }
    ensures no_longer { IfOk result (λ p. length p.1.now ≤ length tokens.now) }
{
    let (token, rest) = next_token(tokens)?;
    match &token.kind {
        TokenKind::Name(name) => Ok((Some(ident(alloc, name, token.place)?), rest)),
        _ => Ok((None, tokens)),
    }
}

// Whether a further parameter follows one, and the rest after the comma or the `)`.
fn more_parameters(tokens: &[Token]) -> Result<(bool, &[Token]), Stop>
    ensures follows { (o : Opening) (tys : List Ty) (xs : List (Option Ident)) (items : List ItemTree)
        → Follows result (verdict tokens.now (HaveParameter o tys xs items) [])
        (λ p. has_more_parameters p.0 p.1.now o tys xs items) }
    ensures shorter { IfOk result (λ p. length p.1.now < length tokens.now) }
    ensures faults { IfErr result (λ e. e ≢ Memory) }
{
    let (token, rest) = next_token(tokens)?;
    match token.kind {
        TokenKind::Sign(Sign::Comma) => Ok((true, rest)),
        TokenKind::Sign(Sign::CloseParen) => Ok((false, rest)),
        TokenKind::Sign(Sign::OpenBracket) => Err(left_out(tokens)),
        _ => Err(unexpected_outside(tokens)),
    }
}
