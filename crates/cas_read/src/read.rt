//! Reading of module texts.

ghost use Rattle.std.specs.Prelude.{◌≡◌, ◌<◌, ◌≤◌, ◌+◌, ◌^◌, length, IfOk, IfErr};
ghost use Rattle.cas_base.specs.declared.place.Place.{Place};
ghost use Rattle.cas_lex.specs.declared.code.ReadCode.{ReadCode};
ghost use Rattle.cas_syntax.specs.Reading.{IsReadAs, HasReadFault};
ghost use Rattle.cas_syntax.specs.Tree.{ModuleTree, module_tree};
ghost use Rattle.cas_read.specs.Answers as answers;
ghost use Rattle.cas_parse.specs.Left as spec;

use crate::item::items;
use cas_base::{Place, Seq};
use cas_lex::{LexFault, ReadCode, Token, end_of, lex};
use cas_read_expr::stop::Stop;
use cas_syntax::Module;
use std::alloc::Global;

/// Why a text is read as no module.
#[derive(Clone, Copy, Debug, PartialEq, Eq)]
pub enum ReadFault {
    /// It ran out of memory.
    Memory,
    /// The text's first fault.
    At {
        /// R1 to R8.
        code: ReadCode,
        /// Where it is.
        place: Place,
    },
}

/// The module that a text is read as.
///
/// # Errors
///
/// `At` exactly with the text's first fault. A text with a lexical fault has the first of those, of code R1, R2, R3, R4
/// or R7, as `lex` answers it. In any other text the fault is at the first token with which no module goes on: R8
/// if only a limit forbids it, R7 if it shows a form that is left out, and else R5; or R6 at the end, if each
/// token may stand and the text is no module. `Memory` if it runs out of memory.
#[tactic(auto, using(crate::proofs::Reader::answered_module, crate::proofs::Reader::answered_fault, crate::proofs::Reader::only_module, crate::proofs::Reader::only_fault))]
pub fn read_module(alloc: Global, bytes: &[u8]) -> Result<Module, ReadFault>
    requires { length bytes.now + 1 < 2 ^ 32 }
    ensures found { IfOk result (λ m. IsReadAs bytes.now (module_tree m)) }
    ensures fault { IfErr result (λ e. answers.IfAt (HasReadFault bytes.now) e) }

    // and no other module, and no other fault
    ensures only { (m : ModuleTree) → IsReadAs bytes.now m → answers.IsRead m result }
    ensures fault_only { (code : ReadCode) (p : Place) → HasReadFault bytes.now code p → answers.IsFault code p result }
{
    read(alloc, bytes)
}

#[tactic(auto, using(crate::proofs::Reader::reads_lexical, crate::proofs::Reader::reads_fault, crate::proofs::Reader::left_within))]
fn read(alloc: Global, bytes: &[u8]) -> Result<Module, ReadFault>
    requires { length bytes.now + 1 < 2 ^ 32 }
    ensures { answers.IsAnswer bytes.now result }
{
    let tokens = match lex(alloc, bytes) {
        Ok(tokens) => tokens,
        Err(fault) => return Err(lexical(fault)),
    };
    match items(alloc, tokens.as_slice()) {
        Ok(items) => Ok(Module {
            items: Seq::of(items),
        }),
        Err(Stop::Memory) => Err(ReadFault::Memory),
        Err(Stop::At { code, left }) => {
            let place = place_left(tokens.as_slice(), end_of(bytes), left);
            Err(ReadFault::At { code, place })
        }
    }
}

// The lexer's fault as the reader's.
fn lexical(fault: LexFault) -> ReadFault
    ensures { result ≡ answers.lexical_fault fault }
{
    match fault {
        LexFault::Memory => ReadFault::Memory,
        LexFault::At { code, place } => ReadFault::At { code, place },
    }
}

// The place of the token at which so many are left, itself included; if none is left, the end.
fn place_left(tokens: &[Token], end: Place, left: usize) -> Place
    requires { left ≤ length tokens.now }
    ensures { result ≡ spec.place_left tokens.now end left }
{
    match tokens.get(tokens.len() - left) {
        Some(token) => token.place,
        None => end,
    }
}
