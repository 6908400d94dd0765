//! The lines of functions: labels and instructions.

ghost use Rattle.std.specs.Prelude.{◌≡◌, ◌≤◌, length, IfSome};
ghost use Rattle.std.specs.List.{position};
ghost use Rattle.cas_pieces.specs.Marks.{is_mark};
ghost use Rattle.cas_pieces.specs.declared.piece.Mark.TheVariants.{Comma};
ghost use Rattle.cas_object_line.specs.Answers.{IsAnswer};
ghost use Rattle.cas_object_line.specs.Codes as spec;

use crate::fault::LineFault;
use crate::instr::{bare, binary, unary};
use crate::mnemonic::Mnemonic;
use crate::number::label_of;
use crate::operand::{Operand, operand_of};
use crate::tables::Tables;
use cas_asm::{Instr, Line};
use cas_pieces::{Mark, Piece};
use std::alloc::Global;

/// A line that may stand in a function.
#[derive(Debug, Drop)]
pub enum CodeLine {
    /// A label or an instruction.
    Code(Line),
    /// The function's `end`.
    End,
}

/// The line of a function with these pieces.
///
/// # Errors
///
/// `Form` exactly where they are no such line; else `Range` exactly where a number is out of its range; `Memory`.
pub fn code_line(alloc: Global, tables: &Tables, pieces: &[Piece]) -> Result<CodeLine, LineFault>
    ensures { IsAnswer result (spec.code_line pieces.now) }
{
    match pieces {
        [end] if end.spells("end") => Ok(CodeLine::End),
        [dot, label] if dot.is_mark(Mark::Dot) => label_line(label),
        _ => match instruction(alloc, tables, pieces) {
            Ok(instr) => Ok(CodeLine::Code(Line::Run(instr))),
            Err(fault) => Err(fault),
        },
    }
}

fn label_line(piece: &Piece) -> Result<CodeLine, LineFault>
    ensures { result ≡ spec.label_line piece.now }
{
    match piece {
        Piece::Word(digits) => match label_of(digits) {
            Ok(label) => Ok(CodeLine::Code(Line::Label(label))),
            Err(fault) => Err(fault),
        },
        Piece::Mark(_) => Err(LineFault::Form),
    }
}

/// The instruction that these pieces are: a mnemonic, and its operands with `, ` between.
pub fn instruction(alloc: Global, tables: &Tables, pieces: &[Piece]) -> Result<Instr, LineFault>
    ensures { IsAnswer result (spec.instruction pieces.now) }
{
    match pieces {
        [word] => without_operands(mnemonic_of(tables, word)),
        [word, space, rest @ ..] if space.is_mark(Mark::Space) => {
            with_operands(alloc, tables, mnemonic_of(tables, word), rest)
        }
        _ => Err(LineFault::Form),
    }
}

fn mnemonic_of(tables: &Tables, piece: &Piece) -> Option<Mnemonic>
    ensures { result ≡ spec.mnemonic_piece piece.now }
{
    match piece {
        Piece::Word(word) => tables.mnemonic(word.as_str()),
        Piece::Mark(_) => None,
    }
}

fn without_operands(mnemonic: Option<Mnemonic>) -> Result<Instr, LineFault>
    ensures { result ≡ spec.without_operands mnemonic }
{
    match mnemonic {
        Some(mnemonic) => bare(mnemonic),
        None => Err(LineFault::Form),
    }
}

fn with_operands(
    alloc: Global,
    tables: &Tables,
    mnemonic: Option<Mnemonic>,
    pieces: &[Piece],
) -> Result<Instr, LineFault>
    ensures { IsAnswer result (spec.with_operands mnemonic pieces.now) }
{
    match mnemonic {
        Some(mnemonic) => operands(alloc, tables, mnemonic, pieces),
        None => Err(LineFault::Form),
    }
}

fn operands(
    alloc: Global,
    tables: &Tables,
    mnemonic: Mnemonic,
    pieces: &[Piece],
) -> Result<Instr, LineFault>
    ensures { IsAnswer result (spec.operands mnemonic pieces.now) }
{
    match comma_in(pieces) {
        None => one_operand(alloc, mnemonic, operand_of(tables, pieces)),
        Some(at) => {
            let (front, back) = pieces.split_at(at);
            match back {
                [_, space, rest @ ..] if space.is_mark(Mark::Space) => {
                    let first = operand_of(tables, front);
                    let second = operand_of(tables, rest);
                    two_operands(alloc, tables, mnemonic, &first, &second)
                }
                _ => Err(LineFault::Form),
            }
        }
    }
}

// Where the first comma is.
fn comma_in(pieces: &[Piece]) -> Option<usize>
    ensures value { result ≡ position (λ p. is_mark p Comma) pieces.now }
    ensures within { IfSome result (λ at. at ≤ length pieces.now) }
{
    pieces.iter().position(|piece| piece.is_mark(Mark::Comma))
}

fn one_operand(
    alloc: Global,
    mnemonic: Mnemonic,
    operand: Option<Operand>,
) -> Result<Instr, LineFault>
    ensures { IsAnswer result (spec.one_operand mnemonic operand.entry) }
{
    match &operand {
        Some(operand) => unary(alloc, mnemonic, operand),
        None => Err(LineFault::Form),
    }
}

fn two_operands(
    alloc: Global,
    tables: &Tables,
    mnemonic: Mnemonic,
    first: &Option<Operand>,
    second: &Option<Operand>,
) -> Result<Instr, LineFault>
    ensures { IsAnswer result (spec.two_operands mnemonic first.now second.now) }
{
    match (first, second) {
        (Some(first), Some(second)) => binary(alloc, tables, mnemonic, first, second),
        _ => Err(LineFault::Form),
    }
}
