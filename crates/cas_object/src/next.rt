//! What is read after one line more.

ghost use Rattle.std.specs.Prelude.{◌≡◌, ◌⊎◌, Ok, Err, MatchResult, map, IfOk};
ghost use Rattle.cas_object.specs.Answers.{IsAnswer};
ghost use Rattle.cas_object.specs.Texts as spec;
ghost use Rattle.cas_object.specs.declared.fault.ObjectFault.TheVariants.{Memory};

use crate::body::Body;
use crate::draft::Draft;
use crate::fault::{ObjectCode, ObjectFault, fault_of};
use crate::inside::Inside;
use cas_asm::Line;
use cas_object_decl::{DeclLine, Field, decl_line, fields, is_number};
use cas_object_line::{CodeLine, Tables, code_line};
use cas_object_text::Object;
use cas_pieces::Piece;
use std::alloc::Global;

/// Where a line is read: its number, and the tables of words.
#[derive(Clone, Copy)]
pub struct At<'t> {
    /// The allocator.
    pub alloc: Global,
    /// The tables.
    pub tables: &'t Tables,
    /// The line's number, from 1.
    pub line: u32,
}

/// What is open after a line with these pieces. An object that it ends is put behind `objects`.
pub fn next(
    at: At,
    objects: &mut Vec<Object>,
    inside: Inside,
    pieces: &[Piece],
) -> Result<Inside, ObjectFault>
    ensures { MatchResult result
        (λ now. spec.next at.entry.line (map (λ object. object.unit) objects.old.items) inside pieces.now
        ≡ Ok (spec.going_on (map (λ object. object.unit) objects.new.items) now))
        (λ fault. (fault ≡ Memory)
        ⊎ (spec.next at.entry.line (map (λ object. object.unit) objects.old.items) inside pieces.now ≡ Err fault)) }
{
    match inside {
        Inside::Text => {
            let fields = fields(at.alloc, pieces)?;
            first_line(at, &fields)
        }
        Inside::Object(draft) => {
            let fields = fields(at.alloc, pieces)?;
            match decl_line(at.alloc, &fields) {
                Ok(DeclLine::End) => {
                    objects.push(draft.finish())?;
                    Ok(Inside::Text)
                }
                Ok(line) => declared(at, draft, line),
                Err(fault) => Err(fault_of(fault, at.line)),
            }
        }
        Inside::Function(draft, body) => match code_line(at.alloc, at.tables, pieces) {
            Ok(line) => code(at, draft, body, line),
            Err(fault) => Err(fault_of(fault, at.line)),
        },
    }
}

fn refused(code: ObjectCode, at: At) -> Result<Inside, ObjectFault>
    ensures { result ≡ spec.refused code at.entry.line }
{
    Err(ObjectFault::At {
        code,
        line: at.line,
    })
}

// The first line of an object.
fn first_line(at: At, fields: &[Field]) -> Result<Inside, ObjectFault>
    ensures { result ≡ spec.first_line at.entry.line fields.now }
{
    match fields {
        [word, version] if word.spells("object") => {
            if version.spells("1") {
                Ok(Inside::Object(Draft::new(at.alloc)))
            } else if is_number(version) {
                refused(ObjectCode::B1, at)
            } else {
                refused(ObjectCode::B2, at)
            }
        }
        _ => refused(ObjectCode::B2, at),
    }
}

// A line of an object, outside functions, that doesn't end it.
fn declared(at: At, draft: Draft, line: DeclLine) -> Result<Inside, ObjectFault>
    ensures { IsAnswer result (spec.data_line at.entry.line draft line) }
{
    match line {
        DeclLine::Extern(decl) => Ok(Inside::Object(draft.with_extern(decl)?)),
        DeclLine::Data(global) => {
            if draft.lacks_words(&global) {
                refused(ObjectCode::B5, at)
            } else {
                Ok(Inside::Object(draft.with_data(at.alloc, global)?))
            }
        }
        DeclLine::Function(decl) => {
            if draft.has_room() {
                Ok(Inside::Function(draft, Body::new(at.alloc, decl)))
            } else {
                refused(ObjectCode::B5, at)
            }
        }
        DeclLine::End => Ok(Inside::Text),
    }
}

// A line of a function.
fn code(at: At, draft: Draft, body: Body, line: CodeLine) -> Result<Inside, ObjectFault>
    ensures { IsAnswer result (spec.code at.entry.line draft body line) }
{
    match line {
        CodeLine::Code(line) => with_line(at, draft, body, line),
        CodeLine::End => {
            if body.is_complete() {
                Ok(Inside::Object(draft.with_function(at.alloc, body)?))
            } else {
                refused(ObjectCode::B3, at)
            }
        }
    }
}

// A label or an instruction.
fn with_line(at: At, draft: Draft, body: Body, line: Line) -> Result<Inside, ObjectFault>
    ensures { IsAnswer result (spec.line at.entry.line draft body line) }
{
    match line {
        Line::Label(label) => {
            if body.sets(label) {
                refused(ObjectCode::B3, at)
            } else {
                Ok(Inside::Function(draft, body.with_label(label)?))
            }
        }
        Line::Run(instr) => {
            if body.has_room() {
                Ok(Inside::Function(draft, body.with_instr(instr)?))
            } else {
                refused(ObjectCode::B5, at)
            }
        }
    }
}
