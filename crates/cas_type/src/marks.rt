//! The locals of a function: their types, how many cells stand before each, and whether pointers to them are made.

ghost use Rattle.std.specs.Prelude.{◌≡◌, ◌<◌, ◌^◌, ◌++◌, IfOk, false, length, map, replicate, sum};
ghost use Rattle.cas_base.specs.Ty.{words_of_ty};
ghost use Rattle.cas_type.specs.Parts as p;

use cas_base::{NoMemory, Seq, Ty};
use cas_typed::Local;
use std::alloc::Global;

// This many numbers, none of which is marked.
fn unmarked(alloc: Global, count: usize) -> Result<Vec<bool>, NoMemory>
    ensures { IfOk result (λ marks. marks.items ≡ replicate count false) }
{
    let mut marks = Vec::new(alloc);
    'more: while marks.len() < count {
        marks.push(false)?;
    }
    Ok(marks)
}

// Marks a number, if it exists.
fn mark(marks: &mut [bool], number: u32)
    ensures { marks.new ≡ p.marked number 0 marks.old }
{
    let at = number as usize;
    if at < marks.len() {
        marks[at] = true;
    }
}

/// For each number below a count whether it is among these.
pub fn marks(alloc: Global, numbers: &[u32], count: usize) -> Result<Vec<bool>, NoMemory>
    ensures { IfOk result (λ marks. marks.items ≡ p.marks_of numbers.now 0 count) }
{
    let mut marks = unmarked(alloc, count)?;
    let mut rest = numbers;
    'each: while let Some((number, others)) = rest.split_first() {
        mark(&mut marks, *number);
        rest = others;
    }
    Ok(marks)
}

/// The locals of these types with their marks.
pub fn locals(alloc: Global, marks: &[bool], tys: &[Ty]) -> Result<Seq<Local>, NoMemory>
    requires { sum (map words_of_ty tys.now) < 2 ^ 32 }
    ensures { IfOk result (λ locals. locals ≡ p.marked_locals marks.now 0 tys.now) }
{
    let mut locals = Vec::new(alloc);
    let mut first = 0;
    let mut rest = tys;
    let mut behind = marks;
    'each: while let Some((addressed, others)) = behind.split_first() {
        match rest.split_first() {
            Some((ty, later)) => {
                locals.push(Local {
                    ty: *ty,
                    first,
                    addressed: *addressed,
                })?;
                first += ty.words();
                rest = later;
            }
            None => return Ok(Seq::of(locals)),
        }
        behind = others;
    }
    Ok(Seq::of(locals))
}

/// The types of parameters, and behind them those of the locals that a body declares.
pub fn all_types(alloc: Global, params: &[Ty], declared: &[Ty]) -> Result<Vec<Ty>, NoMemory>
    ensures { IfOk result (λ tys. tys.items ≡ params.now ++ declared.now) }
{
    let mut tys = Vec::from_slice(alloc, params)?;
    tys.extend_from_slice(declared)?;
    Ok(tys)
}
