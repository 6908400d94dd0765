//! Items of modules.

ghost use Rattle.std.specs.Prelude.{◌≡◌, IfOk, List, drop, map};
ghost use Rattle.cas_syntax.specs.Tree.{fun_tree, item_tree};
ghost use Rattle.cas_print.specs.Page.{followed_by};
ghost use Rattle.cas_print.specs.Pieces.{Piece, named};
ghost use Rattle.cas_print.specs.Expressions.{listed};
ghost use Rattle.cas_print.specs.Items as spec;
ghost use Rattle.cas_base.specs.Word as words;

use crate::page::Page;
use crate::part::{before_name, behind_name};
use crate::stmt::stmts;
use cas_base::{Form, Kind, Name, NoMemory, Ty};
use cas_lex::{Sign, Word};
use cas_syntax::{Fun, Ident, Item};

/// Writes items, one after another.
pub fn items(page: &mut Page, items: &[Item]) -> Result<(), NoMemory>
    ensures { (rest : List Piece)
        → IfOk result (λ _. followed_by page.new rest
        ≡ followed_by page.old (spec.printed_items (map item_tree items.now) rest)) }
{
    let mut others = items;
    while let Some((next, behind)) = others.split_first() {
        item(page, next)?;
        others = behind;
    }
    Ok(())
}

// Writes an item.
fn item(page: &mut Page, item: &Item) -> Result<(), NoMemory>
    ensures { (rest : List Piece)
        → IfOk result (λ _. followed_by page.new rest
        ≡ followed_by page.old (spec.printed_item (item_tree item.now) rest)) }
{
    match item {
        Item::Global { decl, values, .. } => {
            outside(page, decl.defined)?;
            global(page, &decl.form, &decl.name, values.as_slice())
        }
        Item::Prototype { decl, .. } => {
            head(page, &decl.form, &decl.name, &[])?;
            page.end_of_line(Sign::Semicolon)
        }
        Item::Define(fun) => function(page, fun),
    }
}

// Writes `extern` before what isn't defined.
fn outside(page: &mut Page, defined: bool) -> Result<(), NoMemory>
    ensures { (rest : List Piece)
        → IfOk result (λ _. followed_by page.new rest ≡ followed_by page.old (spec.printed_extern defined rest)) }
{
    if defined {
        Ok(())
    } else {
        page.word(Word::Extern)
    }
}

// Writes a function with its body.
fn function(page: &mut Page, fun: &Fun) -> Result<(), NoMemory>
    ensures { (rest : List Piece)
        → IfOk result (λ _. followed_by page.new rest
        ≡ followed_by page.old (spec.printed_fun (fun_tree fun.now) rest)) }
{
    head(page, &fun.decl.form, &fun.decl.name, fun.params.as_slice())?;
    page.end_of_line(Sign::OpenBrace)?;
    stmts(page, fun.body.as_slice())?;
    page.end_of_line(Sign::CloseBrace)
}

// Writes a global or a lock.
fn global(page: &mut Page, form: &Form, name: &Name, values: &[u32]) -> Result<(), NoMemory>
    ensures { (rest : List Piece)
        → IfOk result (λ _. followed_by page.new rest
        ≡ followed_by page.old (spec.printed_global form.now name.now values.now rest)) }
{
    match form {
        Form::Lock => {
            page.word(Word::Lock)?;
            page.name(name)?;
            page.end_of_line(Sign::Semicolon)
        }
        Form::Shared { ty, lock } => {
            page.word(Word::Shared)?;
            page.sign(Sign::OpenParen)?;
            page.name(lock)?;
            page.sign(Sign::CloseParen)?;
            cells(page, *ty, name, values)?;
            page.end_of_line(Sign::Semicolon)
        }
        Form::Table { ty } => {
            page.word(Word::Const)?;
            cells(page, *ty, name, values)?;
            page.end_of_line(Sign::Semicolon)
        }
        Form::Function { .. } => Ok(()),
    }
}

// Writes the cells of a global.
fn cells(page: &mut Page, ty: Ty, name: &Name, values: &[u32]) -> Result<(), NoMemory>
    ensures { (rest : List Piece)
        → IfOk result (λ _. followed_by page.new rest
        ≡ followed_by page.old (spec.printed_cells ty name.now values.now rest)) }
{
    before_name(page, ty)?;
    page.name(name)?;
    behind_name(page, ty)?;
    initial(page, ty, values)
}

// Writes initial words, if there are any.
fn initial(page: &mut Page, ty: Ty, values: &[u32]) -> Result<(), NoMemory>
    ensures { (rest : List Piece)
        → IfOk result (λ _. followed_by page.new rest
        ≡ followed_by page.old (spec.printed_initial ty values.now rest)) }
{
    if values.is_empty() {
        return Ok(());
    }
    some_values(page, ty, values)
}

// Writes initial words of a type.
fn some_values(page: &mut Page, ty: Ty, words: &[u32]) -> Result<(), NoMemory>
    ensures { (rest : List Piece)
        → IfOk result (λ _. followed_by page.new rest ≡ followed_by page.old (spec.printed_values ty words.now rest)) }
{
    match ty {
        Ty::Void | Ty::Ptr(_) => Ok(()),
        Ty::Int(kind) => {
            page.sign(Sign::Equal)?;
            values(page, kind, words)
        }
        Ty::Array(kind, _) => {
            page.sign(Sign::Equal)?;
            page.sign(Sign::OpenBrace)?;
            values(page, kind, words)?;
            page.sign(Sign::CloseBrace)
        }
    }
}

// Writes initial words of a kind with commas between.
fn values(page: &mut Page, kind: Kind, values: &[u32]) -> Result<(), NoMemory>
    ensures { (rest : List Piece)
        → IfOk result (λ _. followed_by page.new rest
        ≡ followed_by page.old (listed (spec.printed_value kind) values.now rest)) }
{
    let Some((first, mut others)) = values.split_first() else {
        return Ok(());
    };
    value(page, kind, *first)?;
    while let Some((next, behind)) = others.split_first() {
        page.sign(Sign::Comma)?;
        value(page, kind, *next)?;
        others = behind;
    }
    Ok(())
}

// Writes an initial word of a kind.
fn value(page: &mut Page, kind: Kind, word: u32) -> Result<(), NoMemory>
    ensures { (rest : List Piece)
        → IfOk result (λ _. followed_by page.new rest ≡ followed_by page.old (spec.printed_value kind word rest)) }
{
    match kind {
        Kind::I8 => signed(page, word),
        Kind::I16 => signed(page, word),
        Kind::I32 => signed(page, word),
        Kind::U8 => page.plain_number(word),
        Kind::U16 => page.plain_number(word),
        Kind::U32 => page.plain_number(word),
    }
}

// Writes the signed reading of a word.
fn signed(page: &mut Page, word: u32) -> Result<(), NoMemory>
    ensures { (rest : List Piece)
        → IfOk result (λ _. followed_by page.new rest
        ≡ followed_by page.old (spec.printed_integer (words.signed word) rest)) }
{
    integer(page, word.cast_signed())
}

// Writes an integer.
fn integer(page: &mut Page, integer: i32) -> Result<(), NoMemory>
    ensures { (rest : List Piece)
        → IfOk result (λ _. followed_by page.new rest ≡ followed_by page.old (spec.printed_integer integer rest)) }
{
    if integer < 0 {
        page.sign(Sign::Minus)?;
    }
    page.plain_number(integer.unsigned_abs())
}

// Writes a function up to its body.
fn head(page: &mut Page, form: &Form, name: &Name, names: &[Ident]) -> Result<(), NoMemory>
    ensures { (rest : List Piece)
        → IfOk result (λ _. followed_by page.new rest
        ≡ followed_by page.old (spec.printed_head form.now name.now names.now rest)) }
{
    match form {
        Form::Function { ret, params, holds } => {
            before_name(page, *ret)?;
            page.name(name)?;
            page.sign(Sign::OpenParen)?;
            parameters(page, params.as_slice(), names)?;
            page.sign(Sign::CloseParen)?;
            held(page, holds.as_slice())
        }
        Form::Lock => Ok(()),
        Form::Shared { .. } => Ok(()),
        Form::Table { .. } => Ok(()),
    }
}

// Writes parameters, with their names as far as there are any.
fn parameters(page: &mut Page, types: &[Ty], names: &[Ident]) -> Result<(), NoMemory>
    ensures { (rest : List Piece)
        → IfOk result (λ _. followed_by page.new rest
        ≡ followed_by page.old (spec.printed_parameters types.now names.now rest)) }
{
    let Some((first, mut others)) = types.split_first() else {
        return page.word(Word::Void);
    };
    before_name(page, *first)?;
    first_name(page, names)?;
    let mut names = behind_first(names);
    while let Some((next, behind)) = others.split_first() {
        page.sign(Sign::Comma)?;
        before_name(page, *next)?;
        first_name(page, names)?;
        names = behind_first(names);
        others = behind;
    }
    Ok(())
}

// Writes the first name, if there is one.
fn first_name(page: &mut Page, names: &[Ident]) -> Result<(), NoMemory>
    ensures { (rest : List Piece)
        → IfOk result (λ _. followed_by page.new rest ≡ followed_by page.old (spec.first_name names.now rest)) }
{
    match names {
        [first, ..] => page.name(&first.name),
        [] => Ok(()),
    }
}

// The names after the first.
fn behind_first(names: &[Ident]) -> &[Ident]
    ensures { result.now ≡ drop 1 names.now }
{
    match names {
        [_, behind @ ..] => behind,
        [] => names,
    }
}

// Writes the locks that a function's caller holds, if there are any.
fn held(page: &mut Page, locks: &[Name]) -> Result<(), NoMemory>
    ensures { (rest : List Piece)
        → IfOk result (λ _. followed_by page.new rest ≡ followed_by page.old (spec.printed_holds locks.now rest)) }
{
    if locks.is_empty() {
        return Ok(());
    }
    page.word(Word::Holds)?;
    page.sign(Sign::OpenParen)?;
    names(page, locks)?;
    page.sign(Sign::CloseParen)
}

// Writes names with commas between.
fn names(page: &mut Page, names: &[Name]) -> Result<(), NoMemory>
    ensures { (rest : List Piece)
        → IfOk result (λ _. followed_by page.new rest ≡ followed_by page.old (spec.printed_names names.now rest)) }
{
    let Some((first, mut others)) = names.split_first() else {
        return Ok(());
    };
    page.name(first)?;
    while let Some((next, behind)) = others.split_first() {
        page.sign(Sign::Comma)?;
        page.name(next)?;
        others = behind;
    }
    Ok(())
}
