//! What a name means at a place of a module.

ghost use Rattle.std.specs.Prelude.{length, OnOk, ◌≡◌, ◌≤◌, ◌+◌, [], ◌∷◌, ◌++◌};
ghost use Rattle.cas_type.specs.View.{forgotten, meaning_of, outside};
ghost use Rattle.cas_typed.specs.Scopes as s;
ghost use Rattle.cas_typed.specs.Types.{variable_type};

use crate::locals::Locals;
use cas_base::{Decl, Form, Name, NoMemory, Ty};
use cas_symbols::Symbols;
use cas_syntax::Ident;
use std::alloc::Global;
use std::marker::Model;

/// What a name means.
#[derive(Clone, Copy)]
pub enum Meaning<'a> {
    /// It isn't declared.
    Undeclared,
    /// A local with this number, of this type.
    Variable(u32, Ty),
    /// What the item with this number declares, the first of its name.
    Item(u32, &'a Form),
}

/// The type of a global variable.
pub fn variable_ty(form: &Form) -> Option<Ty>
    ensures { result ≡ variable_type form.now }
{
    match form {
        Form::Shared { ty, .. } | Form::Table { ty } => Some(*ty),
        Form::Lock | Form::Function { .. } => None,
    }
}

/// What a name means among the items of a module.
pub fn item_meaning<'a>(symbols: &Symbols<'a>, name: &Name) -> Meaning<'a>
    ensures { meaning_of result ≡ s.item_named 0 symbols.now name.now }
{
    match symbols.get(name.as_str()) {
        Some(symbol) => Meaning::Item(symbol.number, symbol.form),
        None => Meaning::Undeclared,
    }
}

/// What is visible at a place. Contracts see it as the scope there.
#[derive(Drop)]
pub struct Scopes<'a> {
    symbols: Symbols<'a>,
    locals: Locals<'a>,
    /// How many of the locals stand around the innermost block.
    around: usize,
    /// How many locals of the function stand before.
    count: u32,
}

impl<'a> Model for Scopes<'a> {
    ghost use Rattle.std.specs.Prelude.{take, drop, length, ◌≤◌, ◌-◌};
    ghost use Rattle.cas_typed.specs.Scopes.{Scope};

    ghost Value = { Scope };

    ghost view = { λ s. record {
      block = take (length s.locals - s.around) s.locals;
      around = drop (length s.locals - s.around) s.locals;
      decls = s.symbols;
      count = s.count;
    } };

    ghost invariant = { λ s. s.around ≤ length s.locals };
}

impl<'a> Scopes<'a> {
    /// Nothing is visible.
    pub fn new(alloc: Global) -> Scopes<'a>
        ensures { result ≡ record { block = []; around = []; decls = []; count = 0 } }
    {
        Scopes {
            symbols: Symbols::new(alloc),
            locals: Locals::new(alloc),
            around: 0,
            count: 0,
        }
    }

    /// The declarations of the items so far.
    pub fn symbols(&self) -> &Symbols<'a>
        ensures { result.now ≡ self.now.decls }
    {
        &self.symbols
    }

    /// Behind the declaration of an item.
    pub fn item(&mut self, decl: &'a Decl) -> Result<(), NoMemory>
        ensures { OnOk result (self.new ≡ record self.old { decls = self.old.decls ++ decl.now ∷ [] }) }
    {
        self.symbols.declare(decl)
    }

    /// At the beginning of the body of a function with these parameters.
    pub fn begin(&mut self, params: &'a [Ident], tys: &[Ty]) -> Result<(), NoMemory>
        ensures { OnOk result (self.new ≡ s.body_scope self.old.decls params.now tys.now) }
    {
        let count = match u32::try_from(tys.len()) {
            Ok(count) => count,
            Err(_) => return Err(NoMemory),
        };
        self.around = 0;
        self.locals.truncate(0);
        self.locals.push_parameters(params, tys)?;
        self.count = count;
        Ok(())
    }

    /// Inside a further block; and how many locals stand around the block so far.
    pub fn enter(&mut self) -> usize
        ensures inner { self.new ≡ s.inside self.old }
        ensures mark { result ≡ length self.old.around }
    {
        let around = self.around;
        self.around = self.locals.len();
        around
    }

    /// Out of a block, around which so many locals stand that aren't of the block around it.
    pub fn leave(&mut self, mark: usize)
        requires { mark ≤ length self.now.around }
        ensures { self.new ≡ outside mark self.old }
    {
        let around = self.around;
        self.around = mark;
        self.locals.truncate(around);
    }

    /// How many locals are visible.
    pub fn visible(&self) -> usize
        ensures { result ≡ length self.now.block + length self.now.around }
    {
        self.locals.len()
    }

    /// Only the oldest locals stay visible, so many, those around the block among them.
    pub fn forget(&mut self, visible: usize)
        requires around { length self.now.around ≤ visible }
        requires within { visible ≤ length self.now.block + length self.now.around }
        ensures { self.new ≡ forgotten visible self.old }
    {
        self.locals.truncate(visible);
    }

    /// Behind the declaration of a local.
    pub fn declare(&mut self, ident: &'a Ident, ty: Ty) -> Result<(), NoMemory>
        ensures { OnOk result (self.new ≡ s.declaring self.old ty ident.now) }
    {
        let number = self.count;
        let count = match number.checked_add(1) {
            Some(count) => count,
            None => return Err(NoMemory),
        };
        self.locals.push(ident, number, ty)?;
        self.count = count;
        Ok(())
    }

    /// Whether a name is declared in the innermost block.
    pub fn is_in_block(&self, ident: &Ident) -> bool
        ensures { result ≡ s.is_in_block self.now ident.now }
    {
        self.locals.is_beyond(self.around, &ident.name)
    }

    /// What a name means.
    pub fn meaning(&self, ident: &Ident) -> Meaning<'a>
        ensures { meaning_of result ≡ s.meaning self.now ident.now }
    {
        match self.locals.find(&ident.name) {
            Some(local) => Meaning::Variable(local.number, local.ty),
            None => item_meaning(&self.symbols, &ident.name),
        }
    }
}
