//! What the declarations of a module say of locks, by the numbers of its items: a table that is made once.

ghost use Rattle.std.specs.Prelude.{map, length, IfOk, ◌≡◌, ◌<◌};
ghost use Rattle.cas_own.specs.Checked.{name_of};
ghost use Rattle.cas_own.specs.Locks.{guard_of, guard_of_form, holds_of, holds_of_form, lock_named, locks_named};
ghost use Rattle.cas_syntax.specs.Tree.{item_tree};
ghost use Rattle.cas_typed.specs.Modules.{decl_of};

use cas_base::{Decl, Form, Name, NoMemory, Seq};
use cas_symbols::Symbols;
use cas_syntax::Item;
use cas_typed::declared;
use std::alloc::Global;
use std::marker::Model;

/// The declarations of a module's items, with the guard of each shared global, and the locks that each function's
/// caller holds. Contracts see it as the list of declarations.
#[derive(Drop)]
pub struct Table<'a> {
    symbols: Symbols<'a>,
    /// The lock that guards what each item declares, if it is a shared global.
    guards: Vec<Option<u32>>,
    /// The locks that a caller of what each item declares holds, in the order of its `holds`.
    holds: Vec<Seq<u32>>,
}

impl<'a> Model for Table<'a> {
    ghost use Rattle.std.specs.Prelude.{List, map, ◌≡◌};
    ghost use Rattle.cas_base.specs.declared.decl.Decl.{Decl};
    ghost use Rattle.cas_own.specs.Locks.{guard_of_form, holds_of_form};

    ghost Value = { List Decl };

    ghost view = { λ t. t.symbols };

    ghost invariant = { λ t. (t.guards.items ≡ map (λ d. guard_of_form t.symbols d.form) t.symbols)
        × (t.holds.items ≡ map (λ d. holds_of_form t.symbols d.form) t.symbols) };
}

// The symbol table of items.
fn symbols_of<'a>(alloc: Global, items: &'a [Item]) -> Result<Symbols<'a>, NoMemory>
    ensures { IfOk result (λ symbols. symbols ≡ map decl_of (map item_tree items.now)) }
{
    let mut symbols = Symbols::new(alloc);
    let mut rest = items;
    'each: while let Some((item, others)) = rest.split_first() {
        symbols.declare(declared(item))?;
        rest = others;
    }
    Ok(symbols)
}

// The lock that a name means, if it means one.
fn lock_of(symbols: &Symbols<'_>, name: &Name) -> Option<u32>
    ensures { result ≡ lock_named symbols.now name.now }
{
    match symbols.get(name.as_str()) {
        None => None,
        Some(symbol) => match symbol.form {
            Form::Lock => Some(symbol.number),
            Form::Shared { .. } | Form::Table { .. } | Form::Function { .. } => None,
        },
    }
}

// The lock that guards what is declared, if it is a shared global.
fn guard_of(symbols: &Symbols<'_>, form: &Form) -> Option<u32>
    ensures { result ≡ guard_of_form symbols.now form.now }
{
    match form {
        Form::Shared { lock, .. } => lock_of(symbols, lock),
        Form::Lock | Form::Table { .. } | Form::Function { .. } => None,
    }
}

// The locks that guard what the items declare.
fn guards(
    alloc: Global,
    symbols: &Symbols<'_>,
    decls: &[&Decl],
) -> Result<Vec<Option<u32>>, NoMemory>
    ensures { IfOk result (λ guards. guards.items ≡ map (λ d. guard_of_form symbols.now d.now.form) decls.now) }
{
    let mut guards = Vec::new(alloc);
    for decl in decls {
        guards.push(guard_of(symbols, &decl.form))?;
    }
    Ok(guards)
}

// The locks that names mean, in their order.
fn locks_named(alloc: Global, symbols: &Symbols<'_>, names: &[Name]) -> Result<Seq<u32>, NoMemory>
    ensures { IfOk result (λ locks. locks ≡ locks_named symbols.now names.now) }
{
    let mut locks = Vec::new(alloc);
    let mut rest = names;
    'each: while let Some((name, others)) = rest.split_first() {
        if let Some(lock) = lock_of(symbols, name) {
            locks.push(lock)?;
        }
        rest = others;
    }
    Ok(Seq::of(locks))
}

// The locks that a caller of what is declared holds.
fn holds_of(alloc: Global, symbols: &Symbols<'_>, form: &Form) -> Result<Seq<u32>, NoMemory>
    ensures { IfOk result (λ locks. locks ≡ holds_of_form symbols.now form.now) }
{
    match form {
        Form::Function { holds, .. } => locks_named(alloc, symbols, holds.as_slice()),
        Form::Lock | Form::Shared { .. } | Form::Table { .. } => Ok(Seq::of(Vec::new(alloc))),
    }
}

// The locks that callers of what the items declare hold.
fn holds(alloc: Global, symbols: &Symbols<'_>, decls: &[&Decl]) -> Result<Vec<Seq<u32>>, NoMemory>
    ensures { IfOk result (λ holds. holds.items ≡ map (λ d. holds_of_form symbols.now d.now.form) decls.now) }
{
    let mut holds = Vec::new(alloc);
    for decl in decls {
        holds.push(holds_of(alloc, symbols, &decl.form)?)?;
    }
    Ok(holds)
}

impl<'a> Table<'a> {
    /// The table of these items.
    pub fn of(alloc: Global, items: &'a [Item]) -> Result<Table<'a>, NoMemory>
        ensures { IfOk result (λ table. table ≡ map decl_of (map item_tree items.now)) }
    {
        let symbols = symbols_of(alloc, items)?;
        let decls = symbols.decls();
        let guards = guards(alloc, &symbols, decls)?;
        let holds = holds(alloc, &symbols, decls)?;
        Ok(Table {
            symbols,
            guards,
            holds,
        })
    }

    /// The lock that a name means, if it means one.
    pub fn lock(&self, name: &Name) -> Option<u32>
        ensures { result ≡ lock_named self.now name.now }
    {
        lock_of(&self.symbols, name)
    }

    /// The lock that guards what the item declares, if it is a shared global.
    pub fn guard(&self, item: u32) -> Option<u32>
        ensures { result ≡ guard_of self.now item }
    {
        match self.guards.get(item as usize) {
            Some(guard) => *guard,
            None => None,
        }
    }

    /// The locks that a caller of what the item declares holds, in the order of its `holds`.
    pub fn holds(&self, item: u32) -> &[u32]
        ensures { result.now ≡ holds_of self.now item }
    {
        match self.holds.get(item as usize) {
            Some(locks) => locks.as_slice(),
            None => &[],
        }
    }

    /// The name of what the item declares.
    pub fn name(&self, item: u32) -> &'a Name
        requires { item < length self.now }
        ensures { result.now ≡ name_of self.now item }
    {
        &self.symbols.decls()[item as usize].name
    }
}
