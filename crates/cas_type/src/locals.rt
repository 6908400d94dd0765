//! The visible locals of a function, found by their names: a table has the index of the newest one of each name, and
//! each local the index of the one that it hides, to which its name goes back with it.

ghost use Rattle.std.specs.Prelude.{ℕ, List, length, drop, take, OnOk, OnErr, IsSome, ◌≡◌, ◌≤◌, ◌-◌, ◌^◌, ◌<◌, ◌++◌, ◌∷◌, [], if◌then◌else◌};
ghost use Rattle.std.specs.List.{list_any};
ghost use Rattle.std.specs.Map.{lookup};
ghost use Rattle.std.specs.Str.{bytes_eq};
ghost use Rattle.cas_type.specs.View.{newest_of, variable_or};
ghost use Rattle.cas_typed.specs.Scopes as s;

use cas_base::{Name, NoMemory, Ty};
use cas_syntax::Ident;
use indexmap::IndexMap;
use std::alloc::Global;
use std::marker::Model;

/// A local that is visible, or is hidden by a newer one.
#[derive(Clone, Copy)]
pub struct Visible<'a> {
    pub name: &'a Name,
    /// Its number in its function.
    pub number: u32,
    pub ty: Ty,
    /// The index of the local that it hides.
    pub hidden: Option<usize>,
}

/// The locals of the open blocks. Contracts see them as a list, the newest one first.
#[derive(Drop)]
pub struct Locals<'a> {
    /// In order of declaration.
    stack: Vec<Visible<'a>>,
    /// The index of the newest one of each name.
    newest: IndexMap<&'a str, usize>,
}

impl<'a> Model for Locals<'a> {
    ghost use Rattle.std.specs.Prelude.{List, map, reverse};
    ghost use Rattle.cas_typed.specs.Scopes.{Bound};
    ghost use Rattle.cas_type.specs.View.{AreHiding, IsNewest, bound_of};

    ghost Value = { List Bound };

    ghost view = { λ l. map bound_of (reverse l.stack.items) };

    ghost invariant = { λ l. record {
      hiding : AreHiding (reverse l.stack.items);
      newest : IsNewest (map bound_of (reverse l.stack.items)) l.newest.entries;
    } };
}

// A name that is in the table goes back to the local with this index, or out of the table.
fn give_back<'a>(newest: &mut IndexMap<&'a str, usize>, name: &str, hidden: Option<usize>)
    requires { IsSome (lookup (λ key. bytes_eq name.now key.now) newest.now.entries) }
    ensures { (other : List ℕ) →
        lookup (λ key. bytes_eq other key.now) newest.new.entries ≡ if bytes_eq name.now other then hidden else lookup
        (λ key. bytes_eq other key.now) newest.old.entries }
{
    match hidden {
        Some(hidden) => {
            if let Some(index) = newest.get_mut(name) {
                *index = hidden;
            }
        }
        None => {
            newest.swap_remove(name);
        }
    }
}

impl<'a> Locals<'a> {
    /// No local.
    pub fn new(alloc: Global) -> Locals<'a>
        ensures { result ≡ [] }
    {
        Locals {
            stack: Vec::new(alloc),
            newest: IndexMap::new(alloc),
        }
    }

    /// How many there are.
    pub fn len(&self) -> usize
        ensures { result ≡ length self.now }
    {
        self.stack.len()
    }

    /// One more.
    pub fn push(&mut self, ident: &'a Ident, number: u32, ty: Ty) -> Result<(), NoMemory>
        ensures pushed { OnOk result (self.new ≡ record { name = ident.now.name; number = number; ty = ty } ∷
            self.old) }
        ensures kept { OnErr result (self.new ≡ self.old) }
    {
        let index = self.stack.len();
        let name = &ident.name;
        let hidden = self.newest.get(name.as_str()).copied();
        self.stack.push(Visible {
            name,
            number,
            ty,
            hidden,
        })?;
        match self.newest.insert(name.as_str(), index) {
            Ok(_) => Ok(()),
            Err(_) => {
                self.stack.pop();
                Err(NoMemory)
            }
        }
    }

    /// The parameters with these names and types, numbered from 0 on. The first one becomes the newest local.
    pub fn push_parameters(&mut self, params: &'a [Ident], tys: &[Ty]) -> Result<(), NoMemory>
        requires { length tys.now < 2 ^ 32 }
        ensures { OnOk result (self.new ≡ s.parameters 0 params.now tys.now ++ self.old) }
    {
        let mut left = params.len().min(tys.len());
        while left > 0 {
            left -= 1;
            self.push(&params[left], left as u32, tys[left])?;
        }
        Ok(())
    }

    // The newest one goes.
    fn pop(&mut self)
        ensures { self.new ≡ drop 1 self.old }
    {
        if let Some(local) = self.stack.pop() {
            give_back(&mut self.newest, local.name.as_str(), local.hidden);
        }
    }

    /// Only the oldest `len` ones stay.
    pub fn truncate(&mut self, len: usize)
        requires { len ≤ length self.now }
        ensures { self.new ≡ drop (length self.old - len) self.old }
    {
        while self.len() > len {
            self.pop();
        }
    }

    // The index of the newest one with a name.
    fn index(&self, name: &Name) -> Option<usize>
        ensures { result ≡ newest_of self.now name.now }
    {
        self.newest.get(name.as_str()).copied()
    }

    /// The newest one with a name.
    pub fn find(&self, name: &Name) -> Option<Visible<'a>>
        ensures { (otherwise : s.Meaning) → variable_or result otherwise ≡ s.local_named self.now name.now otherwise }
    {
        match self.index(name) {
            Some(index) => Some(self.stack[index]),
            None => None,
        }
    }

    /// Whether one with a name stands beyond the oldest `older` ones.
    pub fn is_beyond(&self, older: usize, name: &Name) -> bool
        ensures { result ≡ list_any (λ v. bytes_eq v.name name.now) (take (length self.now - older) self.now) }
    {
        match self.index(name) {
            Some(index) => index >= older,
            None => false,
        }
    }
}
