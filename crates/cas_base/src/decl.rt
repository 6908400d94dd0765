//! Declarations, as they are in the modules of every language of the compiler: what they declare, when two of one name
//! agree, and modules as their declarations, data and functions.

ghost use Rattle.std.specs.Prelude.{◌≡◌, IfOk};
ghost use Rattle.std.specs.Cmp.Lexicographic.{pointwise};
ghost use Rattle.std.specs.List.{list_any};
ghost use Rattle.std.specs.Str.{bytes_eq};
ghost use Rattle.cas_base.specs.Ty.{same_ty, words_of_ty};
ghost use Rattle.cas_base.specs.Decl.{agrees, is_entry, is_function, is_lock, is_table, is_within, same_set, words_of_form};

use crate::kind::{Kind, Ty};
use crate::memory::NoMemory;
use crate::name::Name;
use crate::seq::Seq;
use std::alloc;

/// What a declaration declares.
#[derive(Debug, Drop, PartialEq, Eq)]
pub enum Form {
    /// A lock.
    Lock,
    /// A shared global, touched only under its lock.
    Shared {
        /// A word or an array of words.
        ty: Ty,
        /// The lock that guards it.
        lock: Name,
    },
    /// A table of constants.
    Table {
        /// A word or an array of words.
        ty: Ty,
    },
    /// A function, called only while the locks that it `holds` are held.
    Function {
        /// The type of what it returns.
        ret: Ty,
        /// The types of its parameters, in order.
        params: Seq<Ty>,
        /// The locks that its caller holds, in the order of the text.
        holds: Seq<Name>,
    },
}

/// A declaration of a module. `defined` is false if the module says `extern`, or gives no body.
#[derive(Debug, Drop, PartialEq, Eq)]
pub struct Decl {
    /// The name that it declares.
    pub name: Name,
    /// What the name stands for.
    pub form: Form,
    /// Whether the module itself has the words or the body.
    pub defined: bool,
}

/// A global that is defined, with its initial words.
#[derive(Debug, Drop, PartialEq, Eq)]
pub struct Global {
    /// Its declaration.
    pub decl: Decl,
    /// Its words' initial values, in order.
    pub values: Seq<u32>,
}

/// A module in some language of the compiler, whose functions are of the type `F`: all its declarations,
/// its data with values, and its functions.
#[derive(Debug, Drop, PartialEq, Eq)]
pub struct Unit<F> {
    /// All its declarations, in order.
    pub decls: Seq<Decl>,
    /// The globals that it defines, in order.
    pub globals: Seq<Global>,
    /// The functions that it defines, in order.
    pub funs: Seq<F>,
}

impl Form {
    /// The same form once more.
    ///
    /// # Errors
    ///
    /// `NoMemory` if it runs out of memory.
    pub fn copy(&self, alloc: alloc::Global) -> Result<Form, NoMemory>
        ensures { IfOk result (λ form. form ≡ self.now) }
    {
        match self {
            Form::Lock => Ok(Form::Lock),
            Form::Shared { ty, lock } => Ok(Form::Shared {
                ty: *ty,
                lock: lock.copy(alloc)?,
            }),
            Form::Table { ty } => Ok(Form::Table { ty: *ty }),
            Form::Function { ret, params, holds } => Ok(Form::Function {
                ret: *ret,
                params: params.copy(alloc)?,
                holds: names_copy(alloc, holds.as_slice())?,
            }),
        }
    }
}

impl Form {
    /// Whether the two are the same: in kind, type, guard or return, parameters, and set of held locks.
    pub fn agrees(&self, other: &Form) -> bool
        ensures { result ≡ agrees self.now other.now }
    {
        match (self, other) {
            (Form::Lock, Form::Lock) => true,
            (
                Form::Shared { ty, lock },
                Form::Shared {
                    ty: other,
                    lock: guard,
                },
            ) => ty.same(*other) && lock.as_str() == guard.as_str(),
            (Form::Table { ty }, Form::Table { ty: other }) => ty.same(*other),
            (
                Form::Function { ret, params, holds },
                Form::Function {
                    ret: other,
                    params: others,
                    holds: held,
                },
            ) => {
                ret.same(*other)
                    && same_types(params.as_slice(), others.as_slice())
                    && same_names(holds.as_slice(), held.as_slice())
            }
            _ => false,
        }
    }

    /// Whether a thread may enter here: it is `void f(int)`, and holds no lock.
    pub fn is_entry(&self) -> bool
        ensures { result ≡ is_entry self.now }
    {
        match self {
            Form::Function { ret, params, holds } => {
                ret.same(Ty::Void)
                    && same_types(params.as_slice(), &[Ty::Int(Kind::I32)])
                    && holds.as_slice().is_empty()
            }
            _ => false,
        }
    }

    /// Whether it is a function.
    pub fn is_function(&self) -> bool
        ensures { result ≡ is_function self.now }
    {
        matches!(self, Form::Function { .. })
    }

    /// Whether it is a table of constants.
    pub fn is_table(&self) -> bool
        ensures { result ≡ is_table self.now }
    {
        matches!(self, Form::Table { .. })
    }

    /// Whether it is a lock.
    pub fn is_lock(&self) -> bool
        ensures { result ≡ is_lock self.now }
    {
        matches!(self, Form::Lock)
    }

    /// How many words it has: one for a lock, those of its type for a global, none for a function.
    pub fn words(&self) -> u32
        ensures { result ≡ words_of_form self.now }
    {
        match self {
            Form::Lock => 1,
            Form::Shared { ty, .. } | Form::Table { ty } => ty.words(),
            Form::Function { .. } => 0,
        }
    }
}

// Whether the types are the same, one by one.
fn same_types(types: &[Ty], others: &[Ty]) -> bool
    ensures { result ≡ pointwise same_ty types.now others.now }
{
    types == others
}

// Whether the name is among the others.
fn is_among(name: &Name, others: &[Name]) -> bool
    ensures { result ≡ list_any (bytes_eq name.now) others.now }
{
    others.iter().any(|other| name.as_str() == other.as_str())
}

// Whether each name is among the others.
fn are_within(names: &[Name], others: &[Name]) -> bool
    ensures { result ≡ is_within names.now others.now }
{
    names.iter().all(|name| is_among(name, others))
}

// Whether the two lists have the same names, in whatever order.
fn same_names(names: &[Name], others: &[Name]) -> bool
    ensures { result ≡ same_set names.now others.now }
{
    are_within(names, others) && are_within(others, names)
}

// The same names in their order.
fn names_copy(alloc: alloc::Global, names: &[Name]) -> Result<Seq<Name>, NoMemory>
    ensures { IfOk result (λ copied. copied ≡ names.now) }
{
    let mut copied = Vec::new(alloc);
    for name in names {
        copied.push(name.copy(alloc)?)?;
    }
    Ok(Seq::of(copied))
}

impl Decl {
    /// The same declaration once more.
    ///
    /// # Errors
    ///
    /// `NoMemory` if it runs out of memory.
    pub fn copy(&self, alloc: alloc::Global) -> Result<Decl, NoMemory>
        ensures { IfOk result (λ decl. decl ≡ self.now) }
    {
        Ok(Decl {
            name: self.name.copy(alloc)?,
            form: self.form.copy(alloc)?,
            defined: self.defined,
        })
    }
}

impl Global {
    /// The same global once more.
    ///
    /// # Errors
    ///
    /// `NoMemory` if it runs out of memory.
    pub fn copy(&self, alloc: alloc::Global) -> Result<Global, NoMemory>
        ensures { IfOk result (λ copied. copied ≡ self.now) }
    {
        Ok(Global {
            decl: self.decl.copy(alloc)?,
            values: self.values.copy(alloc)?,
        })
    }
}
