//! How declarations are printed: as lines of an objects text, without `extern` and without values.
ghost use Rattle.std.specs.Prelude.{◌≡◌, IfOk, Some, string_bytes};
ghost use Rattle.std.specs.Fmt.{DisplaysOnOk};
ghost use Rattle.cas_base.specs.Print.{decl_text, function_text, names_text, types_text};

use crate::decl::{Decl, Form};
use crate::kind::Ty;
use crate::memory::NoMemory;
use crate::name::Name;
use std::alloc::Global;
use std::fmt;

impl fmt::Display for Decl {
    ghost output = { λ decl. Some (decl_text decl) };

    fn fmt<W: fmt::Write>(&self, f: &mut fmt::Formatter<W>) -> fmt::Result {
        let name = self.name.as_str();
        match &self.form {
            Form::Lock => write!(f, "lock {name}"),
            Form::Shared { ty, lock } => {
                let lock = lock.as_str();
                write!(f, "shared {name} {ty} {lock}")
            }
            Form::Table { ty } => write!(f, "const {name} {ty}"),
            Form::Function { ret, params, holds } => {
                write_function(f, name, *ret, params.as_slice(), holds.as_slice())
            }
        }
    }
}

// The line of a function.
fn write_function<W: fmt::Write>(
    f: &mut fmt::Formatter<W>,
    name: &str,
    ret: Ty,
    params: &[Ty],
    holds: &[Name],
) -> fmt::Result
    ensures { DisplaysOnOk W.write_str_gives f.old result
        (Some (function_text name.now ret params.now holds.now)) f.new }
{
    write!(f, "function {name} {ret} ")?;
    write_types(f, params)?;
    write!(f, " ")?;
    write_names(f, holds)
}

// How many types there are, and then each, after a space.
fn write_types<W: fmt::Write>(f: &mut fmt::Formatter<W>, types: &[Ty]) -> fmt::Result
    ensures { DisplaysOnOk W.write_str_gives f.old result (Some (types_text types.now)) f.new }
{
    let count = types.len();
    write!(f, "{count}")?;
    for ty in types {
        write!(f, " {ty}")?;
    }
    Ok(())
}

// How many names there are, and then each, after a space.
fn write_names<W: fmt::Write>(f: &mut fmt::Formatter<W>, names: &[Name]) -> fmt::Result
    ensures { DisplaysOnOk W.write_str_gives f.old result (Some (names_text names.now)) f.new }
{
    let count = names.len();
    write!(f, "{count}")?;
    for name in names {
        let name = name.as_str();
        write!(f, " {name}")?;
    }
    Ok(())
}

impl Decl {
    /// The line of an objects text that declares this, without `extern` and without values.
    pub fn print(&self, alloc: Global) -> Result<String, NoMemory>
        ensures { IfOk result (λ text. string_bytes text ≡ decl_text self.now) }
    {
        Ok(self.to_string(alloc)?)
    }
}
