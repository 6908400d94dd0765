//! Objects as far as they are read.

ghost use Rattle.std.specs.Prelude.{◌≡◌, ◌+◌, ◌<◌, true, false, IfOk, nat_lt, length};
ghost use Rattle.std.specs.List.{list_all};
ghost use Rattle.cas_base.specs.Decl.{words_of_form};
ghost use Rattle.cas_object_text.specs.Labels.{uses_set};
ghost use Rattle.cas_object.specs.Drafts as spec;

use crate::body::Body;
use cas_asm::AsmFun;
use cas_base::{Decl, Global, NoMemory, Seq, Unit};
use cas_object_text::Object;
use std::alloc::Global as Allocator;
use std::marker::Model;

const WORD_LIMIT: u32 = 65536;

const FUNCTION_LIMIT: usize = 1024;

/// An object whose `end object` is still to come.
#[derive(Debug, Drop)]
pub struct Draft {
    decls: Vec<Decl>,
    globals: Vec<Global>,
    funs: Vec<AsmFun>,
    words: u32,
}

impl Model for Draft {
    ghost use Rattle.std.specs.Prelude.{◌≡◌, ◌≤◌, IsTrue};
    ghost use Rattle.std.specs.List.{list_all};
    ghost use Rattle.cas_asm.specs.declared.line.AsmFun.{AsmFun};
    ghost use Rattle.cas_base.specs.declared.decl.Unit.{Unit as Module};
    ghost use Rattle.cas_object_text.specs.Labels.{is_labelled};
    ghost use Rattle.cas_object.specs.Drafts as spec;

    ghost Value = { Module AsmFun };

    ghost view = { λ d. record { decls = d.decls.items; globals = d.globals.items; funs = d.funs.items } };

    ghost invariant = { λ d. (d.words ≡ spec.words d.globals.items) × (d.words ≤ 65536) × IsTrue
        (list_all (λ fun. is_labelled fun.lines) d.funs.items) };
}

impl Draft {
    /// No declaration yet.
    pub fn new(alloc: Allocator) -> Draft
        ensures { result ≡ spec.empty }
    {
        Draft {
            decls: Vec::new(alloc),
            globals: Vec::new(alloc),
            funs: Vec::new(alloc),
            words: 0,
        }
    }

    /// It with a name more that another object defines.
    pub fn with_extern(self, decl: Decl) -> Result<Draft, NoMemory>
        ensures { IfOk result (λ draft. draft ≡ spec.with_extern self decl) }
    {
        let Draft {
            mut decls,
            globals,
            funs,
            words,
        } = self;
        decls.push(decl)?;
        Ok(Draft {
            decls,
            globals,
            funs,
            words,
        })
    }

    /// Whether it has no room for a global or lock.
    pub fn lacks_words(&self, global: &Global) -> bool
        ensures { result ≡ nat_lt 65536 (spec.words self.now.globals + words_of_form global.now.decl.form) }
    {
        WORD_LIMIT - self.words < global.decl.form.words()
    }

    /// It with a global or lock more.
    pub fn with_data(self, alloc: Allocator, global: Global) -> Result<Draft, NoMemory>
        requires { nat_lt 65536 (spec.words self.globals + words_of_form global.decl.form) ≡ false }
        ensures { IfOk result (λ draft. draft ≡ spec.with_data self global) }
    {
        let Draft {
            mut decls,
            mut globals,
            funs,
            words,
        } = self;
        let words = words + global.decl.form.words();
        decls.push(global.decl.copy(alloc)?)?;
        globals.push(global)?;
        Ok(Draft {
            decls,
            globals,
            funs,
            words,
        })
    }

    /// Whether it has room for a function.
    pub fn has_room(&self) -> bool
        ensures { result ≡ nat_lt (length self.now.funs) 1024 }
    {
        self.funs.len() < FUNCTION_LIMIT
    }

    /// It with a function more.
    pub fn with_function(self, alloc: Allocator, body: Body) -> Result<Draft, NoMemory>
        requires { list_all (uses_set body.lines) body.lines ≡ true }
        ensures { IfOk result (λ draft. draft ≡ spec.with_function self body) }
    {
        let Draft {
            mut decls,
            globals,
            mut funs,
            words,
        } = self;
        let (decl, fun) = body.into_fun(alloc)?;
        decls.push(decl)?;
        funs.push(fun)?;
        Ok(Draft {
            decls,
            globals,
            funs,
            words,
        })
    }

    /// The object.
    pub fn finish(self) -> Object
        ensures { result.unit ≡ self }
    {
        let Draft {
            decls,
            globals,
            funs,
            ..
        } = self;
        Object {
            unit: Unit {
                decls: Seq::of(decls),
                globals: Seq::of(globals),
                funs: Seq::of(funs),
            },
        }
    }
}
