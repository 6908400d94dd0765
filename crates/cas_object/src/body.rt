//! Functions as far as they are read.

ghost use Rattle.std.specs.Prelude.{◌≡◌, true, false, IfOk, IsTrue, nat_lt};
ghost use Rattle.std.specs.List.{list_all};
ghost use Rattle.cas_asm.specs.declared.line.Line.{Line};
ghost use Rattle.cas_asm.specs.declared.line.Line.TheVariants.{Label, Run};
ghost use Rattle.cas_object_text.specs.Labels as set;
ghost use Rattle.cas_object.specs.Bodies as spec;
ghost use Rattle.cas_object.specs.Drafts.{fun_of};

use crate::labels::Labels;
use cas_asm::{AsmFun, Instr, Line, Target};
use cas_base::{Decl, NoMemory, Seq};
use std::alloc::Global;
use std::marker::Model;

const INSTRUCTION_LIMIT: u32 = 4194304;

/// A function whose `end` is still to come.
#[derive(Debug, Drop)]
pub struct Body {
    decl: Decl,
    lines: Vec<Line>,
    labels: Labels,
    instructions: u32,
}

impl Model for Body {
    ghost use Rattle.std.specs.Prelude.{◌≡◌, ◌≤◌, IsTrue};
    ghost use Rattle.cas_object.specs.Bodies as spec;
    ghost use Rattle.cas_object.specs.Bodies.{Body};
    ghost use Rattle.cas_object_text.specs.Labels.{are_distinct};

    ghost Value = { Body };

    ghost view = { λ b. record { decl = b.decl; lines = b.lines.items } };

    ghost invariant = { λ b. (spec.AreLabelsOf b.lines.items b.labels) × (b.instructions
        ≡ spec.instructions b.lines.items) × (b.instructions ≤ 4194304) × IsTrue (are_distinct b.lines.items) };
}

impl Body {
    /// The function with this declaration, which has no line yet.
    pub fn new(alloc: Global, decl: Decl) -> Body
        ensures { result ≡ spec.opened decl }
    {
        Body {
            decl,
            lines: Vec::new(alloc),
            labels: Labels::new(alloc),
            instructions: 0,
        }
    }

    /// Whether a label is set.
    pub fn sets(&self, label: u32) -> bool
        ensures { result ≡ set.is_set self.now.lines label }
    {
        self.labels.has(label)
    }

    /// Whether it has room for an instruction.
    pub fn has_room(&self) -> bool
        ensures { result ≡ nat_lt (spec.instructions self.now.lines) 4194304 }
    {
        self.instructions < INSTRUCTION_LIMIT
    }

    /// It with a label more.
    pub fn with_label(self, label: u32) -> Result<Body, NoMemory>
        requires { set.is_set self.lines label ≡ false }
        ensures { IfOk result (λ body. body ≡ spec.with_line self (Label label)) }
    {
        let Body {
            decl,
            mut lines,
            mut labels,
            instructions,
        } = self;
        labels.note(label)?;
        lines.push(Line::Label(label))?;
        Ok(Body {
            decl,
            lines,
            labels,
            instructions,
        })
    }

    /// It with an instruction more.
    pub fn with_instr(self, instr: Instr) -> Result<Body, NoMemory>
        requires { nat_lt (spec.instructions self.lines) 4194304 ≡ true }
        ensures { IfOk result (λ body. body ≡ spec.with_line self (Run instr)) }
    {
        let Body {
            decl,
            mut lines,
            labels,
            instructions,
        } = self;
        lines.push(Line::Run(instr))?;
        Ok(Body {
            decl,
            lines,
            labels,
            instructions: instructions + 1,
        })
    }

    /// Whether each label that it uses is set.
    pub fn is_complete(&self) -> bool
        ensures { result ≡ list_all (set.uses_set self.now.lines) self.now.lines }
    {
        self.lines.iter().all(|line| self.has_used(line))
    }

    // Whether the label that a line uses, if it uses one, is set.
    fn has_used(&self, line: &Line) -> bool
        ensures { result ≡ set.uses_set self.now.lines line.now }
    {
        match line {
            Line::Label(_) => true,
            Line::Run(Instr::Jmp(Target::Label(label))) => self.sets(*label),
            Line::Run(Instr::JumpIf(_, label)) => self.sets(*label),
            Line::Run(_) => true,
        }
    }

    /// Its declaration, and the function that it is.
    pub fn into_fun(self, alloc: Global) -> Result<(Decl, AsmFun), NoMemory>
        requires { list_all (set.uses_set self.lines) self.lines ≡ true }
        ensures whole { IfOk result (λ p. (p.0 ≡ self.decl) × (p.1 ≡ fun_of self)) }
        ensures labelled { IfOk result (λ p. IsTrue (set.is_labelled p.1.lines)) }
    {
        let Body { decl, lines, .. } = self;
        let name = decl.name.copy(alloc)?;
        let lines = Seq::of(lines);
        Ok((decl, AsmFun { name, lines }))
    }
}
