//! Functions with bodies: the body is walked first, then its counts are tested.

ghost use Rattle.std.specs.Prelude.{◌≡◌, ◌≤◌, ◌++◌, ◌∷◌, [], ℕ, List, IfOk, OnOk, Ok, length, map, sum};
ghost use Rattle.cas_base.specs.Ty.{words_of_ty};
ghost use Rattle.cas_syntax.specs.Tree.{fun_tree};
ghost use Rattle.cas_type.specs.Answer.{Passes};
ghost use Rattle.cas_type.specs.Whole_walk.{GivesFunction};
ghost use Rattle.cas_typed.specs.Counts as c;
ghost use Rattle.cas_typed.specs.Faults.{above, sooner, unless};
ghost use Rattle.cas_typed.specs.Modules as m;
ghost use Rattle.cas_typed.specs.Numbered.{AreRows, size_of_list};
ghost use Rattle.cas_typed.specs.Resolved.{TypedStmtList};
ghost use Rattle.cas_typed.specs.Scopes as s;
ghost use Rattle.cas_typed.specs.Walk as w;
ghost use Rattle.cas_typed.specs.declared.fault.TypeCount.TheVariants.{Cells, Nodes};

use crate::body::{Walked, body};
use crate::counts::{MOST_CELLS, MOST_NODES, check_count, count_cells, count_stmts};
use crate::fault::TypeFault;
use crate::item::parameter_types;
use crate::marks::{all_types, locals, marks};
use crate::pointers::of_rows;
use crate::scope::Scopes;
use cas_base::{NoMemory, Seq, Ty};
use cas_syntax::Fun;
use cas_typed::{Local, StmtRow, TypeCount, TypedFun, return_type};
use std::alloc::Global;

// The counts of a function that has locals of these types.
fn check_sizes(fun: &Fun, tys: &[Ty]) -> Result<(), TypeFault>
    requires { tys.now ≡ c.local_types (fun_tree fun.now) }
    ensures counts { Passes result (sooner (above c.most_cells fun.now.place Cells (c.cells_of (fun_tree fun.now)))
        (above c.most_nodes fun.now.place Nodes (c.nodes_of (fun_tree fun.now)))) }
    ensures few { OnOk result (sum (map words_of_ty tys.now) ≤ c.most_cells) }
{
    check_count(MOST_CELLS, fun.place, TypeCount::Cells, count_cells(0, tys))?;
    check_count(
        MOST_NODES,
        fun.place,
        TypeCount::Nodes,
        count_stmts(0, fun.body.as_slice()),
    )
}

// The locals of these types in a function with these rows.
fn locals_of(alloc: Global, rows: &[StmtRow], tys: &[Ty]) -> Result<Seq<Local>, NoMemory>
    requires { sum (map words_of_ty tys.now) ≤ c.most_cells }
    ensures { (bs : TypedStmtList) (ns : List ℕ) → AreRows rows.now 0 bs ns → length rows.now ≡ size_of_list bs
        → IfOk result (λ locals. locals ≡ m.locals_in bs 0 0 tys.now) }
{
    let numbers = of_rows(alloc, rows)?;
    let marks = marks(alloc, &numbers, tys.len())?;
    locals(alloc, &marks, tys)
}

// A function whose body is typed so.
fn finished(alloc: Global, item: u32, fun: &Fun, walked: Walked) -> Result<TypedFun, TypeFault>
    requires { walked.locals ≡ s.locals_of_list (fun_tree fun.now).body }
    ensures { (bs : TypedStmtList) → AreRows walked.rows 0 bs walked.body → length walked.rows ≡ size_of_list bs
        → GivesFunction result (unless (sooner (above c.most_cells fun.now.place Cells (c.cells_of (fun_tree fun.now)))
        (above c.most_nodes fun.now.place Nodes (c.nodes_of (fun_tree fun.now))))
        (Ok (record { item = item; locals = m.locals_in bs 0 0 (c.local_types (fun_tree fun.now)); body = bs }))) }
{
    let tys = all_types(
        alloc,
        parameter_types(&fun.decl.form),
        walked.locals.as_slice(),
    )?;
    check_sizes(fun, &tys)?;
    let locals = locals_of(alloc, walked.rows.as_slice(), &tys)?;
    Ok(TypedFun {
        item,
        locals,
        rows: walked.rows,
        body: walked.body,
    })
}

/// A function with a body, which is declared here; its item's number is how many items are declared before.
pub fn function<'a>(
    alloc: Global,
    scopes: &mut Scopes<'a>,
    fun: &'a Fun,
) -> Result<TypedFun, TypeFault>
    ensures walked { GivesFunction result (w.walk_function scopes.old.decls (fun_tree fun.now)) }
    ensures decls { OnOk result (scopes.new.decls ≡ scopes.old.decls ++ fun.now.decl ∷ []) }
{
    let item = scopes.symbols().len();
    let form = &fun.decl.form;
    scopes.item(&fun.decl)?;
    scopes.begin(fun.params.as_slice(), parameter_types(form))?;
    let walked = body(alloc, scopes, return_type(form), fun.body.as_slice())?;
    finished(alloc, item, fun, walked)
}
