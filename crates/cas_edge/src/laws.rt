//! Laws of the edge of a settled program.

ghost use Rattle.std.specs.Prelude.{◌≡◌, ℕ, Bool, List, Some, map, slice_get};
ghost use Rattle.std.specs.List.{AllByRecursion};
ghost use Rattle.cas_base.specs.declared.decl.Decl.{Decl};
ghost use Rattle.cas_base.specs.declared.decl.Unit.{Unit as UnitOf};
ghost use Rattle.cas_base.specs.Unit.{IsInOrder};
ghost use Rattle.cas_settle.specs.Settle.{IsSettled};
ghost use Rattle.cas_edge.specs.Edges.{HasItsValues, edge_of};
ghost use Rattle.cas_runs.specs.Label.{Each, NameBytes};
ghost use Rattle.cas_runs.specs.Unit.{FitsProgram, FitsUnit, IsCode, IsStack, Language, Setting, all_globals, at_unit};

/// Where units settle with their entries, and their data and functions are their defined declarations in order, each
/// global with its values, the edge of the units fits their program with each entry.
pub fn settled_programs_fit<F, S>()
    ensures { (l : Language F S) (decl_of : F → Decl) (units : List (UnitOf F)) (entries : List NameBytes)
        (inside : NameBytes → Bool) → ((f : F) → (decl_of f).name ≡ l.name f)
        → IsSettled (map (λ u. u.decls) units) entries
        → AllByRecursion (IsInOrder decl_of) units → Each (λ g. HasItsValues g.decl.form g.values) (all_globals units)
        → (i : ℕ) (entry : NameBytes) → slice_get entries i ≡ Some entry
        → FitsProgram l (edge_of inside units) units entry }
{}

/// So it fits each of the units, where their functions are inside, on each stack and wherever the code can stand.
pub fn settled_units_fit<F>()
    ensures { (decl_of : F → Decl) (units : List (UnitOf F)) (entries : List NameBytes)
        (inside : NameBytes → Bool) (setting : Setting) → IsSettled (map (λ u. u.decls) units) entries
        → AllByRecursion (IsInOrder decl_of) units → Each (λ g. HasItsValues g.decl.form g.values) (all_globals units)
        → setting.edge ≡ edge_of inside units → IsStack setting.edge setting.stack
        → IsCode setting.code setting.edge.functions → (j : ℕ) (unit : UnitOf F) → slice_get units j ≡ Some unit
        → FitsUnit (at_unit setting unit.decls) unit.decls unit.globals }
{}
