//! Laws of the definitions, each the contract of a function without effect.

ghost use Rattle.std.specs.Prelude.{◌≡◌, ◌⊎◌, ◌↔◌, ◌<◌, ℕ, List, map, Some, Ok, slice_get, All};
ghost use Rattle.cas_base.specs.Decl.{functions_of};
ghost use Rattle.cas_base.specs.declared.decl.Decl.{Decl};
ghost use Rattle.cas_base.specs.declared.place.Place.{Place};
ghost use Rattle.cas_syntax.specs.Alike.{IsAlike};
ghost use Rattle.cas_syntax.specs.Reading.{IsReadAs};
ghost use Rattle.cas_syntax.specs.Tree.{ModuleTree};
ghost use Rattle.cas_typed.specs.Bodies.{bodies_of, HasBodies, IsDefined};
ghost use Rattle.cas_typed.specs.Faults.{Fault};
ghost use Rattle.cas_typed.specs.Formed.{IsFormed, IsFilled};
ghost use Rattle.cas_typed.specs.Literals.{ModuleHasWords};
ghost use Rattle.cas_typed.specs.Modules.{decl_of, decls_of, IsTyped};
ghost use Rattle.cas_typed.specs.Numbered.{IsFunctionOf, IsRow, parts_of};
ghost use Rattle.cas_typed.specs.Resolved.{TypedFunTree, TypedModuleTree, TypedStmtTree};
ghost use Rattle.cas_typed.specs.Sorts.{IsSortedModule};
ghost use Rattle.cas_typed.specs.Typed_as.{IsTypedAs};
ghost use Rattle.cas_typed.specs.declared.rows.StmtRow.{StmtRow};
ghost use Rattle.cas_typed.specs.declared.rows.TypedFun.{TypedFun};
ghost use Rattle.cas_typed.specs.declared.typed.Typed.{Typed};
ghost use Rattle.cas_typed.specs.declared.rows.StmtRowForm.{StmtRowForm};
ghost use Rattle.cas_typed.specs.Walk.{walk_module, HasTypeFault};

/// The rules of types hold of a module exactly if the walk through it meets no fault, and with what it is resolved
/// to there. So each module is typed in one way, or has one first fault, and never both.
pub fn modules_are_typed_or_refused()
    ensures walk { (m : ModuleTree) (r : TypedModuleTree) → IsTyped m r ↔ (walk_module m ≡ Ok r) }
    ensures either { (m : ModuleTree) → ((r : TypedModuleTree) × IsTyped m r) ⊎ ((f : Fault) × HasTypeFault m f) }
    ensures one_way { (m : ModuleTree) (r s : TypedModuleTree) → IsTyped m r → IsTyped m s → r ≡ s }
    ensures one_fault { (m : ModuleTree) (f g : Fault) → HasTypeFault m f → HasTypeFault m g → f ≡ g }
    ensures not_both { (m : ModuleTree) (r : TypedModuleTree) (f : Fault) → IsTyped m r → ¬ (HasTypeFault m f) }
{}

/// A module with its values filled up is typed as the module itself, so the filled module alone says what is typed; and
/// each variable that it defines has as many values as elements.
pub fn typed_modules_are_filled()
    ensures typed { (m : ModuleTree) (r : TypedModuleTree) → IsTyped m r → IsTyped r.module_tree r }
    ensures values { (m : ModuleTree) (r : TypedModuleTree) → IsTyped m r → IsFilled r.module_tree }
{}

/// The parts of a statement's row have greater numbers than it.
pub fn parts_of_rows_are_later()
    ensures { (rows : List StmtRow) (n : ℕ) (a : TypedStmtTree) (p : Place) (form : StmtRowForm) → IsRow rows n a p form
        → All (λ i. n < i) (parts_of form) }
{}

/// The functions of a typed module are well sorted: locals and items are there and of the wanted types, operators have
/// words or pointers as they want them, each value that is written, given or returned has the type that it goes to, and
/// `break` and `continue` stand in loops.
pub fn typed_functions_are_sorted()
    ensures { (m : ModuleTree) (r : TypedModuleTree) → IsTyped m r → IsSortedModule r }
{}

/// A typed module has one function for each item with a body, in order of text: it has that item's number, and its
/// locals have the types of the parameters and then of the body's locals. Where each item declares what it is, these
/// are the functions that the module's declarations define, in the same order.
pub fn typed_modules_have_bodies()
    ensures bodies { (m : ModuleTree) (r : TypedModuleTree) → IsTyped m r → HasBodies r }
    ensures declared { (m : ModuleTree) → IsFormed m
        → functions_of (map decl_of m.items) ≡ map (λ f. f.decl) (bodies_of m.items) }
    ensures defined { (m : ModuleTree) (r : TypedModuleTree) (n : ℕ) (d : Decl) → IsFormed m → IsTyped m r
        → slice_get (functions_of (decls_of r)) n ≡ Some d → IsDefined r n d }
{}

/// What a text is read as is formed: its literals and the lengths of arrays are words, its initial values are values of
/// their kinds, and each of its items declares what it is. So is a module that is alike but for places, as one that a
/// program makes. It stays so when it is typed: the literals of its resolved functions are words, and its values are of
/// their kinds when zeros have filled them up.
pub fn read_modules_are_formed()
    ensures read { (text : List ℕ) (m : ModuleTree) → IsReadAs text m → IsFormed m }
    ensures alike { (m other : ModuleTree) → IsAlike m other → IsFormed m → IsFormed other }
    ensures filled { (m : ModuleTree) (r : TypedModuleTree) → IsFormed m → IsTyped m r → IsFormed r.module_tree }
    ensures resolved { (m : ModuleTree) (r : TypedModuleTree) → IsFormed m → IsTyped m r → ModuleHasWords r }
{}

/// A typed module of the code is one resolved module; and in each function the parts of a row have greater numbers than
/// it has, since each row stands for a statement.
pub fn typed_modules_are_one()
    ensures one { (typed : Typed) (r s : TypedModuleTree) → IsTypedAs typed r → IsTypedAs typed s → r ≡ s }
    ensures later { (r : TypedFunTree) (f : TypedFun) (n : ℕ) (row : StmtRow) → IsFunctionOf r f →
        slice_get f.rows n ≡ Some row
        → All (λ i. n < i) (parts_of row.form) }
{}
