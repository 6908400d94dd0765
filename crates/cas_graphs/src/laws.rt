//! What holds of graphs with other numbers.

ghost use Rattle.std.specs.Prelude.{◌≡◌, List, true};
ghost use Rattle.cas_base.specs.declared.decl.Decl.{Decl};
ghost use Rattle.cas_graphs.specs.Shortcut.{IsShortcut};
ghost use Rattle.cas_rtl.specs.Code.{rtl, rtl_graph};
ghost use Rattle.cas_rtl.specs.declared.tree.RtlFun.{RtlFun};
ghost use Rattle.cas_runs.specs.Calls.{language};
ghost use Rattle.cas_runs.specs.Unit.{FunctionRefines, defines};

/// A function of RTL whose graph is that of another with other numbers refines it, where each runs alone, among the
/// declarations of its unit.
pub fn shortcuts_refine()
    ensures { (decls : List Decl) (f g : RtlFun) → defines decls g.decl.name ≡ true
        → IsShortcut (rtl_graph f) (rtl_graph g)
        → FunctionRefines (language rtl) (language rtl) decls g.decl.name f g }
{}
