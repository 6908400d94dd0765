//! Typed modules.

ghost use Rattle.std.specs.Prelude.{◌≡◌};
ghost use Rattle.cas_syntax.specs.Tree.{module_tree};
ghost use Rattle.cas_typed.specs.Resolved.{TypedModuleTree};
ghost use Rattle.cas_typed.specs.Whole.{AreTypedAs};

use crate::rows::TypedFun;
use cas_base::Seq;
use cas_syntax::Module;

/// A typed module: the module with the values of its variables filled up with zeros, and its functions with bodies in
/// order of text. The module is formed, and there is always a resolved module that it is.
#[derive(Debug, Drop)]
pub struct Typed {
    filled: Module,
    functions: Seq<TypedFun>,
    pub ghost typed: { ∥ ((r : TypedModuleTree) × AreTypedAs (module_tree filled) functions r) ∥₁ },
}

impl Typed {
    /// The module with these functions.
    pub fn new(filled: Module, functions: Seq<TypedFun>) -> Typed
        requires { (r : TypedModuleTree) × AreTypedAs (module_tree filled) functions r }
        ensures filled { result.filled ≡ filled }
        ensures functions { result.functions ≡ functions }
    {
        Typed { filled, functions }
    }

    /// The module, whose values are filled up.
    pub fn module(&self) -> &Module
        ensures { result.now ≡ self.now.filled }
    {
        &self.filled
    }

    /// The functions with bodies, in order of text.
    pub fn functions(&self) -> &[TypedFun]
        ensures { result.now ≡ self.now.functions }
    {
        self.functions.as_slice()
    }
}
