//! Checked modules.

ghost use Rattle.std.specs.Prelude.{◌≡◌};
ghost use Rattle.cas_own.specs.Checked.{IsChecked};
ghost use Rattle.cas_typed.specs.Resolved.{TypedModuleTree};
ghost use Rattle.cas_typed.specs.Typed_as.{IsTypedAs};

use cas_typed::Typed;

/// A typed module whose ownership is checked: the resolved module that it is has no fault.
#[derive(Debug, Drop)]
pub struct Checked {
    typed: Typed,
    pub ghost checked: { ∥ ((r : TypedModuleTree) × IsTypedAs typed r × IsChecked r) ∥₁ },
}

impl Checked {
    /// A typed module that is checked, as such.
    pub fn new(typed: Typed) -> Checked
        requires { (r : TypedModuleTree) → IsTypedAs typed r → IsChecked r }
        ensures { result.typed ≡ typed }
    {
        Checked { typed }
    }

    /// The typed module.
    pub fn typed(&self) -> &Typed
        ensures { result.now ≡ self.now.typed }
    {
        &self.typed
    }

    /// The typed module, without what is known of it.
    pub fn into_typed(self) -> Typed
        ensures { result ≡ self.typed }
    {
        let Checked { typed } = self;
        typed
    }
}
