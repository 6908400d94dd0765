//! The labels that a function sets.

ghost use Rattle.std.specs.Prelude.{◌≡◌, ◌==◌, ◌++◌, ◌∷◌, [], false, IfOk};
ghost use Rattle.std.specs.List.{list_any};

use cas_base::NoMemory;
use indexmap::IndexSet;
use std::alloc::Global;
use std::marker::Model;

/// Labels that are set. Contracts see them as a list, the oldest first.
#[derive(Debug, Drop)]
pub struct Labels {
    labels: IndexSet<u32>,
}

impl Model for Labels {
    ghost use Rattle.std.specs.Prelude.{List, ℕ};

    ghost Value = { List ℕ };

    ghost view = { λ s. s.labels.keys };
}

impl Labels {
    /// No label.
    pub fn new(alloc: Global) -> Labels
        ensures { result ≡ [] }
    {
        Labels {
            labels: IndexSet::new(alloc),
        }
    }

    /// Whether a label is set.
    pub fn has(&self, label: u32) -> bool
        ensures { result ≡ list_any (λ other. other == label) self.now }
    {
        self.labels.contains(&label)
    }

    /// The label is set now, for the first time.
    pub fn note(&mut self, label: u32) -> Result<(), NoMemory>
        requires { list_any (λ other. other == label) self.old ≡ false }
        ensures { IfOk result (λ _. self.new ≡ self.old ++ label ∷ []) }
    {
        self.labels.insert(label)?;
        Ok(())
    }
}
