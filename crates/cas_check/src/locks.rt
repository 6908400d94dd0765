//! Sets of locks.

ghost use Rattle.std.specs.Prelude.{◌≡◌, ◌++◌, [], IfOk, OnOk};
ghost use Rattle.cas_own.specs.Locks.{differs, has, having, set_of, without};
ghost use Rattle.cas_check.specs.View.{IsFrom};

use cas_base::NoMemory;
use std::alloc::Global;
use std::marker::Model;

/// A set of locks: the numbers of the items that declare them, each greater than the one before. Contracts see it as
/// their list.
#[derive(Debug, Drop)]
pub struct Locks {
    numbers: Vec<u32>,
}

impl Model for Locks {
    ghost use Rattle.std.specs.Prelude.{List, ℕ};

    ghost Value = { List ℕ };

    ghost view = { λ s. s.numbers.items };
}

impl Locks {
    /// No lock.
    pub fn none(alloc: Global) -> Locks
        ensures { result ≡ [] }
    {
        Locks {
            numbers: Vec::new(alloc),
        }
    }

    /// The set of these locks.
    #[tactic(auto, using(crate::proofs::Added::adding_none, crate::proofs::Added::adding_last))]
    pub fn of(alloc: Global, locks: &[u32]) -> Result<Locks, NoMemory>
        ensures { IfOk result (λ set. set ≡ set_of locks.now) }
    {
        let mut set = Locks::none(alloc);
        let mut rest = locks;
        'each: while let Some((lock, others)) = rest.split_last() {
            set = set.with(alloc, *lock)?;
            rest = others;
        }
        Ok(set)
    }

    /// Whether the lock is in the set.
    pub fn has(&self, lock: u32) -> bool
        ensures { result ≡ has self.now lock }
    {
        self.numbers.iter().any(|number| *number == lock)
    }

    /// The set with a lock.
    pub fn with(&self, alloc: Global, lock: u32) -> Result<Locks, NoMemory>
        ensures { IfOk result (λ set. set ≡ having self.now lock) }
    {
        let mut numbers = Vec::new(alloc);
        let mut rest = self.numbers.as_slice();
        'each: while let Some((number, others)) = rest.split_first() {
            if *number >= lock {
                add_all(&mut numbers, lock, rest)?;
                return Ok(Locks { numbers });
            }
            numbers.push(*number)?;
            rest = others;
        }
        numbers.push(lock)?;
        Ok(Locks { numbers })
    }

    /// The set without a lock.
    pub fn without(&self, alloc: Global, lock: u32) -> Result<Locks, NoMemory>
        ensures { IfOk result (λ set. set ≡ without self.now lock) }
    {
        let mut numbers = Vec::new(alloc);
        let mut rest = self.numbers.as_slice();
        'each: while let Some((number, others)) = rest.split_first() {
            if *number == lock {
                numbers.extend_from_slice(others)?;
                return Ok(Locks { numbers });
            }
            numbers.push(*number)?;
            rest = others;
        }
        Ok(Locks { numbers })
    }

    /// The first lock that is in one set and not in the other.
    pub fn differs(&self, other: &Locks) -> Option<u32>
        ensures { result ≡ differs self.now other.now }
    {
        let mut rest = self.numbers.as_slice();
        let mut left = other.numbers.as_slice();
        'each: while let Some((lock, locks)) = rest.split_first() {
            match left.split_first() {
                None => return Some(*lock),
                Some((number, numbers)) => {
                    if *lock != *number {
                        return Some((*lock).min(*number));
                    }
                    rest = locks;
                    left = numbers;
                }
            }
        }
        left.first().copied()
    }
}

// A lock and then others, the first of which may be the same and isn't less.
fn add_all(numbers: &mut Vec<u32>, lock: u32, others: &[u32]) -> Result<(), NoMemory>
    requires { IsFrom lock others.now }
    ensures { OnOk result (numbers.new.items ≡ numbers.old.items ++ having others.now lock) }
{
    if others.first() != Some(&lock) {
        numbers.push(lock)?;
    }
    numbers.extend_from_slice(others)?;
    Ok(())
}
