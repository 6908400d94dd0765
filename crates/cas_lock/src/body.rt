//! Where a body differs from the accepted one.

ghost use Rattle.std.specs.Prelude.{◌≡◌, length};
ghost use Rattle.cas_lock.specs.Bodies as spec;

use crate::step::Step;
use cas_pieces::Word;

/// A label of a lock text.
#[derive(Debug, Drop)]
pub struct Label<'a> {
    /// Its name.
    pub name: Word<'a>,
    /// How many instructions are before it.
    pub place: usize,
}

/// The number, from 0, of the first instruction that differs from the accepted body, or None where none does.
pub fn first_difference(labels: &[Label], steps: &[Step]) -> Option<usize>
    ensures { result ≡ spec.first_difference labels.now steps.now }
{
    match first_misfit(labels, steps) {
        Some(k) => Some(k),
        None if steps.len() > 8 => Some(8),
        None => None,
    }
}

// The first of the eight instructions that isn't the accepted one.
fn first_misfit(labels: &[Label], steps: &[Step]) -> Option<usize>
    ensures { result ≡ spec.first_misfit labels.now steps.now }
{
    [0, 1, 2, 3, 4, 5, 6, 7]
        .iter()
        .position(|k| !fits(labels, steps, *k))
}

// Whether an instruction and its labels are the accepted ones.
fn fits(labels: &[Label], steps: &[Step], k: usize) -> bool
    ensures { result ≡ spec.fits labels.now steps.now k }
{
    match steps.get(k) {
        Some(step) => fits_step(labels, k, step) && fits_labels(labels, k),
        None => false,
    }
}

fn fits_step(labels: &[Label], k: usize, step: &Step) -> bool
    ensures { result ≡ spec.fits_step labels.now k step.now }
{
    match step {
        Step::LockDec => k == 0,
        Step::Jns(label) => k == 1 && is_target(labels, label.as_str(), 5),
        Step::CmpZero => k == 2,
        Step::Jle(label) => k == 3 && is_target(labels, label.as_str(), 2),
        Step::Jmp(label) => k == 4 && is_target(labels, label.as_str(), 0),
        Step::Ret => k == 5 || k == 7,
        Step::MovOne => k == 6,
        Step::Other => false,
    }
}

// Whether `lock` and `unlock` are at an instruction just where they ought to be.
fn fits_labels(labels: &[Label], k: usize) -> bool
    ensures { result ≡ spec.fits_labels labels.now k }
{
    (k == 0) == is_label(labels, "lock", k) && (k == 6) == is_label(labels, "unlock", k)
}

// Whether a label is set once, and before this instruction.
fn is_target(labels: &[Label], name: &str, k: usize) -> bool
    ensures { result ≡ spec.is_target labels.now name.now k }
{
    times_set(labels, name) == 1 && is_label(labels, name, k)
}

// How often a label is set.
fn times_set(labels: &[Label], name: &str) -> usize
    ensures { result ≡ spec.times_set labels.now name.now }
{
    labels
        .iter()
        .filter(|label| label.name.as_str() == name)
        .count()
}

// Whether a label is set before this instruction.
fn is_label(labels: &[Label], name: &str, k: usize) -> bool
    ensures { result ≡ spec.is_label labels.now name.now k }
{
    labels
        .iter()
        .any(|label| label.name.as_str() == name && label.place == k)
}
