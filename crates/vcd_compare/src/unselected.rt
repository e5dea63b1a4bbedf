//! Which names select nothing.
ghost use Rattle.std.specs.Prelude.{◌≡◌, ◌++◌, ◌∷◌, [], ◌≤◌, ℕ, List, None, false, get_or, length, IfErr, IfOk};
ghost use Rattle.std.specs.List.{AllZip};
ghost use Rattle.vcd_model.specs.Compare.{Asked};
ghost use Rattle.vcd_model.specs.Header.{Header};
ghost use Rattle.vcd_model.specs.Within.{Names, unselected};
ghost use Rattle.vcd_compare.specs.HasPairs.{AreNumbersOf};
ghost use Rattle.vcd_compare.specs.Paths.{HasTexts, IsNumberOf};
ghost use Rattle.vcd_compare.specs.Selected.{both_names};
ghost use Rattle.vcd_compare.specs.Unselected.{AreHeld, AreMarkedUp, IsFaultOf, first_unheld};
ghost use Rattle.vcd_compare.specs.Variables.{AreVariables};
ghost use Rattle.vcd_compare.specs.declared.unselected.PairsFault.TheVariants.{OutOfMemory};

use crate::paths::{Paths, node_at};
use crate::variables::Variables;
use std::alloc::{AllocError, Global};

/// Why there are no pairs.
#[derive(Clone, Copy, PartialEq, Eq, Debug)]
pub enum PairsFault {
    /// The first name of the pair at this index selects no variable.
    One(usize),
    /// The second name of the pair at this index selects no variable.
    Other(usize),
    /// The exception at this index selects no variable.
    Exception(usize),
    /// Memory ran out.
    OutOfMemory,
}

impl From<AllocError> for PairsFault {
    ghost from_gives = { λ _ e. e ≡ OutOfMemory };

    /// Returns `OutOfMemory`.
    fn from(_error: AllocError) -> Self {
        PairsFault::OutOfMemory
    }
}

/// Fails if one of these names selects no variable, whether that is left out or not: with the first
/// such name of the pairs, otherwise with the first such exception. The names are given by the
/// numbers of their paths. Also fails if memory runs out.
pub(crate) fn refuse_unselected(
    alloc: Global,
    paths: &Paths,
    variables: &Variables,
    names: &[(usize, usize)],
    exceptions: &[usize],
) -> Result<(), PairsFault>
    ensures selected { IfOk result (λ _. (q : Asked) (h : Header) (ns : List Names)
        (texts : List (List ℕ)) → HasTexts paths.now texts → AreVariables h texts variables.now
        → AllZip (AreNumbersOf texts) names.now ns
        → AllZip (IsNumberOf texts) exceptions.now q.exceptions → unselected q h ns ≡ None) }
    ensures faults { IfErr result (λ fault. (q : Asked) (h : Header) (ns : List Names)
        (texts : List (List ℕ)) → HasTexts paths.now texts → AreVariables h texts variables.now
        → AllZip (AreNumbersOf texts) names.now ns
        → AllZip (IsNumberOf texts) exceptions.now q.exceptions → IsFaultOf q h ns fault) }
{
    let held = held_by(alloc, paths, variables)?;
    refuse_names(&held, names)?;
    refuse_exceptions(&held, exceptions)
}

/// Fails with the first of these names that selects no variable. `held` says of each path whether
/// some variable has it or is inside it.
fn refuse_names(held: &[bool], names: &[(usize, usize)]) -> Result<(), PairsFault>
    ensures selected { IfOk result (λ _. (h : Header) (ns : List Names) (texts : List (List ℕ))
        → AreHeld h texts held.now → AllZip (AreNumbersOf texts) names.now ns
        → first_unheld h (both_names ns) ≡ None) }
    ensures faults { IfErr result (λ fault. (q : Asked) (h : Header) (ns : List Names)
        (texts : List (List ℕ)) → AreHeld h texts held.now
        → AllZip (AreNumbersOf texts) names.now ns → IsFaultOf q h ns fault) }
{
    for index in 0..names.len() {
        let (one, other) = names[index];
        if !is_held(held, one) {
            return Err(PairsFault::One(index));
        }
        if !is_held(held, other) {
            return Err(PairsFault::Other(index));
        }
    }
    Ok(())
}

/// Fails with the first of these exceptions that selects no variable. `held` says of each path
/// whether some variable has it or is inside it.
fn refuse_exceptions(held: &[bool], exceptions: &[usize]) -> Result<(), PairsFault>
    ensures selected { IfOk result (λ _. (h : Header) (es texts : List (List ℕ))
        → AreHeld h texts held.now → AllZip (IsNumberOf texts) exceptions.now es
        → first_unheld h es ≡ None) }
    ensures faults { IfErr result (λ fault. (q : Asked) (h : Header) (ns : List Names)
        (texts : List (List ℕ)) → AreHeld h texts held.now
        → AllZip (IsNumberOf texts) exceptions.now q.exceptions
        → first_unheld h (both_names ns) ≡ None → IsFaultOf q h ns fault) }
{
    for index in 0..exceptions.len() {
        if !is_held(held, exceptions[index]) {
            return Err(PairsFault::Exception(index));
        }
    }
    Ok(())
}

/// Returns for 0 and the number of each path whether some variable has this path or is inside it.
/// The time grows with the number of paths.
fn held_by(alloc: Global, paths: &Paths, variables: &Variables) -> Result<Vec<bool>, AllocError>
    ensures { IfOk result (λ held. (h : Header) (texts : List (List ℕ)) → HasTexts paths.now texts
        → AreVariables h texts variables.now → AreHeld h texts held.items) }
{
    let mut held = vec![in alloc; false; paths.nodes.len() + 1]?;
    for path in &variables.paths {
        mark_around(paths, *path, &mut held);
    }
    Ok(held)
}

/// Marks the path with this number and those around it, up to the first that is marked.
fn mark_around(paths: &Paths, from: usize, held: &mut Vec<bool>)
    ensures { (texts : List (List ℕ)) (before : List ℕ) → HasTexts paths.now texts
        → from ≤ length texts → AreMarkedUp texts before held.old.items
        → AreMarkedUp texts (before ++ from ∷ []) held.new.items }
{
    let mut number = from;
    while number > 0 && number < held.len() && !is_held(held, number) {
        held[number] = true;
        let (around, _) = node_at(&paths.nodes, number);
        number = around.min(number - 1);
    }
}

/// Returns whether the path with this number is marked.
fn is_held(held: &[bool], number: usize) -> bool
    ensures { result ≡ get_or held.now number false }
{
    held.get(number).copied().unwrap_or(false)
}
