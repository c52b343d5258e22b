//! Results gathered before they are used.
//!
//! A proof pays for each owned value that has to be dropped where a later call fails, and much for a tree. These functions are
//! proved once, for every type: a caller that gathers its results here drops none itself.
ghost use Rattle.std.specs.Prelude.{◌≡◌, Ok, IfOk, [], ◌∷◌, ◌++◌};

use sqlite_items::{Boxed, Items};
use std::alloc::{AllocError, Global};

/// The value in a box.
pub fn in_box<T: Drop>(alloc: Global, value: Result<T, AllocError>) -> Result<Boxed<T>, AllocError>
    ensures { IfOk result (λ b. value ≡ Ok b) }
{
    match value {
        Ok(value) => Boxed::new(alloc, value),
        Err(error) => Err(error),
    }
}

/// The list of one item.
pub fn one<T: Drop>(alloc: Global, item: T) -> Result<Items<T>, AllocError>
    ensures { IfOk result (λ it. it ≡ item ∷ []) }
{
    let mut all = Items::new(alloc);
    all.push(item)?;
    Ok(all)
}

/// A list, and behind it what another holds.
pub fn joined<T: Drop>(mut all: Items<T>, more: Items<T>) -> Result<Items<T>, AllocError>
    ensures { IfOk result (λ r. r ≡ all ++ more) }
{
    all.append(more)?;
    Ok(all)
}

/// Three lists as one.
pub fn joined_three<T: Drop>(
    first: Items<T>,
    second: Items<T>,
    third: Items<T>,
) -> Result<Items<T>, AllocError>
    ensures { IfOk result (λ r. r ≡ (first ++ second) ++ third) }
{
    let all = joined(first, second)?;
    joined(all, third)
}

/// Both values, or the first error.
pub fn two<A: Drop, B: Drop, E: Drop>(a: Result<A, E>, b: Result<B, E>) -> Result<(A, B), E>
    ensures first { IfOk result (λ it. a ≡ Ok it.0) }
    ensures second { IfOk result (λ it. b ≡ Ok it.1) }
{
    match a {
        Ok(a) => beside(a, b),
        Err(error) => Err(error),
    }
}

/// A value and the one that comes beside it.
fn beside<A: Drop, B: Drop, E: Drop>(a: A, b: Result<B, E>) -> Result<(A, B), E>
    ensures first { IfOk result (λ it. a ≡ it.0) }
    ensures second { IfOk result (λ it. b ≡ Ok it.1) }
{
    match b {
        Ok(b) => Ok((a, b)),
        Err(error) => Err(error),
    }
}

/// All three values, or the first error.
pub fn three<A: Drop, B: Drop, C: Drop, E: Drop>(
    a: Result<A, E>,
    b: Result<B, E>,
    c: Result<C, E>,
) -> Result<(A, B, C), E>
    ensures first { IfOk result (λ it. a ≡ Ok it.0) }
    ensures second { IfOk result (λ it. b ≡ Ok it.1) }
    ensures third { IfOk result (λ it. c ≡ Ok it.2) }
{
    match two(a, b) {
        Ok((a, b)) => match c {
            Ok(c) => Ok((a, b, c)),
            Err(error) => Err(error),
        },
        Err(error) => Err(error),
    }
}

/// A value kept, and another dropped.
pub fn kept<A, B: Drop>(value: A, _dropped: B) -> A
    ensures { result ≡ value }
{
    value
}
