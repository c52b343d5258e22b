//! Which orders to repair are built.
ghost use Rattle.std.specs.Prelude.{◌≡◌, ◌∷◌, [], ◌-◌, ◌^◌, min, nat_le, option_and_then, None, IfOk, MatchOption};
ghost use Rattle.ax_top.specs.Built.{IsPicked, are_comparisons, binaries, built_slot, candidate_at, is_plain, only, small_slot};

use ax_prog::{Expr, Program, Sets, SlotId};
use std::alloc::{AllocError, Global};

// The binary operators of a tree, or 4294967295 where there are more.
#[tactic(auto, using(crate::proofs::Binaries::binary_layers))]
fn binary_count(tree: &Expr) -> u32
    ensures { result ≡ min (binaries tree.now) (2 ^ 32 - 1) }
{
    match tree {
        Expr::Num(_) => 0,
        Expr::Atom(_) => 0,
        Expr::Un(_, a) => binary_count(a.get()),
        Expr::Bin(_, a, b) => {
            let a = binary_count(a.get()) as u64;
            capped(a + binary_count(b.get()) as u64 + 1)
        }
        Expr::Cond(f, a, b) => {
            let f = binary_count(f.get()) as u64;
            let a = binary_count(a.get()) as u64;
            capped(f + a + binary_count(b.get()) as u64)
        }
    }
}

fn capped(n: u64) -> u32
    ensures { result ≡ min n (2 ^ 32 - 1) }
{
    if n < 4294967295 { n as u32 } else { 4294967295 }
}

// Whether no node is a unary operator or a `?:`.
#[tactic(auto, using(crate::proofs::Binaries::plain_layers))]
fn is_plain(tree: &Expr) -> bool
    ensures { result ≡ is_plain tree.now }
{
    match tree {
        Expr::Num(_) => true,
        Expr::Atom(_) => true,
        Expr::Un(_, _) => false,
        Expr::Bin(_, a, b) => is_plain(a.get()) && is_plain(b.get()),
        Expr::Cond(_, _, _) => false,
    }
}

fn has_few_binaries(tree: &Expr) -> bool
    ensures { result ≡ nat_le (binaries tree.now) 3 }
{
    binary_count(tree) <= 3
}

// The slot, where its tree is small.
fn small(program: &Program, id: SlotId) -> Option<SlotId>
    ensures { result ≡ small_slot program.now id }
{
    match program.slots.get(id.0 as usize) {
        None => None,
        Some(slot) => {
            if is_plain(&slot.expr) && has_few_binaries(&slot.expr) {
                Some(id)
            } else {
                None
            }
        }
    }
}

fn candidate(alloc: Global, program: &Program, number: u64) -> Result<Option<SlotId>, AllocError>
    ensures { IfOk result (λ found. found ≡ candidate_at program.now number) }
{
    let candidates = program.candidates(alloc)?;
    match candidates.get(number.saturating_sub(1) as usize) {
        None => Ok(None),
        Some(id) => Ok(Some(*id)),
    }
}

// The only one of the numbers.
fn only(numbers: &[u64]) -> Option<u64>
    ensures { result ≡ only numbers.now }
{
    match numbers {
        [number] => Some(*number),
        _ => None,
    }
}

// The slot of the candidate of that number, where it is small.
fn small_candidate(
    alloc: Global,
    program: &Program,
    number: u64,
) -> Result<Option<SlotId>, AllocError>
    ensures { IfOk result (λ found. found ≡ option_and_then (small_slot program.now) (candidate_at program.now number)) }
{
    match candidate(alloc, program, number)? {
        None => Ok(None),
        Some(id) => Ok(small(program, id)),
    }
}

// Whether the comparisons are taken, and no other set.
fn takes_comparisons(sets: &Sets) -> bool
    ensures { result ≡ are_comparisons sets.now }
{
    sets.cmp
        && !sets.logic
        && !sets.arith
        && !sets.mul
        && !sets.bits
        && !sets.vars
        && !sets.consts
        && !sets.guard
}

/// The one chosen number, and the slot of its candidate.
#[derive(Clone, Copy, Debug)]
pub struct Picked {
    pub number: u64,
    pub slot: SlotId,
}

/// What is chosen, where an order is built that takes these sets and chooses these numbers: one candidate whose nodes are
/// atoms, numbers and at most three binary operators, and comparisons alone.
pub fn picked_of(
    alloc: Global,
    sets: &Sets,
    numbers: &[u64],
    program: &Program,
) -> Result<Option<Picked>, AllocError>
    ensures { IfOk result (λ found. MatchOption found (built_slot program.now sets.now numbers.now ≡ None) (λ picked. (numbers.now ≡ picked.number ∷ []) × IsPicked program.now sets.now picked)) }
{
    if !takes_comparisons(sets) {
        return Ok(None);
    }
    let Some(number) = only(numbers) else {
        return Ok(None);
    };
    match small_candidate(alloc, program, number)? {
        None => Ok(None),
        Some(slot) => Ok(Some(Picked { number, slot })),
    }
}
