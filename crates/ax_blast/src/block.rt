//! The block of one term, by the literals of its children.

ghost use Rattle.std.specs.Prelude.{◌≡◌, ◌<◌, ◌≤◌, ◌+◌, ◌-◌, ◌^◌, ◌++◌, ◌∷◌, [], ℤ, IfOk, length, map, slice_get, Some};
ghost use Rattle.ax_proof.specs.Runs.{Begins};
ghost use Rattle.ax_gates.specs.Gates.{blocks, both, free, next};
ghost use Rattle.ax_blast.specs.Blocks.{test_gates, test_out, test_vars};
ghost use Rattle.ax_term.specs.Numbered.{Numbered, number_of, tree};
ghost use Rattle.ax_blast.specs.Blasting.{flag_lit, constant_bits, word_bits, new_bits, symbol_bits, symbol_gates, vars_of};
ghost use Rattle.ax_blast.specs.Table.{table_of, row, IsWordRow, IsFlagRow, ChildrenSized, node_gates, node_outs};

use crate::{test_block, word_block};
use ax_gates::{and_gate, new_variable, pick_word};
use ax_proof::{Cnf, Lit};
use ax_term::{Node, Term, TestOp};
use std::alloc::{AllocError, Global};

/// The lowest bits of a number, as literals 1 and -1.
fn low_bits(alloc: Global, count: usize, number: u32) -> Result<Vec<Lit>, AllocError>
    ensures { IfOk result (λ r. r.items ≡ constant_bits count number) }
{
    let mut bits = Vec::with_capacity(alloc, count)?;
    let mut rest = number;
    for _ in 0..count {
        bits.push(Lit::new(1, rest % 2 == 1))?;
        rest /= 2;
    }
    Ok(bits)
}

/// The bits of a constant, the lowest first.
fn constant(alloc: Global, value: i32) -> Result<Vec<Lit>, AllocError>
    ensures { IfOk result (λ r. r.items ≡ word_bits value) }
{
    let number = value.cast_unsigned();
    let bits = low_bits(alloc, 32, number)?;
    Ok(bits)
}

fn new_variables(alloc: Global, cnf: &mut Cnf, count: usize) -> Result<Vec<Lit>, AllocError>
    requires room { cnf.old.vars + count < 2 ^ 62 }
    ensures clauses { IfOk result (λ r. cnf.new.clauses.items ≡ cnf.old.clauses.items) }
    ensures outs { IfOk result (λ r. r.items ≡ new_bits cnf.old.vars count) }
    ensures vars { IfOk result (λ r. cnf.new.vars ≡ cnf.old.vars + count) }
{
    let mut bits = Vec::with_capacity(alloc, count)?;
    for _ in 0..count {
        bits.push(new_variable(cnf))?;
    }
    Ok(bits)
}

/// The bits of a symbol: 32 new variables.
#[tactic(auto, using(crate::proofs::Bits::symbol_appends, crate::proofs::Bits::symbol_is))]
fn symbol(alloc: Global, cnf: &mut Cnf) -> Result<Vec<Lit>, AllocError>
    requires room { cnf.old.vars + 32 < 2 ^ 62 }
    ensures appends { IfOk result (λ r. cnf.new.clauses.items ≡ cnf.old.clauses.items ++ blocks cnf.old.vars symbol_gates) }
    ensures outs { IfOk result (λ r. r.items ≡ symbol_bits cnf.old.vars) }
    ensures vars { IfOk result (λ r. cnf.new.vars ≡ cnf.old.vars + 32) }
{
    let bits = new_variables(alloc, cnf, 32)?;
    Ok(bits)
}

fn single(alloc: Global, lit: Lit) -> Result<Vec<Lit>, AllocError>
    ensures { IfOk result (λ r. r.items ≡ lit ∷ []) }
{
    Ok(vec![in alloc; lit]?)
}

/// The literal of a flag symbol: a new variable.
#[tactic(auto, using(crate::proofs::Bits::one_appends))]
fn flag_symbol(alloc: Global, cnf: &mut Cnf) -> Result<Vec<Lit>, AllocError>
    requires room { cnf.old.vars + 1 < 2 ^ 62 }
    ensures appends { IfOk result (λ r. cnf.new.clauses.items ≡ cnf.old.clauses.items ++ blocks cnf.old.vars (free ∷ [])) }
    ensures outs { IfOk result (λ r. r.items ≡ next cnf.old.vars ∷ []) }
    ensures vars { IfOk result (λ r. cnf.new.vars ≡ cnf.old.vars + 1) }
{
    let lit = new_variable(cnf);
    single(alloc, lit)
}

/// The literals of a child.
pub fn row_of<'a>(places: &'a [Vec<Lit>], child: &Term) -> &'a [Lit]
    requires { number_of child.now < length places.now }
    ensures { result.now ≡ row (table_of places.now) child.now }
{
    places[child.number()].as_slice()
}

/// The literal of a child that is a flag.
pub fn flag_of(places: &[Vec<Lit>], child: &Term) -> Lit
    requires { IsFlagRow (table_of places.now) child.now }
    ensures { result ≡ flag_lit (row (table_of places.now) child.now) }
{
    row_of(places, child)[0]
}

fn conjunction(alloc: Global, cnf: &mut Cnf, f: Lit, g: Lit) -> Result<Vec<Lit>, AllocError>
    requires room { cnf.old.vars + 1 < 2 ^ 62 }
    ensures appends { IfOk result (λ r. cnf.new.clauses.items ≡ cnf.old.clauses.items ++ blocks cnf.old.vars (both f g ∷ [])) }
    ensures out { IfOk result (λ r. r.items ≡ next cnf.old.vars ∷ []) }
    ensures vars { IfOk result (λ r. cnf.new.vars ≡ cnf.old.vars + 1) }
{
    let z = new_variable(cnf);
    and_gate(alloc, cnf, z, f, g)?;
    single(alloc, z)
}

fn test(
    alloc: Global,
    cnf: &mut Cnf,
    op: TestOp,
    a: &[Lit],
    b: &[Lit],
) -> Result<Vec<Lit>, AllocError>
    requires first { length a.now ≡ 32 }
    requires second { length b.now ≡ 32 }
    requires room { cnf.old.vars + test_vars op < 2 ^ 62 }
    ensures appends { IfOk result (λ r. cnf.new.clauses.items ≡ cnf.old.clauses.items ++ blocks cnf.old.vars (test_gates op cnf.old.vars a.now b.now)) }
    ensures out { IfOk result (λ r. r.items ≡ test_out op cnf.old.vars ∷ []) }
    ensures vars { IfOk result (λ r. cnf.new.vars ≡ cnf.old.vars + test_vars op) }
{
    let out = test_block(alloc, cnf, op, a, b)?;
    single(alloc, out)
}

/// Appends the block of a term, and gives its literals.
pub fn term_block(
    alloc: Global,
    cnf: &mut Cnf,
    places: &[Vec<Lit>],
    term: &Term,
) -> Result<Vec<Lit>, AllocError>
    requires children { ChildrenSized (table_of places.now) term.now }
    requires room { cnf.old.vars + 8192 < 2 ^ 62 }
    ensures appends { IfOk result (λ r. cnf.new.clauses.items ≡ cnf.old.clauses.items ++ blocks cnf.old.vars (node_gates (table_of places.now) cnf.old.vars term.now)) }
    ensures outs { IfOk result (λ r. r.items ≡ node_outs (table_of places.now) cnf.old.vars term.now) }
    ensures vars { IfOk result (λ r. cnf.new.vars ≡ cnf.old.vars + vars_of (tree term.now)) }
{
    match term.node() {
        Node::Word(value) => constant(alloc, *value),
        Node::WordSym(_) => symbol(alloc, cnf),
        Node::Flag(value) => single(alloc, Lit::new(1, *value)),
        Node::FlagSym(_) => flag_symbol(alloc, cnf),
        Node::Make(op, a, b) => word_block(alloc, cnf, *op, row_of(places, a), row_of(places, b)),
        Node::Compare(op, a, b) => test(alloc, cnf, *op, row_of(places, a), row_of(places, b)),
        Node::No(f) => single(alloc, flag_of(places, f).negate()),
        Node::All(f, g) => conjunction(alloc, cnf, flag_of(places, f), flag_of(places, g)),
        Node::Pick(f, a, b) => pick_word(
            alloc,
            cnf,
            flag_of(places, f),
            row_of(places, a),
            row_of(places, b),
        ),
    }
}
