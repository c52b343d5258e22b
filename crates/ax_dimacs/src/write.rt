//! Clause files, written.

ghost use Rattle.std.specs.Prelude.{◌≡◌, ◌++◌, ◌∷◌, [], Ok, IfOk, OnOk, decimal, length};
ghost use Rattle.ax_dimacs.specs.Clauses.{formula_of};
ghost use Rattle.ax_dimacs.specs.Written.{IsInProfile, clause_text, file_text, head_text, part_text};

use ax_proof::{Cnf, Lit};
use itoa::Buffer;
use std::alloc::{AllocError, Global};

fn push_number(text: &mut Vec<u8>, n: u64) -> Result<(), AllocError>
    ensures { OnOk result (text.new.items ≡ text.old.items ++ decimal n) }
{
    let mut buffer = Buffer::new();
    text.extend_from_slice(buffer.format(n).as_bytes())
}

fn push_literal(text: &mut Vec<u8>, lit: Lit) -> Result<(), AllocError>
    ensures { OnOk result (text.new.items ≡ text.old.items ++ part_text lit) }
{
    if !lit.positive() {
        text.push(b'-')?;
    }
    push_number(text, lit.var())?;
    text.push(b' ')?;
    Ok(())
}

/// Puts a line of a clause behind a text: its literals, and `0`.
pub fn push_clause_text(text: &mut Vec<u8>, lits: &[Lit]) -> Result<(), AllocError>
    ensures { OnOk result (text.new.items ≡ text.old.items ++ clause_text lits.now) }
{
    for lit in lits {
        push_literal(text, *lit)?;
    }
    text.extend_from_slice(b"0\n")
}

fn head(alloc: Global, vars: u64, many: u64) -> Result<Vec<u8>, AllocError>
    ensures { IfOk result (λ text. text.items ≡ head_text vars many) }
{
    let mut text = Vec::from_slice(alloc, b"p cnf ")?;
    push_number(&mut text, vars)?;
    text.push(b' ')?;
    push_number(&mut text, many)?;
    text.push(b'\n')?;
    Ok(text)
}

/// The clauses as a clause file: a line for the head, and a line for each clause. Read again, it says these clauses, as far
/// as a clause file can say them.
pub fn write_cnf(alloc: Global, cnf: &Cnf) -> Result<Vec<u8>, AllocError>
    ensures text { IfOk result (λ text. text.items ≡ file_text cnf.now.vars cnf.now.clauses.items) }
    ensures back { IsInProfile cnf.now.vars cnf.now.clauses.items → IfOk result (λ text. formula_of text.items ≡ Ok (record { vars = cnf.now.vars; clauses = cnf.now.clauses.items })) }
{
    let mut text = head(alloc, cnf.vars, cnf.clauses.len() as u64)?;
    for clause in &cnf.clauses {
        push_clause_text(&mut text, clause.lits())?;
    }
    Ok(text)
}
