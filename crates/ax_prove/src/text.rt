//! The texts of models and of proofs.

ghost use Rattle.std.specs.Prelude.{◌≡◌, ◌<◌, ◌^◌, IfOk, length};
ghost use Rattle.ax_prove.specs.Texts.{literals_from, model_report, proof_text};

use ax_dimacs::push_clause_text;
use ax_proof::{Line, Lit};
use std::alloc::{AllocError, Global};

/// The literals that truth values of the variables from 1 on make true.
fn true_literals(alloc: Global, bits: &[bool]) -> Result<Vec<Lit>, AllocError>
    requires { length bits.now < 2 ^ 63 }
    ensures { IfOk result (λ lits. lits.items ≡ literals_from 1 bits.now) }
{
    let mut lits = Vec::new(alloc);
    let mut var = 1;
    let mut rest = bits;
    while let [bit, after @ ..] = rest {
        lits.push(Lit::new(var, *bit))?;
        var += 1;
        rest = after;
    }
    Ok(lits)
}

/// What is reported of a model, of which `bits` are the truth values of the variables from 1 on.
pub fn model_report(alloc: Global, bits: &[bool]) -> Result<Vec<u8>, AllocError>
    requires { length bits.now < 2 ^ 63 }
    ensures { IfOk result (λ text. text.items ≡ model_report bits.now) }
{
    let lits = true_literals(alloc, bits)?;
    let mut text = Vec::from_slice(alloc, b"s SATISFIABLE\nv ")?;
    push_clause_text(&mut text, lits.as_slice())?;
    Ok(text)
}

/// A line for each line of a proof.
pub fn proof_text(alloc: Global, lines: &[Line]) -> Result<Vec<u8>, AllocError>
    ensures { IfOk result (λ text. text.items ≡ proof_text lines.now) }
{
    let mut text = Vec::new(alloc);
    for line in lines {
        push_clause_text(&mut text, line.lits())?;
    }
    Ok(text)
}
