//! The walk over an expression.
//!
//! First operands (of unary operators, of the left sides of binary ones, before marks) are gone down to by a loop, with the steps
//! that are left to do in a list, so that a long chain needs no deep stack. Only what nests in brackets or stands on the right is
//! judged by recursion.
ghost use Rattle.std.specs.Prelude.{◌≡◌, [], Ok, IfOk};
ghost use Rattle.ax_prog.specs.declared.Expr.TheVariants.{Num as num};
ghost use Rattle.ax_names_types.specs.declared.Typed.TheVariants.{Int as number};
ghost use Rattle.ax_parse_grammar.specs.Trees.{span_of as span_of_tree};
ghost use Rattle.ax_names_types.specs.Scopes.{env_of, is_function as is_function_name};
ghost use Rattle.ax_names_types.specs.Types.{is_zero as is_zero_tree};
ghost use Rattle.ax_names_types.specs.Verdicts.{verdict_of};
ghost use Rattle.ax_names_values.specs.declared.walk.Step.TheVariants as step;
ghost use Rattle.ax_names_values.specs.Steps.{operand_of, conditional_of, after, finished};

use crate::Verdict;
use crate::operands::Operand;
use crate::operators::{binary, cond, unary};
use crate::places::{arrow, index, member, named};
use ax_base::gather::three;
use ax_names_types::faults::wrong_type;
use ax_names_types::scopes::is_function;
use ax_names_types::{Entry, Typed};
use ax_parse_grammar::tree::{Expr, Name, Prefix, span_of};
use ax_prog::{Bin, Span, Struct};
use sqlite_items::Items;
use std::alloc::{AllocError, Global};

/// What is left to do with an operand, with the operand's span.
#[derive(Drop)]
pub enum Step {
    /// the operator, and whether the operand is a function's name
    Unary(Prefix, bool, Span),
    /// the operator, where the whole stands, whether the left side is the literal 0, where it stands, and the right side
    Binary(Bin, Span, bool, Span, Operand),
    Index(Span, Operand),
    Member(Name, Span),
    Arrow(Name, Span),
}

// Whether this is the literal 0, which stands for the null pointer too (C11 6.3.2.3).
fn is_zero(tree: &Expr) -> bool
    ensures { result ≡ is_zero_tree tree.now }
{
    match tree {
        Expr::Number(_, n) => *n == 0,
        Expr::Name(_, _) => false,
        Expr::Unary(_, _, _) => false,
        Expr::Binary(_, _, _, _) => false,
        Expr::Cond(_, _, _, _) => false,
        Expr::Index(_, _, _) => false,
        Expr::Member(_, _, _) => false,
        Expr::Arrow(_, _, _) => false,
        Expr::Call(_, _, _) => false,
    }
}

// A number, which has no atoms.
fn literal(alloc: Global, n: &i32) -> Verdict
    ensures { result ≡ Ok (number (num n.now) []) }
{
    Ok(Typed::Int(ax_prog::Expr::Num(*n), Items::new(alloc)))
}

fn copy_name(alloc: Global, name: &Name) -> Result<Name, AllocError>
    ensures { IfOk result (λ it. it ≡ name.now) }
{
    let text = Items::from_slice(alloc, name.text.as_slice())?;
    Ok(Name {
        span: name.span,
        text,
    })
}

fn unary_step(op: Prefix, operand: &Expr, names: &[Entry]) -> Step
    ensures { result ≡ step.Unary op (is_function_name names.now operand.now) (span_of_tree operand.now) }
{
    Step::Unary(op, is_function(names, operand), span_of(operand))
}

fn binary_step(op: Bin, at: Span, left: &Expr, right: Operand) -> Step
    ensures { result ≡ step.Binary op at (is_zero_tree left.now) (span_of_tree left.now) right }
{
    Step::Binary(op, at, is_zero(left), span_of(left), right)
}

fn taken(
    alloc: Global,
    structs: &[Struct],
    step: Step,
    operand: Verdict,
) -> Result<Verdict, AllocError>
    ensures { IfOk result (λ v. v ≡ after structs.now step operand) }
{
    match step {
        Step::Unary(op, of_function, span) => unary(alloc, op, of_function, span, operand),
        Step::Binary(op, at, is_zero, span, right) => {
            let left = Operand {
                span,
                is_zero,
                verdict: operand,
            };
            binary(alloc, op, at, left, right)
        }
        Step::Index(span, right) => index(alloc, span, operand, right),
        Step::Member(name, span) => member(alloc, structs, &name, span, operand),
        Step::Arrow(name, span) => arrow(alloc, structs, &name, span, operand),
    }
}

// Takes the steps, the last of them first.
fn finish(
    alloc: Global,
    structs: &[Struct],
    mut steps: Items<Step>,
    mut verdict: Verdict,
) -> Result<Verdict, AllocError>
    ensures { IfOk result (λ v. v ≡ finished structs.now steps verdict) }
{
    while let Some(step) = steps.pop() {
        verdict = taken(alloc, structs, step, verdict)?;
    }
    Ok(verdict)
}

#[cycle(judging)]
fn judged_operand(
    alloc: Global,
    tree: &Expr,
    names: &[Entry],
    structs: &[Struct],
) -> Result<Operand, AllocError>
    ensures { IfOk result (λ o. o ≡ operand_of (env_of names.now structs.now) tree.now) }
{
    let verdict = typed(alloc, tree, names, structs)?;
    Ok(Operand {
        span: span_of(tree),
        is_zero: is_zero(tree),
        verdict,
    })
}

// `? :`, all of whose parts are judged.
#[cycle(judging)]
fn conditional(
    alloc: Global,
    test: &Expr,
    first: &Expr,
    second: &Expr,
    names: &[Entry],
    structs: &[Struct],
) -> Result<Verdict, AllocError>
    ensures { IfOk result (λ v. v ≡ conditional_of (env_of names.now structs.now) test.now first.now second.now) }
{
    let test = judged_operand(alloc, test, names, structs);
    let first = judged_operand(alloc, first, names, structs);
    let second = judged_operand(alloc, second, names, structs);
    let (test, first, second) = three(test, first, second)?;
    cond(alloc, test, first, second)
}

/// What an expression means, or its first fault.
#[cycle(judging)]
pub fn typed(
    alloc: Global,
    tree: &Expr,
    names: &[Entry],
    structs: &[Struct],
) -> Result<Verdict, AllocError>
    ensures { IfOk result (λ v. v ≡ verdict_of (env_of names.now structs.now) tree.now) }
{
    let mut steps = Items::new(alloc);
    let mut part = tree;
    'down: loop {
        match part {
            Expr::Name(at, x) => {
                let verdict = named(alloc, *at, x.as_slice(), names)?;
                return finish(alloc, structs, steps, verdict);
            }
            Expr::Number(_, n) => {
                return finish(alloc, structs, steps, literal(alloc, n));
            }
            Expr::Cond(_, c, a, b) => {
                let verdict = conditional(alloc, c.get(), a.get(), b.get(), names, structs)?;
                return finish(alloc, structs, steps, verdict);
            }
            Expr::Call(at, _, _) => {
                return finish(alloc, structs, steps, Err(wrong_type(*at)));
            }
            Expr::Unary(_, op, a) => {
                steps.push(unary_step(*op, a.get(), names))?;
                part = a.get();
            }
            Expr::Binary(at, op, a, b) => {
                let right = judged_operand(alloc, b.get(), names, structs)?;
                steps.push(binary_step(*op, *at, a.get(), right))?;
                part = a.get();
            }
            Expr::Index(_, a, i) => {
                let index = judged_operand(alloc, i.get(), names, structs)?;
                steps.push(Step::Index(span_of(a.get()), index))?;
                part = a.get();
            }
            Expr::Member(_, a, x) => {
                let x = copy_name(alloc, x)?;
                steps.push(Step::Member(x, span_of(a.get())))?;
                part = a.get();
            }
            Expr::Arrow(_, a, x) => {
                let x = copy_name(alloc, x)?;
                steps.push(Step::Arrow(x, span_of(a.get())))?;
                part = a.get();
            }
        }
    }
}
