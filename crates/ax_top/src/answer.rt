//! The search for a repair, and the report of what it finds.
ghost use Rattle.std.specs.Prelude.{◌≡◌, ◌≤◌, ◌∷◌, ◌++◌, [], IfOk, codes, map, string_bytes};
ghost use Rattle.std.specs.Fmt.{decimal};
ghost use Rattle.ax_rank_coverage.specs.Handed.{handed};
ghost use Rattle.ax_front.specs.Texts.{IsProgramOfText};
ghost use Rattle.ax_repair.specs.Written.{is_changed};
ghost use Rattle.ax_top.specs.Built.{IsPicked};
ghost use Rattle.ax_top.specs.Orders.{HasRanker};
ghost use Rattle.ax_top.specs.Repairs.{Answered, IsAnswer, Searched, change_line, change_lines, cost_line, expression_line, repaired_report};

use crate::built::{Picked, picked_of};
use crate::choosing::chosen_numbers;
use crate::files::Stop;
use crate::telling::Told;
use ax_print::expr_text;
use ax_prog::same::same_expr;
use ax_prog::{Expr, Program, SlotId, Suite};
use ax_rank::Ranker;
use ax_repair::{Outcome, Repaired};
use ax_repair_laws::{patches_are_writable, repaired_passes, stays_at_cost_0};
use ax_words::RepairOrder;
use sqlite_items::Items;
use std::alloc::{AllocError, Global};

/// What an order other than to prove comes to.
#[derive(Drop)]
pub enum Answer {
    /// A repaired source, and what is reported of it.
    Repaired { text: Items<u8>, report: Items<u8> },
    NoRepair,
    /// Of an order to run or to rank only a report comes.
    Reported(Told),
}

fn cost_text(alloc: Global, cost: u64) -> Result<String, AllocError>
    ensures { IfOk result (λ s. string_bytes s ≡ cost_line cost) }
{
    format!(in alloc; "repaired, cost {cost}\n")
}

fn number_text(alloc: Global, number: u64) -> Result<String, AllocError>
    ensures { IfOk result (λ s. string_bytes s ≡ codes "expression " ++ (decimal number ++ codes ": ")) }
{
    format!(in alloc; "expression {number}: ")
}

fn expression_text(alloc: Global, number: u64, text: &[u8]) -> Result<Items<u8>, AllocError>
    ensures { IfOk result (λ line. line ≡ expression_line number text.now) }
{
    let head = number_text(alloc, number)?;
    let mut line = Vec::new(alloc);
    line.extend_from_slice(head.as_bytes())?;
    line.extend_from_slice(text)?;
    line.extend_from_slice(b"\n")?;
    Ok(Items::from_vec(line))
}

// Whether the tree isn't the slot's own.
fn changes(program: &Program, id: SlotId, tree: &Expr) -> bool
    ensures { result ≡ is_changed program.now (id, tree.now) }
{
    match program.slots.get(id.0 as usize) {
        None => false,
        Some(slot) => !same_expr(&slot.expr, tree),
    }
}

// The line of an expression, or nothing where its tree stays.
fn change_text(
    alloc: Global,
    source: &[u8],
    program: &Program,
    number: u64,
    id: SlotId,
    tree: &Expr,
) -> Result<Items<u8>, AllocError>
    ensures { IfOk result (λ line. line ≡ change_line source.now program.now number id tree.now) }
{
    if !changes(program, id, tree) {
        return Ok(Items::new(alloc));
    }
    let text = expr_text(alloc, source, program, id, tree)?;
    expression_text(alloc, number, text.as_slice())
}

// The lines of the one chosen expression.
fn changes_text(
    alloc: Global,
    source: &[u8],
    program: &Program,
    picked: Picked,
    trees: &[Expr],
) -> Result<Items<u8>, AllocError>
    ensures { IfOk result (λ lines. lines ≡ change_lines source.now program.now (picked.number ∷ []) (picked.slot ∷ []) trees.now) }
{
    match trees {
        [] => Ok(Items::new(alloc)),
        [tree, ..] => change_text(alloc, source, program, picked.number, picked.slot, tree),
    }
}

// The cost of a repair, and the text of the one chosen expression, where it changes.
fn repaired_text(
    alloc: Global,
    source: &[u8],
    program: &Program,
    picked: Picked,
    it: &Repaired,
) -> Result<Items<u8>, AllocError>
    ensures { IfOk result (λ report. report ≡ repaired_report source.now program.now (picked.number ∷ []) (picked.slot ∷ []) (it.now.patch).trees it.now.cost) }
{
    let head = cost_text(alloc, it.cost)?;
    let lines = changes_text(alloc, source, program, picked, it.patch.trees.as_slice())?;
    let mut report = Vec::new(alloc);
    report.extend_from_slice(head.as_bytes())?;
    report.extend_from_slice(lines.as_slice())?;
    Ok(Items::from_vec(report))
}

// The answer to an order that is built: a least repair, or that there is none.
fn answer_to(
    alloc: Global,
    order: &RepairOrder,
    source: &[u8],
    program: &Program,
    suite: &Suite,
    picked: Picked,
) -> Result<Answer, AllocError>
    requires read { IsProgramOfText source.now program.now }
    requires picked { IsPicked program.now order.now.sets picked }
    requires grow { order.now.bounds.grow ≤ 20 }
    ensures { IfOk result (IsAnswer order.now source.now program.now suite.now.tests (picked.number ∷ []) (picked.slot ∷ [])) }
{
    // what is written reads back, and is the source where nothing changes
    patches_are_writable();
    repaired_passes();
    stays_at_cost_0();
    let chosen = [picked.slot];
    match ax_repair::repair(
        alloc,
        program,
        source,
        suite,
        &order.sets,
        &order.bounds,
        &chosen,
    )? {
        Outcome::NoPatch => Ok(Answer::NoRepair),
        Outcome::Repaired(it) => {
            let report = repaired_text(alloc, source, program, picked, &it)?;
            let Repaired {
                source: text,
                patch: _,
                cost: _,
            } = it;
            Ok(Answer::Repaired { text, report })
        }
    }
}

// The answer to an order that chooses these numbers, or that it isn't built.
fn answer_for(
    alloc: Global,
    order: &RepairOrder,
    source: &[u8],
    program: &Program,
    suite: &Suite,
    numbers: &[u64],
) -> Result<Answer, Stop>
    requires read { IsProgramOfText source.now program.now }
    requires grow { order.now.bounds.grow ≤ 20 }
    ensures { Answered order.now source.now program.now suite.now.tests numbers.now result }
{
    match picked_of(alloc, &order.sets, numbers, program) {
        Err(_) => Err(Stop::Memory),
        Ok(None) => Err(Stop::NotBuilt),
        Ok(Some(picked)) => match answer_to(alloc, order, source, program, suite, picked) {
            Err(_) => Err(Stop::Memory),
            Ok(answer) => Ok(answer),
        },
    }
}

/// The answer to an order to repair, or that it isn't built.
pub fn search(
    alloc: Global,
    order: &RepairOrder,
    rankers: &mut [Box<dyn Ranker>],
    source: &[u8],
    program: &Program,
    suite: &Suite,
) -> Result<Answer, Stop>
    requires read { IsProgramOfText source.now program.now }
    requires grow { order.now.bounds.grow ≤ 20 }
    requires ranker { HasRanker (map (λ r. handed (title r) (runs r) (formula r)) rankers.old) order.now.choice }
    ensures { Searched (map (λ r. handed (title r) (runs r) (formula r)) rankers.old) order.now source.now program.now suite.now.tests result }
{
    match chosen_numbers(alloc, order, rankers, program, suite.tests.as_slice()) {
        Err(_) => Err(Stop::Memory),
        Ok(numbers) => answer_for(alloc, order, source, program, suite, numbers.as_slice()),
    }
}
