//! The walk, by number, with its own stack.

ghost use Rattle.std.specs.Prelude.{◌≡◌, ◌<◌, ◌++◌, ◌∷◌, [], OnOk, IfOk, length, slice_get, Some, true};
ghost use Rattle.ax_term.specs.Numbered.{number_of};
ghost use Rattle.ax_term.specs.Bank.{Among, IsBank};
ghost use Rattle.ax_term.specs.Order.{visit, visit_all, order_of, tree_at, trees_at, trees, AllBelow, AllAmong, AfterChildren, NoneTwice, AllIn};
ghost use Rattle.ax_term.specs.Walk.{finish, tasks_of, load, IsTask, AllTasks, IsSeen};

use crate::{Bank, Node, Term};
use std::alloc::{AllocError, Global};

/// What is still to be done at a term.
#[derive(Clone, Copy)]
enum Task {
    /// The term's subterms, and then the term, where they weren't seen yet.
    Enter(usize),
    /// The term, after its children.
    Leave(usize),
}

/// The terms that were seen, in order, and a mark at each number of the bank.
#[derive(Drop)]
struct Seen {
    marks: Vec<bool>,
    order: Vec<usize>,
}

fn push_two(stack: &mut Vec<Task>, a: &Term, b: &Term) -> Result<(), AllocError>
    ensures { OnOk result (stack.new.items ≡ stack.old.items ++ Task.Enter (number_of b.now) ∷ Task.Enter (number_of a.now) ∷ []) }
{
    stack.push(Task::Enter(b.number()))?;
    stack.push(Task::Enter(a.number()))?;
    Ok(())
}

/// The tasks of a term that wasn't seen yet. The next one is the last.
fn push_tasks(stack: &mut Vec<Task>, term: &Term) -> Result<(), AllocError>
    ensures { OnOk result (stack.new.items ≡ stack.old.items ++ tasks_of term.now) }
{
    stack.push(Task::Leave(term.number()))?;
    match term.node() {
        Node::Word(_) => {}
        Node::WordSym(_) => {}
        Node::Flag(_) => {}
        Node::FlagSym(_) => {}
        Node::Make(_, a, b) => push_two(stack, a, b)?,
        Node::Compare(_, a, b) => push_two(stack, a, b)?,
        Node::No(f) => stack.push(Task::Enter(f.number()))?,
        Node::All(f, g) => push_two(stack, f, g)?,
        Node::Pick(f, a, b) => {
            push_two(stack, a, b)?;
            stack.push(Task::Enter(f.number()))?;
        }
    }
    Ok(())
}

fn enter(bank: &Bank, seen: &Seen, stack: &mut Vec<Task>, number: usize) -> Result<(), AllocError>
    requires bank { IsBank bank.now }
    requires number { number < length bank.now }
    requires seen { IsSeen bank.now seen.now.marks.items seen.now.order.items }
    requires tasks { AllTasks (length bank.now) stack.old.items }
    ensures tasks { OnOk result (AllTasks (length bank.now) stack.new.items) }
    ensures finishes { OnOk result (finish bank.now stack.new.items (trees_at bank.now seen.now.order.items) ≡ finish bank.now (stack.old.items ++ Task.Enter number ∷ []) (trees_at bank.now seen.now.order.items)) }
    ensures lighter { OnOk result (load bank.now stack.new.items < load bank.now (stack.old.items ++ Task.Enter number ∷ [])) }
{
    if seen.marks[number] {
        return Ok(());
    }
    let term = bank.get(number).unwrap();
    push_tasks(stack, term)?;
    Ok(())
}

fn leave(bank: &Bank, seen: &mut Seen, number: usize) -> Result<(), AllocError>
    requires number { number < length bank.now }
    requires seen { IsSeen bank.now seen.old.marks.items seen.old.order.items }
    ensures seen { OnOk result (IsSeen bank.now seen.new.marks.items seen.new.order.items) }
    ensures order { OnOk result (seen.new.order.items ≡ seen.old.order.items ++ number ∷ []) }
{
    let _size = bank.len();
    seen.marks[number] = true;
    seen.order.push(number)?;
    Ok(())
}

/// Does a task, and puts those that it makes on the stack.
fn turn(bank: &Bank, seen: &mut Seen, stack: &mut Vec<Task>, task: Task) -> Result<(), AllocError>
    requires bank { IsBank bank.now }
    requires task { IsTask (length bank.now) task }
    requires seen { IsSeen bank.now seen.old.marks.items seen.old.order.items }
    requires tasks { AllTasks (length bank.now) stack.old.items }
    ensures seen { OnOk result (IsSeen bank.now seen.new.marks.items seen.new.order.items) }
    ensures tasks { OnOk result (AllTasks (length bank.now) stack.new.items) }
    ensures finishes { OnOk result (finish bank.now stack.new.items (trees_at bank.now seen.new.order.items) ≡ finish bank.now (stack.old.items ++ task ∷ []) (trees_at bank.now seen.old.order.items)) }
    ensures lighter { OnOk result (load bank.now stack.new.items < load bank.now (stack.old.items ++ task ∷ [])) }
{
    match task {
        Task::Enter(number) => enter(bank, seen, stack, number)?,
        Task::Leave(number) => leave(bank, seen, number)?,
    }
    Ok(())
}

/// The subterms of the root that weren't seen yet.
fn walk(alloc: Global, bank: &Bank, seen: &mut Seen, root: usize) -> Result<(), AllocError>
    requires bank { IsBank bank.now }
    requires root { root < length bank.now }
    requires seen { IsSeen bank.now seen.old.marks.items seen.old.order.items }
    ensures seen { OnOk result (IsSeen bank.now seen.new.marks.items seen.new.order.items) }
    ensures visits { OnOk result (trees_at bank.now seen.new.order.items ≡ visit (trees_at bank.now seen.old.order.items) (tree_at bank.now root)) }
{
    let mut stack = vec![in alloc; Task::Enter(root)]?;
    while let Some(task) = stack.pop() {
        turn(bank, seen, &mut stack, task)?;
    }
    Ok(())
}

fn walk_all(alloc: Global, bank: &Bank, seen: &mut Seen, roots: &[Term]) -> Result<(), AllocError>
    requires bank { IsBank bank.now }
    requires roots { AllAmong bank.now roots.now }
    requires seen { IsSeen bank.now seen.old.marks.items seen.old.order.items }
    ensures seen { OnOk result (IsSeen bank.now seen.new.marks.items seen.new.order.items) }
    ensures visits { OnOk result (trees_at bank.now seen.new.order.items ≡ visit_all (trees_at bank.now seen.old.order.items) (trees roots.now)) }
{
    for root in roots {
        walk(alloc, bank, seen, root.number())?;
    }
    Ok(())
}

fn order_by_visits(
    alloc: Global,
    bank: &Bank,
    asserted: &[Term],
    named: &[Term],
) -> Result<Vec<usize>, AllocError>
    requires asserted { AllAmong bank.now asserted.now }
    requires named { AllAmong bank.now named.now }
    ensures order { IfOk result (λ r. trees_at bank.now r.items ≡ order_of (trees asserted.now) (trees named.now)) }
    ensures below { IfOk result (λ r. AllBelow (length bank.now) r.items) }
{
    let marks = vec![in alloc; false; bank.len()]?;
    let mut seen = Seen {
        marks,
        order: Vec::new(alloc),
    };
    walk_all(alloc, bank, &mut seen, asserted)?;
    walk_all(alloc, bank, &mut seen, named)?;
    Ok(seen.order)
}

/// The numbers of the distinct subterms of the asserted terms and then of the named ones: each after its children, children
/// left to right, in order of first visit.
///
/// It takes memory for a mark for each term of the bank, and for its own stack.
pub fn order(
    alloc: Global,
    bank: &Bank,
    asserted: &[Term],
    named: &[Term],
) -> Result<Vec<usize>, AllocError>
    requires asserted { AllAmong bank.now asserted.now }
    requires named { AllAmong bank.now named.now }
    ensures order { IfOk result (λ r. trees_at bank.now r.items ≡ order_of (trees asserted.now) (trees named.now)) }
    ensures below { IfOk result (λ r. AllBelow (length bank.now) r.items) }
    ensures after_children { AfterChildren [] (order_of (trees asserted.now) (trees named.now)) }
    ensures none_twice { NoneTwice [] (order_of (trees asserted.now) (trees named.now)) }
    ensures asserted { AllIn (order_of (trees asserted.now) (trees named.now)) (trees asserted.now) }
    ensures named { AllIn (order_of (trees asserted.now) (trees named.now)) (trees named.now) }
{
    order_by_visits(alloc, bank, asserted, named)
}
