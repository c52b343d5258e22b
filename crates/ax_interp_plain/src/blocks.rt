//! The ends of blocks, where the variables that they declared end (C11 6.2.4p6).
ghost use Rattle.std.specs.Prelude.{◌≡◌, []};
ghost use Rattle.ax_meaning.specs.declared.State.{State};
ghost use Rattle.ax_meaning.specs.Execution.{Outcome, after, after_in, declared_by, end_all, ends, ends_block};
ghost use Rattle.ax_interp_plain.specs.Completions.{ending_of, declared_after};

use crate::completion::Completion;
use ax_interp_values::store::end_var;
use ax_meaning::State;
use ax_prog::Stmt;

/// Ends the variables that these statements declare, latest first.
fn end_declared(items: &[Stmt], state: &mut State)
    ensures { state.new ≡ end_all (declared_after items.now []) state.old }
{
    let mut left = items.len();
    'back: while left > 0 {
        left -= 1;
        end_if_declared(&items[left], state);
    }
}

fn end_if_declared(item: &Stmt, state: &mut State)
    ensures { state.new ≡ end_all (declared_by item.now []) state.old }
{
    match item {
        Stmt::Decl(id, _) => end_var(*id, &mut state.store),
        _ => {}
    }
}

/// After a statement of a block in which these stand before it: their variables end where it leaves the block.
pub fn leave_block(items: &[Stmt], end: Completion, state: &mut State)
    ensures { (go : State → Outcome) → after_in (declared_after items.now []) (ending_of end) state.old go ≡ after (ending_of end) state.new go }
{
    match end {
        Completion::Broke => end_declared(items, state),
        Completion::Continued => end_declared(items, state),
        Completion::Next
        | Completion::Returned(_)
        | Completion::Stopped(_)
        | Completion::Unfinished => {}
    }
}

/// After all statements of a block: their variables end.
pub fn finish_block(items: &[Stmt], end: Completion, state: &mut State)
    ensures { ends (ending_of end) state.new ≡ after (ending_of end) state.old (ends_block (declared_after items.now [])) }
{
    match end {
        Completion::Next => end_declared(items, state),
        Completion::Broke
        | Completion::Continued
        | Completion::Returned(_)
        | Completion::Stopped(_)
        | Completion::Unfinished => {}
    }
}
