//! The first call in an expression.
ghost use Rattle.std.specs.Prelude.{◌≡◌};
ghost use Rattle.std.specs.Option.{option_copied};
ghost use Rattle.ax_parse_limits.specs.Calls.{◌or◌, first_of, first_call as first_call_of, front as front_of, behind_front as behind_front_of, inner_call as inner_call_of};

use ax_parse_grammar::tree::Expr;

/// The first of two places, where there is one.
pub fn or(a: Option<usize>, b: Option<usize>) -> Option<usize>
    ensures { result ≡ (a or b) }
{
    match a {
        None => b,
        Some(at) => Some(at),
    }
}

// The operand with which an expression begins; a call has none here.
fn front(tree: &Expr) -> Option<&Expr>
    ensures { option_copied result ≡ front_of tree.now }
{
    match tree {
        Expr::Name(_, _) => None,
        Expr::Number(_, _) => None,
        Expr::Unary(_, _, a) => Some(a.get()),
        Expr::Binary(_, _, a, _) => Some(a.get()),
        Expr::Cond(_, c, _, _) => Some(c.get()),
        Expr::Index(_, a, _) => Some(a.get()),
        Expr::Member(_, a, _) => Some(a.get()),
        Expr::Arrow(_, a, _) => Some(a.get()),
        Expr::Call(_, _, _) => None,
    }
}

// The place of the expression itself where it is a call, or of the first call behind the operand with which it begins.
#[cycle(calls)]
fn behind_front(tree: &Expr) -> Option<usize>
    ensures { result ≡ behind_front_of tree.now }
{
    match tree {
        Expr::Name(_, _) => None,
        Expr::Number(_, _) => None,
        Expr::Unary(_, _, _) => None,
        Expr::Binary(_, _, _, b) => first_call(b.get()),
        Expr::Cond(_, _, a, b) => or(first_call(a.get()), first_call(b.get())),
        Expr::Index(_, _, i) => first_call(i.get()),
        Expr::Member(_, _, _) => None,
        Expr::Arrow(_, _, _) => None,
        Expr::Call(at, _, _) => Some(at.from as usize),
    }
}

/// The place of the first call in an expression.
#[cycle(calls)]
pub fn first_call(tree: &Expr) -> Option<usize>
    ensures { result ≡ first_call_of tree.now }
{
    // a chain of operands may be as long as a source, so a loop goes down it
    let mut node = tree;
    let mut found = behind_front(tree);
    while let Some(operand) = front(node) {
        found = or(behind_front(operand), found);
        node = operand;
    }
    found
}

/// The place of the first call in a list of expressions.
fn first_in_args(mut args: &[Expr]) -> Option<usize>
    ensures { result ≡ first_of first_call_of args.entry.now }
{
    while let [a, rest @ ..] = args {
        if let Some(at) = first_call(a) {
            return Some(at);
        }
        args = rest;
    }
    None
}

/// The place of the first call in an expression that may itself be a call.
#[tactic(auto, using(crate::proofs::CallLayers::expressions))]
pub fn inner_call(tree: &Expr) -> Option<usize>
    ensures { result ≡ inner_call_of tree.now }
{
    match tree {
        Expr::Name(_, _) => None,
        Expr::Number(_, _) => None,
        Expr::Unary(_, _, _) => first_call(tree),
        Expr::Binary(_, _, _, _) => first_call(tree),
        Expr::Cond(_, _, _, _) => first_call(tree),
        Expr::Index(_, _, _) => first_call(tree),
        Expr::Member(_, _, _) => first_call(tree),
        Expr::Arrow(_, _, _) => first_call(tree),
        Expr::Call(_, f, args) => or(first_call(f.get()), first_in_args(args.as_slice())),
    }
}
