//! Reading what holds no expression that is still to be read.
ghost use Rattle.std.specs.Prelude.{◌≡◌, ℕ, ◌+◌, ◌≤◌, ◌<◌, IfOk, length, drop};
ghost use Rattle.ax_parse_grammar.specs.ReadExpressions.{leaf, expr, args, post_by};
ghost use Rattle.ax_parse_expressions.specs.Answers.{Gives};

use crate::faults::ReadFault;
use crate::nodes::{arrow_node, member_node};
use crate::tokens::{extent, leaf_at, name_at};
use ax_parse_grammar::operators::Post;
use ax_parse_grammar::tree::Expr;
use ax_prog::tokens::Token;
use std::alloc::Global;

/// A name or number.
pub fn leaf(alloc: Global, tokens: &[Token], at: usize) -> Result<(Expr, usize), ReadFault>
    requires { at ≤ length tokens.now }
    ensures forward { IfOk result (λ f. (at < f.1) × (f.1 ≤ length tokens.now)) }
    ensures exact { Gives tokens.now result (λ n. leaf (drop at tokens.now)) }
{
    match leaf_at(alloc, tokens, at)? {
        None => Err(ReadFault::Syntax(at)),
        Some(found) => Ok((found, at + 1)),
    }
}

/// The name behind `x.`, where x begins at `start`.
pub fn member(
    alloc: Global,
    tokens: &[Token],
    start: usize,
    at: usize,
    x: Expr,
) -> Result<((Expr, bool), usize), ReadFault>
    requires order { start < at }
    requires within { at ≤ length tokens.now }
    ensures forward { IfOk result (λ f. (at < f.1) × (f.1 ≤ length tokens.now)) }
    ensures exact { Gives tokens.now result (λ n. post_by (expr n) (args n) (drop start tokens.now) x Post.Member (drop at tokens.now)) }
{
    match name_at(alloc, tokens, at)? {
        None => Err(ReadFault::Syntax(at)),
        Some(name) => {
            let made = member_node(alloc, extent(tokens, start, at + 1), x, name)?;
            Ok(((made, false), at + 1))
        }
    }
}

/// The name behind `x->`, where x begins at `start`.
pub fn arrow(
    alloc: Global,
    tokens: &[Token],
    start: usize,
    at: usize,
    x: Expr,
) -> Result<((Expr, bool), usize), ReadFault>
    requires order { start < at }
    requires within { at ≤ length tokens.now }
    ensures forward { IfOk result (λ f. (at < f.1) × (f.1 ≤ length tokens.now)) }
    ensures exact { Gives tokens.now result (λ n. post_by (expr n) (args n) (drop start tokens.now) x Post.Arrow (drop at tokens.now)) }
{
    match name_at(alloc, tokens, at)? {
        None => Err(ReadFault::Syntax(at)),
        Some(name) => {
            let made = arrow_node(alloc, extent(tokens, start, at + 1), x, name)?;
            Ok(((made, false), at + 1))
        }
    }
}
