//! Terminals in turn.
ghost use Rattle.std.specs.Prelude.{◌≡◌, ◌+◌, ◌≤◌, IfOk, length, drop};
ghost use Rattle.ax_parse_grammar.specs.Reading.{past};
ghost use Rattle.ax_parse_statements.specs.SimplesFound.{Ends};

use ax_parse_expressions::ReadFault;
use ax_parse_expressions::tokens::is_at;
use ax_parse_grammar::terminals::Terminal;
use ax_prog::tokens::Token;

/// The place behind these terminals, which stand from a place on.
pub fn passes(tokens: &[Token], at: usize, what: &[Terminal]) -> Result<usize, ReadFault>
    requires { at ≤ length tokens.now }
    ensures forward { IfOk result (λ end. (end ≡ at + length what.now) × (end ≤ length tokens.now)) }
    ensures exact { Ends tokens.now result (past what.now (drop at tokens.now)) }
{
    let mut next = at;
    for terminal in what {
        if !is_at(tokens, next, *terminal) {
            return Err(ReadFault::Syntax(next));
        }
        next += 1;
    }
    Ok(next)
}
