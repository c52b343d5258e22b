//! What stands at a place of a token list.
ghost use Rattle.std.specs.Prelude.{◌≡◌, ℕ, ◌+◌, ◌≤◌, ◌<◌, true, false, Some, None, IfOk, IfSome, option_map, length, drop};
ghost use Rattle.ax_parse_grammar.specs.Operators.{prefix_of as prefix_of_kind, post_of as post_of_kind, compound_of as compound_of_kind, step_of as step_of_kind};
ghost use Rattle.ax_parse_grammar.specs.Reading.{after, past, next, name, extent_to};
ghost use Rattle.ax_parse_grammar.specs.ReadExpressions.{op_from, leaf};

use ax_parse_grammar::operators::{
    Post, binary_of, compound_of, level, post_of, prefix_of, step_of,
};
use ax_parse_grammar::terminals::{Terminal, fits};
use ax_parse_grammar::tree::{Expr, Name, Prefix};
use ax_prog::tokens::{Kind, Token};
use ax_prog::{Bin, Span};
use sqlite_items::Items;
use std::alloc::{AllocError, Global};

/// Whether the token at a place is this terminal.
pub fn is_at(tokens: &[Token], at: usize, what: Terminal) -> bool
    requires { at ≤ length tokens.now }
    ensures some { result ≡ true → (at < length tokens.now) × (after what (drop at tokens.now) ≡ Some (drop (at + 1) tokens.now)) }
    ensures none { result ≡ false → after what (drop at tokens.now) ≡ None }
{
    at < tokens.len() && fits(what, &tokens[at].kind)
}

/// Whether the tokens from a place on begin with these terminals.
pub fn are_at(tokens: &[Token], at: usize, what: &[Terminal]) -> bool
    requires { at ≤ length tokens.now }
    ensures some { result ≡ true → (at + length what.now ≤ length tokens.now) × (past what.now (drop at tokens.now) ≡ Some (drop (at + length what.now) tokens.now)) }
    ensures none { result ≡ false → past what.now (drop at tokens.now) ≡ None }
{
    let mut next = at;
    for terminal in what {
        if !is_at(tokens, next, *terminal) {
            return false;
        }
        next += 1;
    }
    true
}

/// From the token at `from` to the one before `to`.
pub fn extent(tokens: &[Token], from: usize, to: usize) -> Span
    requires order { from < to }
    requires within { to ≤ length tokens.now }
    ensures { result ≡ extent_to (drop from tokens.now) (drop to tokens.now) }
{
    Span {
        from: tokens[from].span.from,
        to: tokens[to - 1].span.to,
    }
}

/// The unary operator at a place.
pub fn prefix_at(tokens: &[Token], at: usize) -> Option<Prefix>
    requires { at ≤ length tokens.now }
    ensures found { next prefix_of_kind (drop at tokens.now) ≡ option_map (λ p. (p, drop (at + 1) tokens.now)) result }
    ensures within { IfSome result (λ p. at < length tokens.now) }
{
    if at == tokens.len() {
        return None;
    }
    prefix_of(&tokens[at].kind)
}

/// What the token at a place says behind an operand.
pub fn post_at(tokens: &[Token], at: usize) -> Option<Post>
    requires { at ≤ length tokens.now }
    ensures found { next post_of_kind (drop at tokens.now) ≡ option_map (λ p. (p, drop (at + 1) tokens.now)) result }
    ensures within { IfSome result (λ p. at < length tokens.now) }
{
    if at == tokens.len() {
        return None;
    }
    post_of(&tokens[at].kind)
}

/// The operator of a compound assignment at a place.
pub fn compound_at(tokens: &[Token], at: usize) -> Option<Bin>
    requires { at ≤ length tokens.now }
    ensures found { next compound_of_kind (drop at tokens.now) ≡ option_map (λ p. (p, drop (at + 1) tokens.now)) result }
    ensures within { IfSome result (λ p. at < length tokens.now) }
{
    if at == tokens.len() {
        return None;
    }
    compound_of(&tokens[at].kind)
}

/// Whether `++`, and not `--`, stands at a place.
pub fn step_at(tokens: &[Token], at: usize) -> Option<bool>
    requires { at ≤ length tokens.now }
    ensures found { next step_of_kind (drop at tokens.now) ≡ option_map (λ p. (p, drop (at + 1) tokens.now)) result }
    ensures within { IfSome result (λ p. at < length tokens.now) }
{
    if at == tokens.len() {
        return None;
    }
    step_of(&tokens[at].kind)
}

fn op_of(kind: &Kind, min: usize) -> Option<Bin>
    ensures { result ≡ op_from min kind.now }
{
    let op = binary_of(kind)?;
    if min <= level(op) { Some(op) } else { None }
}

/// The binary operator at a place, where it binds at least as tightly as `min`.
pub fn op_at(tokens: &[Token], at: usize, min: usize) -> Option<Bin>
    requires { at ≤ length tokens.now }
    ensures found { next (op_from min) (drop at tokens.now) ≡ option_map (λ op. (op, drop (at + 1) tokens.now)) result }
    ensures within { IfSome result (λ op. at < length tokens.now) }
{
    if at == tokens.len() {
        return None;
    }
    op_of(&tokens[at].kind, min)
}

/// The name at a place.
pub fn name_at(alloc: Global, tokens: &[Token], at: usize) -> Result<Option<Name>, AllocError>
    requires { at ≤ length tokens.now }
    ensures found { IfOk result (λ o. name (drop at tokens.now) ≡ option_map (λ x. (x, drop (at + 1) tokens.now)) o) }
    ensures within { IfOk result (λ o. IfSome o (λ x. at < length tokens.now)) }
{
    if at == tokens.len() {
        return Ok(None);
    }
    let t = &tokens[at];
    match &t.kind {
        Kind::Name(text) => {
            let text = Items::from_slice(alloc, text.as_slice())?;
            Ok(Some(Name { span: t.span, text }))
        }
        Kind::Number(_) => Ok(None),
        Kind::Keyword(_) => Ok(None),
        Kind::Format(_) => Ok(None),
        Kind::Mark(_) => Ok(None),
    }
}

/// The name or number at a place.
pub fn leaf_at(alloc: Global, tokens: &[Token], at: usize) -> Result<Option<Expr>, AllocError>
    requires { at ≤ length tokens.now }
    ensures found { IfOk result (λ o. leaf (drop at tokens.now) ≡ option_map (λ x. (x, drop (at + 1) tokens.now)) o) }
    ensures within { IfOk result (λ o. IfSome o (λ x. at < length tokens.now)) }
{
    if at == tokens.len() {
        return Ok(None);
    }
    let t = &tokens[at];
    match &t.kind {
        Kind::Name(text) => {
            let text = Items::from_slice(alloc, text.as_slice())?;
            Ok(Some(Expr::Name(t.span, text)))
        }
        Kind::Number(n) => Ok(Some(Expr::Number(t.span, *n))),
        Kind::Keyword(_) => Ok(None),
        Kind::Format(_) => Ok(None),
        Kind::Mark(_) => Ok(None),
    }
}
