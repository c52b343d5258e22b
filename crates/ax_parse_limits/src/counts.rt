//! Counting the nodes of expressions by their tokens.
ghost use Rattle.std.specs.Prelude.{◌≡◌, suc, ◌+◌, ◌≤◌, ◌<◌, ◌^◌, if◌then◌else◌, IfSome, length, drop};
ghost use Rattle.ax_parse_limits.specs.Wholes.{start_of as start_of_list};
ghost use Rattle.ax_parse_limits.specs.Scan.{count as count_of, over as over_of, closed as closed_of, separated as separated_of, turn as turn_of, large_in as large_in_list};

use crate::classes::class_of;
use ax_prog::tokens::Token;

/// What a token is to expressions.
#[derive(Clone, Copy, PartialEq, Eq, Debug)]
pub enum Class {
    /// A name or a number.
    Operand,
    /// An operator, or the `?` of `? :`.
    Operator,
    OpenRound,
    OpenSquare,
    /// `)` or `]`.
    Close,
    /// `.`, `->`, the `:` of `? :` and formats, which count nothing by themselves.
    Link,
    Comma,
    /// `=` and the marks of compound assignments.
    Sets,
    Return,
    For,
    Scanf,
    Semicolon,
    /// What stands in no expression.
    Other,
}

/// What was counted of an expression so far.
#[derive(Clone, Copy, PartialEq, Eq, Debug)]
pub struct Count {
    /// Where its first token begins.
    pub start: usize,
    /// How many `(` and `[` of it are open.
    pub depth: usize,
    /// Whether a value stands before the next token, so that a `(` there is a call's.
    pub value: bool,
    pub nodes: usize,
}

/// The start of the token at a place, or 0 at the end.
fn start_of(tokens: &[Token], at: usize) -> usize
    requires { at ≤ length tokens.now }
    ensures { result ≡ start_of_list (drop at tokens.now) }
{
    if at == tokens.len() {
        return 0;
    }
    tokens[at].span.from as usize
}

fn over(count: Count) -> Option<usize>
    ensures { result ≡ over_of count }
{
    if count.nodes > 400 {
        Some(count.start)
    } else {
        None
    }
}

// Behind a comma outside parentheses.
fn next_part(many: bool, count: Count, at: usize) -> Option<Count>
    ensures value { result ≡ separated_of many count at 0 }
    ensures small { IfSome result (λ c. (c.depth ≡ 0) × (c.nodes ≡ 0)) }
{
    if !many || count.nodes > 400 {
        return None;
    }
    Some(with(at, 0, false, 0))
}

fn close(count: Count) -> Option<Count>
    ensures value { result ≡ closed_of count count.depth }
    ensures small { IfSome result (λ c. (c.depth ≤ count.depth) × (c.nodes ≡ count.nodes)) }
{
    if count.depth == 0 {
        return None;
    }
    let depth = count.depth - 1;
    Some(with(count.start, depth, true, count.nodes))
}

fn with(start: usize, depth: usize, value: bool, nodes: usize) -> Count
    ensures { result ≡ count_of start depth value nodes }
{
    Count {
        start,
        depth,
        value,
        nodes,
    }
}

// The nodes with a call's parentheses, where a value stands before them.
fn called(count: Count) -> usize
    requires { count.nodes < 2 ^ 63 }
    ensures value { result ≡ (if count.value then suc count.nodes else count.nodes) }
    ensures small { result ≤ count.nodes + 1 }
{
    if count.value {
        count.nodes + 1
    } else {
        count.nodes
    }
}

fn comma(many: bool, count: Count, at: usize) -> Option<Count>
    ensures value { result ≡ separated_of many count at count.depth }
    ensures small { IfSome result (λ c. (c.depth ≤ count.depth) × (c.nodes ≤ count.nodes)) }
{
    if count.depth == 0 {
        return next_part(many, count, at);
    }
    Some(with(count.start, count.depth, false, count.nodes))
}

/// What is counted behind one more token, or nothing where the token ends the part. The token behind it starts at `at`.
fn turn(many: bool, count: Count, class: Class, at: usize) -> Option<Count>
    requires depth { count.depth < 2 ^ 63 }
    requires nodes { count.nodes < 2 ^ 63 }
    ensures value { result ≡ turn_of many count at class }
    ensures small { IfSome result (λ c. (c.depth ≤ count.depth + 1) × (c.nodes ≤ count.nodes + 1)) }
{
    let Count {
        start,
        depth,
        value: _,
        nodes,
    } = count;
    match class {
        Class::Operand => Some(with(start, depth, true, nodes + 1)),
        Class::Operator => Some(with(start, depth, false, nodes + 1)),
        Class::OpenRound => Some(with(start, depth + 1, false, called(count))),
        Class::OpenSquare => Some(with(start, depth + 1, false, nodes + 1)),
        Class::Close => close(count),
        Class::Link => Some(with(start, depth, false, nodes)),
        Class::Comma => comma(many, count, at),
        Class::Sets => None,
        Class::Return => None,
        Class::For => None,
        Class::Scanf => None,
        Class::Semicolon => None,
        Class::Other => None,
    }
}

/// The start of the first part that is too large, of those that stand from a place on: one, or many with commas between them.
pub fn large_in(tokens: &[Token], at: usize, many: bool) -> Option<usize>
    requires { at ≤ length tokens.now }
    ensures { result ≡ large_in_list many (drop at tokens.now) }
{
    let mut count = with(start_of(tokens, at), 0, false, 0);
    let mut next = at;
    while next < tokens.len() {
        let class = class_of(&tokens[next].kind);
        match turn(many, count, class, start_of(tokens, next + 1)) {
            None => return over(count),
            Some(more) => count = more,
        }
        next += 1;
    }
    over(count)
}
