//! What a source may go on with.
use ax_parse_grammar::terminals::Terminal;

/// Items with commas between them, and the mark behind the last.
#[derive(Clone, Copy, PartialEq, Eq, Debug)]
pub enum Listing {
    /// Arguments, up to `)`.
    Args,
    /// Declarators with initialisers, up to `;`.
    Decl,
    /// Members, up to `;`.
    Members,
    /// Parameters, up to `)`.
    Params,
}

/// A part of a source that is still to come. Those that are marked so may also be left out.
#[derive(Clone, Copy, PartialEq, Eq, Debug)]
pub enum Symbol {
    Take(Terminal),
    Name,
    Number,
    /// Any format.
    Format,
    /// A unary expression.
    Unary,
    /// The marks behind an operand; may be left out.
    Posts,
    /// What goes on behind a unary expression, up to the end of an expression; may be left out.
    More,
    /// Arguments and their `)`.
    Args,
    /// Behind an item: a comma and more items, or the end.
    End(Listing),
    /// A simple statement without its `;`.
    Simple,
    /// Behind an operand with which a simple statement begins, and which is no call.
    Plain,
    /// Behind a call with which a simple statement begins; may be left out.
    Called,
    /// The mark of an assignment, and the right side.
    Assigned,
    Decl,
    /// Stars; may be left out.
    Stars,
    /// Behind a declarator's name: sizes and an initialiser; may be left out.
    Named,
    /// Behind the first `[` of a declarator.
    Count,
    /// Sizes, none empty; may be left out.
    Sizes,
    /// An initialiser; may be left out.
    Rest,
    /// Behind the `=` of an initialiser.
    Init,
    /// Numbers and `}`.
    Numbers,
    /// Behind a number: `}`, or a comma and what `NumbersMore` says.
    NumbersEnd,
    /// `}`, or numbers and `}`.
    NumbersMore,
    Stmt,
    /// The items of a block and `}`.
    Items,
    /// `else` and its statement; may be left out.
    Else,
    /// An expression or none, and `;`.
    Value,
    /// How a `for` begins, up to its first `;`.
    Opening,
    /// The third part of a `for` and `)`.
    Step,
    /// What stands at the top of a source, again and again.
    Parts,
    /// Behind the name at the top of a source.
    TopNamed,
    /// Behind `struct` and a tag at the top of a source.
    TopStruct,
    /// The members of a struct, `}` and `;`.
    Members,
    /// Parameters and `)`.
    Params,
    Param,
    /// A parameter's name; may be left out.
    ParamName,
    /// Sizes, of which the first may be empty; may be left out.
    FirstSize,
    /// Behind the first `[` of a parameter.
    ParamCount,
    /// The body of a function, or `;`.
    Body,
}
