//! Names in scope.
ghost use Rattle.std.specs.Prelude.{◌≡◌};
ghost use Rattle.std.specs.Option.{option_copied};
ghost use Rattle.ax_names_types.specs.Scopes.{same_text as same_text_of, innermost as innermost_of, is_function_entity, is_function_entry, is_function as is_function_name};

use crate::{Entity, Entry};
use ax_parse_grammar::tree::Expr;

fn same_text(a: &[u8], b: &[u8]) -> bool
    ensures { result ≡ same_text_of a.now b.now }
{
    a == b
}

/// The innermost declaration of a name.
#[tactic(auto, using(crate::proofs::Layers::scopes))]
pub fn innermost<'a>(name: &[u8], names: &'a [Entry]) -> Option<&'a Entry>
    ensures { option_copied result ≡ innermost_of name.now names.now }
{
    let mut found = None;
    for entry in names {
        if same_text(entry.name.as_slice(), name) {
            found = Some(entry);
        }
    }
    found
}

fn is_function_of(entity: &Entity) -> bool
    ensures { result ≡ is_function_entity entity.now }
{
    match entity {
        Entity::Variable(_, _) => false,
        Entity::Function(_) => true,
    }
}

fn names_function(name: &[u8], names: &[Entry]) -> bool
    ensures { result ≡ is_function_entry (innermost_of name.now names.now) }
{
    match innermost(name, names) {
        Some(entry) => is_function_of(&entry.entity),
        None => false,
    }
}

/// Whether an expression is the name of a function.
pub fn is_function(names: &[Entry], a: &Expr) -> bool
    ensures { result ≡ is_function_name names.now a.now }
{
    match a {
        Expr::Name(_, x) => names_function(x.as_slice(), names),
        Expr::Number(_, _) => false,
        Expr::Unary(_, _, _) => false,
        Expr::Binary(_, _, _, _) => false,
        Expr::Cond(_, _, _, _) => false,
        Expr::Index(_, _, _) => false,
        Expr::Member(_, _, _) => false,
        Expr::Arrow(_, _, _) => false,
        Expr::Call(_, _, _) => false,
    }
}
