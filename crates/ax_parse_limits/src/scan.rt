//! The first expression of a source that is too large.
ghost use Rattle.std.specs.Prelude.{◌≡◌, ◌+◌, ◌≤◌, false, length, drop};
ghost use Rattle.ax_parse_grammar.specs.declared.tree.Tree.{Tree};
ghost use Rattle.ax_parse_grammar.specs.Sources.{SpellsTree};
ghost use Rattle.ax_parse_limits.specs.Wholes.{wholes, first_large};
ghost use Rattle.ax_parse_limits.specs.Scan.{behind as behind_of, goes_on_head as goes_on_head_of, shuts as shuts_of, scan as scan_list};

use crate::classes::class_of;
use crate::counts::{Class, large_in};
use ax_prog::tokens::Token;

// The start of the first part that is too large, of those that a token of this class opens, at a place behind it.
fn behind(tokens: &[Token], at: usize, head: bool, shut: bool, class: Class) -> Option<usize>
    requires { at ≤ length tokens.now }
    ensures { result ≡ behind_of head shut class (drop at tokens.now) }
{
    if shut {
        return None;
    }
    match class {
        Class::OpenRound => large_in(tokens, at, true),
        Class::OpenSquare => large_in(tokens, at, false),
        Class::Sets => large_in(tokens, at, false),
        Class::Return => large_in(tokens, at, false),
        Class::Semicolon => {
            if head {
                large_in(tokens, at, false)
            } else {
                None
            }
        }
        Class::Operand => None,
        Class::Operator => None,
        Class::Close => None,
        Class::Link => None,
        Class::Comma => None,
        Class::For => None,
        Class::Scanf => None,
        Class::Other => None,
    }
}

fn goes_on_head(head: bool, class: Class) -> bool
    ensures { result ≡ goes_on_head_of head class }
{
    match class {
        Class::For => true,
        Class::Semicolon => false,
        _ => head,
    }
}

fn shuts(class: Class) -> bool
    ensures { result ≡ shuts_of class }
{
    matches!(class, Class::For | Class::Scanf)
}

fn scan(tokens: &[Token]) -> Option<usize>
    ensures { result ≡ scan_list false false tokens.now }
{
    let mut head = false;
    let mut shut = false;
    let mut at = 0;
    while at < tokens.len() {
        let class = class_of(&tokens[at].kind);
        if let Some(place) = behind(tokens, at + 1, head, shut, class) {
            return Some(place);
        }
        head = goes_on_head(head, class);
        shut = shuts(class);
        at += 1;
    }
    None
}

/// The start of the first part that the rule `expr` spells and that has more than 400 nodes, in tokens that spell a source.
pub fn too_large(tokens: &[Token]) -> Option<usize>
    ensures { (t : Tree) (s : SpellsTree t tokens.now) → result ≡ first_large (wholes s) }
{
    scan(tokens)
}
