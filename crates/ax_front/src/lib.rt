//! From the bytes of a source to its program, or to the first rule of the language that the source breaks.
#![tactic(auto)]

ghost use Rattle.std.specs.Prelude.{◌≡◌, ℕ, ◌<◌, ◌^◌, List, length, None, IfOk, IfErr};
ghost use Rattle.ax_prog.specs.declared.Program.{Program};
ghost use Rattle.ax_parse_limits.specs.Nesting.{first_too_deep};
ghost use Rattle.ax_parse_grammar.specs.declared.tree.Tree as parsed;
ghost use Rattle.ax_parse_grammar.specs.Sources.{SpellsTree};
ghost use Rattle.ax_parse_limits.specs.Calls.{call_inside};
ghost use Rattle.ax_parse_limits.specs.Wholes.{wholes, first_large};
ghost use Rattle.ax_names_rules.specs.Programs.{IsProgramOf};
ghost use Rattle.ax_front.specs.Causes.{IsRefusedParse, IsRefusedTree};
ghost use Rattle.ax_front.specs.Texts.{IsProgramOfText, KeepsLimits, FaultIs, RefusesRightly};

use ax_lex::{LexFault, lex};
use ax_names::resolve;
use ax_names_types::TypeFault;
use ax_parse::{ParseFault, parse};
use ax_parse_grammar::tree::Tree;
use ax_prog::Program;
use ax_prog::tokens::Token;
use std::alloc::{AllocError, Global};

/// Why a source was refused, by the first layer that refuses it.
#[derive(Clone, Copy, PartialEq, Eq, Debug)]
pub enum SourceFault {
    /// Memory was wanting, in whichever layer. It says nothing of the source, and has no place.
    Memory,
    /// The bytes are no tokens, or more than 20,000. The fault has the byte.
    Lex(LexFault),
    /// The tokens nest too deeply, spell no source, or hold a call inside an expression or an expression that is too large. The
    /// fault has the byte.
    Parse(ParseFault),
    /// The source breaks a rule on names and types. The fault has the rule and the span, in bytes.
    Type(TypeFault),
}

impl From<AllocError> for SourceFault {
    ghost use Rattle.std.specs.Prelude.{◌≡◌};
    ghost use Rattle.ax_front.specs.declared.SourceFault.TheVariants.{Memory};

    ghost from_gives = { λ _ e. e ≡ Memory };

    fn from(_: AllocError) -> SourceFault {
        SourceFault::Memory
    }
}

impl From<LexFault> for SourceFault {
    ghost use Rattle.std.specs.Prelude.{◌≡◌};
    ghost use Rattle.ax_front.specs.Causes.{from_lex};

    ghost from_gives = { λ fault e. e ≡ from_lex fault };

    fn from(fault: LexFault) -> SourceFault {
        match fault {
            LexFault::Memory => SourceFault::Memory,
            LexFault::BadByte(_) => SourceFault::Lex(fault),
            LexFault::OpenComment(_) => SourceFault::Lex(fault),
            LexFault::NumberTooLarge(_) => SourceFault::Lex(fault),
            LexFault::TooManyTokens(_) => SourceFault::Lex(fault),
        }
    }
}

impl From<ParseFault> for SourceFault {
    ghost use Rattle.std.specs.Prelude.{◌≡◌};
    ghost use Rattle.ax_front.specs.Causes.{from_parse};

    ghost from_gives = { λ fault e. e ≡ from_parse fault };

    fn from(fault: ParseFault) -> SourceFault {
        match fault {
            ParseFault::Memory => SourceFault::Memory,
            ParseFault::TooDeep(_) => SourceFault::Parse(fault),
            ParseFault::Syntax(_) => SourceFault::Parse(fault),
            ParseFault::CallInside(_) => SourceFault::Parse(fault),
            ParseFault::ExprTooLarge(_) => SourceFault::Parse(fault),
        }
    }
}

// The program of a tree, where it breaks no rule on names and types.
fn program_of(alloc: Global, tree: &Tree) -> Result<Program, SourceFault>
    ensures meant { IfOk result (λ program. IsProgramOf tree.now program) }
    ensures refused { IfErr result (IsRefusedTree tree.now) }
{
    match resolve(alloc, tree)? {
        Ok(program) => Ok(program),
        Err(fault) => Err(SourceFault::Type(fault)),
    }
}

// The tree that the tokens spell, within the limits of the language.
fn tree_of(alloc: Global, tokens: &[Token]) -> Result<Tree, SourceFault>
    ensures spelled { IfOk result (λ t. SpellsTree t tokens.now) }
    ensures shallow { IfOk result (λ t. first_too_deep tokens.now ≡ None) }
    ensures outside { IfOk result (λ t. call_inside t ≡ None) }
    ensures small { IfOk result (λ t. (s : SpellsTree t tokens.now) → first_large (wholes s) ≡ None) }
    ensures refused { IfErr result (IsRefusedParse tokens.now) }
{
    Ok(parse(alloc, tokens)?)
}

/// The program of a source, which has at most 20,000 tokens, nests at most 200 deep, and has no expression of more than 400 nodes.
///
/// # Errors
///
/// The first of `Lex`, `Parse` and `Type` whose layer refuses the source. Of the rules on names and types that are broken, the one
/// with the least start counts, at one start the first in the list of kinds.
pub fn read_source(alloc: Global, bytes: &[u8]) -> Result<Program, SourceFault>
    requires { length bytes.now < 2 ^ 32 }
    ensures found { IfOk result (λ program. IsProgramOfText bytes.now program) }
    ensures limits { IfOk result (λ program. KeepsLimits bytes.now) }

    ensures fault { IfErr result (FaultIs bytes.now) }
    ensures none { IfErr result (RefusesRightly bytes.now) }
{
    let tokens = lex(alloc, bytes)?;
    let tree = tree_of(alloc, tokens.as_slice())?;
    program_of(alloc, &tree)
}

/// A text has at most one program (a law).
pub fn one_program_of_text()
    ensures { (bytes : List ℕ) (p q : Program) → IsProgramOfText bytes p → IsProgramOfText bytes q → p ≡ q }
{}

/// A tree that has a program has no call inside an expression (a law).
pub fn programs_call_outside()
    ensures { (tree : parsed.Tree) (program : Program) → IsProgramOf tree program → call_inside tree ≡ None }
{}
