//! The texts that say why a source, a suite or a line of words is refused. Each is a line; of want of memory there is none.
#![tactic(auto)]

ghost use Rattle.std.specs.Prelude.{◌≡◌, IfOk, string_bytes};
ghost use Rattle.ax_top_texts.specs.Texts.{refused_at, lex_report, parse_report, kind_name, type_report, source_report, test_report, suite_report, option_report, words_report};

use ax_front::SourceFault;
use ax_lex::LexFault;
use ax_names_types::{TypeFault, TypeKind};
use ax_parse::ParseFault;
use ax_suite::SuiteFault;
use ax_words::WordFault;
use std::alloc::{AllocError, Global};

fn refused(alloc: Global, what: &str, at: usize) -> Result<String, AllocError>
    ensures { IfOk result (λ s. string_bytes s ≡ refused_at what.now at) }
{
    format!(in alloc; "source refused: {what} at {at}\n")
}

fn lex_text(alloc: Global, fault: LexFault) -> Result<String, AllocError>
    ensures { IfOk result (λ s. string_bytes s ≡ lex_report fault) }
{
    match fault {
        LexFault::Memory => Ok(String::new(alloc)),
        LexFault::BadByte(at) => refused(alloc, "bad byte", at),
        LexFault::OpenComment(at) => refused(alloc, "open comment", at),
        LexFault::NumberTooLarge(at) => refused(alloc, "number too large", at),
        LexFault::TooManyTokens(at) => refused(alloc, "too many tokens", at),
    }
}

fn parse_text(alloc: Global, fault: ParseFault) -> Result<String, AllocError>
    ensures { IfOk result (λ s. string_bytes s ≡ parse_report fault) }
{
    match fault {
        ParseFault::Memory => Ok(String::new(alloc)),
        ParseFault::TooDeep(at) => refused(alloc, "too deep", at),
        ParseFault::Syntax(at) => refused(alloc, "syntax", at),
        ParseFault::CallInside(at) => refused(alloc, "call inside an expression", at),
        ParseFault::ExprTooLarge(at) => refused(alloc, "expression too large", at),
    }
}

// What a broken type rule is called.
fn kind_text(kind: TypeKind) -> &'static str
    ensures { result.now ≡ kind_name kind }
{
    match kind {
        TypeKind::UnknownName => "unknown name",
        TypeKind::Redeclared => "redeclared",
        TypeKind::WrongType => "wrong type",
        TypeKind::NotLvalue => "not an lvalue",
        TypeKind::WrongCount => "wrong count",
        TypeKind::NoMain => "no main",
        TypeKind::MissingField => "missing field",
        TypeKind::RecursiveStruct => "recursive struct",
        TypeKind::TooLarge => "too large",
        TypeKind::Misplaced => "misplaced",
    }
}

fn type_text(alloc: Global, fault: TypeFault) -> Result<String, AllocError>
    ensures { IfOk result (λ s. string_bytes s ≡ type_report fault) }
{
    refused(alloc, kind_text(fault.kind), fault.span.from as usize)
}

/// Why a source is refused, and where: the place of the first byte of what is at fault.
pub fn source_text(alloc: Global, fault: SourceFault) -> Result<String, AllocError>
    ensures { IfOk result (λ s. string_bytes s ≡ source_report fault) }
{
    match fault {
        SourceFault::Memory => Ok(String::new(alloc)),
        SourceFault::Lex(fault) => lex_text(alloc, fault),
        SourceFault::Parse(fault) => parse_text(alloc, fault),
        SourceFault::Type(fault) => type_text(alloc, fault),
    }
}

fn in_test(alloc: Global, what: &str, test: u32) -> Result<String, AllocError>
    ensures { IfOk result (λ s. string_bytes s ≡ test_report what.now test) }
{
    format!(in alloc; "suite refused: {what} in test {test}\n")
}

/// Why a suite is refused, and in which test.
pub fn suite_text(alloc: Global, fault: SuiteFault) -> Result<String, AllocError>
    ensures { IfOk result (λ s. string_bytes s ≡ suite_report fault) }
{
    match fault {
        SuiteFault::Memory => Ok(String::new(alloc)),
        SuiteFault::NotJson => String::from_str(alloc, "suite refused: not json\n"),
        SuiteFault::BadShape(test) => in_test(alloc, "bad shape", test),
        SuiteFault::TooMany(test) => in_test(alloc, "too many", test),
        SuiteFault::OutOfInt(test) => in_test(alloc, "out of int", test),
    }
}

fn of_option(alloc: Global, what: &str, option: &str) -> Result<String, AllocError>
    ensures { IfOk result (λ s. string_bytes s ≡ option_report what.now option.now) }
{
    format!(in alloc; "words refused: {what} {option}\n")
}

/// Why the words give no order.
pub fn words_text(alloc: Global, fault: &WordFault) -> Result<String, AllocError>
    ensures { IfOk result (λ s. string_bytes s ≡ words_report fault.now) }
{
    match fault {
        WordFault::Memory => Ok(String::new(alloc)),
        WordFault::NoCommand => String::from_str(alloc, "words refused: no command\n"),
        WordFault::UnknownCommand => String::from_str(alloc, "words refused: unknown command\n"),
        WordFault::Refused => String::from_str(alloc, "words refused: arguments\n"),
        WordFault::BadNumber(option) => of_option(alloc, "bad number", option.as_str()),
        WordFault::OutOfRange(option) => of_option(alloc, "out of range", option.as_str()),
        WordFault::BadList(option) => of_option(alloc, "bad list", option.as_str()),
        WordFault::Both => String::from_str(alloc, "words refused: pick beside top or formula\n"),
        WordFault::SameName => String::from_str(alloc, "words refused: same name\n"),
    }
}
