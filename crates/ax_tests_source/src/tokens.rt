//! Worked examples, and the limit on tokens.
ghost use Rattle.std.specs.Prelude.{◌<◌, ◌^◌, length};

use ax_lex::{LexFault, MAX_TOKENS, lex};
use ax_prog::tokens::Kind;
use std::alloc::{AllocError, Global};

fn word(alloc: Global, kind: &Kind) -> Result<String, AllocError> {
    match kind {
        Kind::Name(name) => String::from_utf8_lossy(alloc, name.as_slice()),
        Kind::Number(n) => format!(in alloc; "{n}"),
        Kind::Keyword(keyword) => format!(in alloc; "{keyword:?}"),
        Kind::Format(f) => format!(in alloc; "Format {f}"),
        Kind::Mark(mark) => format!(in alloc; "{mark:?}"),
    }
}

// The tokens with their places, or the fault.
fn shown(alloc: Global, source: &[u8]) -> Result<String, AllocError>
    requires { length source.now < 2 ^ 32 }
{
    let tokens = match lex(alloc, source) {
        Ok(tokens) => tokens,
        Err(fault) => return format!(in alloc; "{fault:?}"),
    };
    let mut text = String::new(alloc);
    for token in tokens.as_slice() {
        let word = word(alloc, &token.kind)?;
        let part = format!(in alloc; "{word} {}..{};", token.span.from, token.span.to)?;
        text.push_str(&part)?;
    }
    Ok(text)
}

const ROWS: [(&[u8], &str); 40] = [
    // The longest token is taken.
    (b"a+++b", "a 0..1;PlusPlus 1..3;Plus 3..4;b 4..5;"),
    (b"<<=>>", "ShlAssign 0..3;Shr 3..5;"),
    (
        b"p->n-->1",
        "p 0..1;Arrow 1..3;n 3..4;MinusMinus 4..6;Greater 6..7;1 7..8;",
    ),
    (b"int _x1;", "Int 0..3;_x1 4..7;Semicolon 7..8;"),
    (b"_Bool scanf inter", "Bool 0..5;Scanf 6..11;inter 12..17;"),
    // Numbers.
    (b"017 0 9", "15 0..3;0 4..5;9 6..7;"),
    (b"0X1f", "31 0..4;"),
    (b"2147483647", "2147483647 0..10;"),
    (b"2147483648", "NumberTooLarge(0)"),
    (b"2147483648a", "NumberTooLarge(0)"),
    (b"0xE + 1", "14 0..3;Plus 4..5;1 6..7;"),
    (b"0xE+1", "BadByte(3)"),
    (b"0xF+1", "15 0..3;Plus 3..4;1 4..5;"),
    (b"08", "BadByte(1)"),
    (b"0x", "BadByte(1)"),
    (b"0xg", "BadByte(1)"),
    (b"12a", "BadByte(2)"),
    (b"1.x", "1 0..1;Dot 1..2;x 2..3;"),
    // Formats.
    (b"\"%d\" \"%d\\n\"", "Format 0 0..4;Format 1 5..11;"),
    (b"\"%d \"", "Format 2 0..5;"),
    (b"\"%i\"", "BadByte(0)"),
    // Comments.
    (b"/* x", "OpenComment(0)"),
    (b"a /*/ b */ c", "a 0..1;c 11..12;"),
    (b"/***/x/**/y", "x 5..6;y 10..11;"),
    (b"a//b\nc", "a 0..1;c 5..6;"),
    (b"a / b", "a 0..1;Slash 2..3;b 4..5;"),
    (b"// a \\\nb", "BadByte(5)"),
    (b"// a \\ \nb", "b 8..9;"),
    (b"// a \\", ""),
    // Includes.
    (b"#include <stdio.h>\nint", "Int 19..22;"),
    (b" \t# \tinclude\t<> x", "x 16..17;"),
    (b"x #include <a>", "BadByte(2)"),
    (b"/**/#include <a>", "BadByte(4)"),
    (b"\r#include <a>", "BadByte(1)"),
    (b"#include <a\n>", "BadByte(0)"),
    (b"#define", "BadByte(0)"),
    // Other bytes.
    (b"a @", "BadByte(2)"),
    (b"\xc3", "BadByte(0)"),
    (b"a\r\n\tb", "a 0..1;b 4..5;"),
    (b"", ""),
];

#[test]
fn reads_worked_examples(rt: HostRuntime) -> Result<(), AllocError> {
    for (source, want) in &ROWS {
        assert!(rt; source.len() < 100);
        assert!(rt; shown(rt.alloc(), source)?.as_str() == *want, "{want}");
    }
    Ok(())
}

#[test]
fn stops_at_the_limit(rt: HostRuntime) -> Result<(), AllocError> {
    let mut source = vec![in rt.alloc(); b';'; MAX_TOKENS]?;
    assert!(rt; matches!(lex(rt.alloc(), &source), Ok(tokens) if tokens.len() == MAX_TOKENS));
    source.push(b';')?;
    let fault = LexFault::TooManyTokens(MAX_TOKENS);
    assert!(rt; matches!(lex(rt.alloc(), &source), Err(found) if found == fault));
    Ok(())
}
