//! Texts and their tokens, for the tests.
use ax_lex::{LexFault, lex};
use ax_prog::Span;
use ax_prog::tokens::Token;
use sqlite_items::Items;
use std::alloc::{AllocError, Global};

// `before`, so many times `middle`, and `behind`.
pub fn repeated(
    alloc: Global,
    before: &str,
    middle: &str,
    times: u32,
    behind: &str,
) -> Result<String, AllocError> {
    let mut text = String::from_str(alloc, before)?;
    for _ in 0..times {
        text.push_str(middle)?;
    }
    text.push_str(behind)?;
    Ok(text)
}

// The tokens of a text of at most 100,000 bytes.
pub fn tokens_of(alloc: Global, text: &str) -> Result<Items<Token>, LexFault> {
    if text.len() > 100_000 {
        return Err(LexFault::Memory);
    }
    lex(alloc, text.as_bytes())
}

// The tokens of words, of which number n stands from n to n + 1.
pub fn numbered(alloc: Global, text: &str) -> Result<Items<Token>, LexFault> {
    let mut tokens = Items::new(alloc);
    let mut from = 0u32;
    for word in text.split(' ') {
        if let Some(mut token) = tokens_of(alloc, word)?.pop() {
            let to = from.wrapping_add(1);
            token.span = Span { from, to };
            tokens.push(token)?;
            from = to;
        }
    }
    Ok(tokens)
}
