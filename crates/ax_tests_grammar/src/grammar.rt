use crate::texts::numbered;
use ax_lex::LexFault;
use ax_parse_expressions::whole;
use ax_parse_grammar::operators::{
    Post, binary_of, compound_of, level, post_of, prefix_of, step_of,
};
use ax_parse_grammar::starts::{Start, start_of};
use ax_parse_grammar::terminals::{Terminal, fits};
use ax_parse_grammar::tree::{Prefix, span_of};
use ax_prog::tokens::{Keyword, Kind, Mark};
use ax_prog::{Bin, Span};

// The levels of C11 6.5.5 to 6.5.14, weakest first.
#[test]
fn operators(rt: HostRuntime) {
    let rows = [
        (Mark::BarBar, Some(Bin::Or)),
        (Mark::Amp, Some(Bin::BitAnd)),
        (Mark::Equal, Some(Bin::Eq)),
        (Mark::Star, Some(Bin::Mul)),
        (Mark::Bang, None),
    ];
    for (mark, wanted) in &rows {
        assert!(rt; binary_of(&Kind::Mark(*mark)) == *wanted, "{mark:?}");
    }
    assert!(rt; level(Bin::BitAnd) < level(Bin::Eq));
    assert!(rt; level(Bin::Or) < level(Bin::And));
    assert!(rt; prefix_of(&Kind::Mark(Mark::Star)) == Some(Prefix::Deref));
    assert!(rt; post_of(&Kind::Mark(Mark::OpenRound)) == Some(Post::Call));
    assert!(rt; compound_of(&Kind::Mark(Mark::ShlAssign)) == Some(Bin::Shl));
    assert!(rt; compound_of(&Kind::Mark(Mark::Assign)) == None);
    assert!(rt; step_of(&Kind::Mark(Mark::MinusMinus)) == Some(false));
}

#[test]
fn starts(rt: HostRuntime) {
    assert!(rt; start_of(&Kind::Keyword(Keyword::Struct)) == Start::Decl);
    assert!(rt; start_of(&Kind::Mark(Mark::Star)) == Start::Simple);
    assert!(rt; start_of(&Kind::Keyword(Keyword::Else)) == Start::Simple);
    assert!(rt; fits(Terminal::Format, &Kind::Format(0)));
    assert!(rt; !fits(Terminal::Format, &Kind::Format(1)));
    assert!(rt; !fits(Terminal::Int, &Kind::Keyword(Keyword::If)));
}

#[test]
fn spans(rt: HostRuntime) -> Result<(), LexFault> {
    let tokens = numbered(rt.alloc(), "- a")?;
    let span = Span { from: 0, to: 2 };
    match whole(rt.alloc(), tokens.as_slice(), 0) {
        Ok((tree, _)) => assert!(rt; span_of(&tree) == span),
        Err(fault) => assert!(rt; false, "{fault:?}"),
    }
    Ok(())
}
