use ax_front_facts::lies_in;
use ax_prog::Span;

// in a text of five bytes
#[test]
fn spans_of_a_text(rt: HostRuntime) {
    let rows = [
        ("the whole text", 0, 5, true),
        ("nothing at the end", 5, 5, true),
        ("ends exchanged", 3, 2, false),
        ("past the end", 5, 6, false),
    ];
    for (row, from, to, lies) in rows {
        assert!(rt; lies_in(5, &Span { from, to }) == lies, "{row}");
    }
}
