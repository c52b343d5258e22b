//! Deep and long sources are read in an ordinary stack.

use crate::answers::answer;
use std::alloc::{AllocError, Global};
use std::test::Fail;

fn push_times(text: &mut String, part: &str, count: usize) -> Result<(), AllocError> {
    for _ in 0..count {
        text.push_str(part)?;
    }
    Ok(())
}

// The answer to what begins so, so many times `open`, the middle, as many times `close`, and the last bracket.
fn nested(
    alloc: Global,
    begin: &str,
    open: &str,
    count: usize,
    middle: &str,
    close: &str,
) -> Result<String, AllocError> {
    let mut source = String::new(alloc);
    source.push_str(begin)?;
    push_times(&mut source, open, count)?;
    source.push_str(middle)?;
    push_times(&mut source, close, count)?;
    source.push_str("}")?;
    answer(alloc, source.as_str())
}

const NESTED: [(&str, &str, usize, &str, &str, &str); 19] = [
    (
        "int main() { int x; x = 0; ",
        "x = x; ",
        4900,
        "return y; ",
        "",
        "UnknownName 34334 34335",
    ),
    (
        "int main() { int a",
        "[1]",
        6000,
        "; return y; ",
        "",
        "UnknownName 18027 18028",
    ),
    (
        "int a",
        "[1]",
        6000,
        "; int b[0]; int main() { ",
        "",
        "WrongType 18011 18015",
    ),
    (
        "int f(int a",
        "[1]",
        6000,
        ") { return y; ",
        "",
        "UnknownName 18022 18023",
    ),
    (
        "int f(int a",
        "[1]",
        6000,
        "); int f(int a[2]) { ",
        "",
        "Redeclared 18018 18019",
    ),
    (
        "struct s { int a",
        "[1]",
        6000,
        "; }; int main() { struct s *p; p = 0; return p->b; ",
        "",
        "MissingField 18064 18065",
    ),
    (
        "int main() { { int *p",
        "[1]",
        6000,
        "; return y; } ",
        "",
        "UnknownName 18030 18031",
    ),
    (
        "int main() { ",
        ";",
        19000,
        "return y; ",
        "",
        "UnknownName 19020 19021",
    ),
    (
        "int main() { ",
        "{}",
        9900,
        "break; ",
        "",
        "Misplaced 19813 19819",
    ),
    (
        "int main() { ",
        "{ ",
        199,
        "break; ",
        "} ",
        "Misplaced 411 417",
    ),
    (
        "int main() { ",
        "if (1) ",
        198,
        "break; ",
        "",
        "Misplaced 1399 1405",
    ),
    (
        "int main() { ",
        "if (1) { ",
        99,
        "return y; ",
        "} ",
        "UnknownName 911 912",
    ),
    (
        "int main() { ",
        "while (1) { int x; ",
        99,
        "x = y; ",
        "} ",
        "UnknownName 1898 1899",
    ),
    (
        "int main() { ",
        "if (1) { } else ",
        99,
        "return y; ",
        "",
        "UnknownName 1604 1605",
    ),
    (
        "int main() { ",
        "for (; ; ) ",
        198,
        "return y; ",
        "",
        "UnknownName 2198 2199",
    ),
    (
        "int main() { ",
        "do ",
        199,
        "y = 1; ",
        "while (0); ",
        "UnknownName 610 611",
    ),
    (
        "struct s { struct s *n; }; int main() { struct s *p; p",
        "->n",
        9900,
        " = 0; ",
        "",
        "program",
    ),
    (
        "struct s { struct s *n; }; int main() { struct s *p; p",
        "->n",
        9900,
        " = 1; ",
        "",
        "WrongType 53 29758",
    ),
    (
        "struct s { struct s *n; }; int main() { struct s *p; p",
        "->n",
        9900,
        "->m = 0; ",
        "",
        "MissingField 29756 29757",
    ),
];

// The answer to so many structs, each a member of the next one, with these sizes, and what stands behind them.
fn structs(alloc: Global, count: usize, sizes: &str, behind: &str) -> Result<String, AllocError> {
    let mut source = String::new(alloc);
    source.push_str("struct s0 { int x; }; ")?;
    for i in 1..count {
        let below = i - 1;
        let text = format!(in alloc; "struct s{i} {{ struct s{below} x{sizes}; }}; ")?;
        source.push_str(text.as_str())?;
    }
    source.push_str(behind)?;
    answer(alloc, source.as_str())
}

const STRUCTS: [(usize, &str, &str, &str); 5] = [
    (
        1500,
        "",
        "int main() { struct s1499 v; return v.x.y; }",
        "MissingField 48811 48812",
    ),
    (
        1500,
        "",
        "struct s1499 v[4096]; int main() { return y; }",
        "UnknownName 48813 48814",
    ),
    (
        1500,
        "",
        "struct s1499 v[4097]; int main() { return 0; }",
        "TooLarge 48784 48791",
    ),
    (
        1500,
        "[2147483647]",
        "struct s1499 *p; int main() { struct s1499 *q = p; return y; }",
        "UnknownName 66817 66818",
    ),
    (
        1500,
        "[2147483647]",
        "struct s1499 v; int main() { return 0; }",
        "TooLarge 66772 66773",
    ),
];

fn other_nested(
    alloc: Global,
    rows: &[(&str, &str, usize, &str, &str, &str)],
) -> Result<String, AllocError> {
    for (begin, open, count, middle, close, wanted) in rows {
        let found = nested(alloc, begin, open, *count, middle, close)?;
        if found.as_str() != *wanted {
            return format!(in alloc; "{begin}{open}{middle}{close}: {found}");
        }
    }
    Ok(String::new(alloc))
}

fn other_structs(alloc: Global, rows: &[(usize, &str, &str, &str)]) -> Result<String, AllocError> {
    for (count, sizes, behind, wanted) in rows {
        let found = structs(alloc, *count, sizes, behind)?;
        if found.as_str() != *wanted {
            return format!(in alloc; "{sizes} {behind}: {found}");
        }
    }
    Ok(String::new(alloc))
}

/// Dimensions, blocks, conditions, statements in a row, and members of members.
#[test]
fn deep_sources(rt: HostRuntime) -> Result<(), Fail> {
    assert_eq!(rt; other_nested(rt.alloc(), &NESTED)?.as_str(), "");
    Ok(())
}

/// Structs in structs, and types of more cells than any number here counts.
#[test]
fn deep_structs(rt: HostRuntime) -> Result<(), Fail> {
    assert_eq!(rt; other_structs(rt.alloc(), &STRUCTS)?.as_str(), "");
    Ok(())
}
