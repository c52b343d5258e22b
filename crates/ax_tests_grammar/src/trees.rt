//! Sources, and what the limits say of them.
use crate::texts::{numbered, repeated, tokens_of};
use ax_lex::LexFault;
use ax_parse::{parse, read_tree};
use ax_parse_limits::{call_inside, too_deep, too_large};
use std::alloc::Global;

#[test]
fn too_deep_at(rt: HostRuntime) -> Result<(), LexFault> {
    let rows = [
        ("( ", 200, None),
        ("( ", 250, Some(200)),
        // an operator counts where no value stands before it
        ("- ", 201, Some(200)),
        (") * ", 300, None),
        // what is closed doesn't count
        ("[ ] ", 300, None),
    ];
    let alloc = rt.alloc();
    for (marks, times, wanted) in &rows {
        let text = repeated(alloc, "", marks, *times, ";")?;
        let tokens = numbered(alloc, &text)?;
        assert!(rt;
            too_deep(alloc, tokens.as_slice())? == *wanted,
            "{times} {marks}"
        );
    }
    Ok(())
}

// Where the first call inside an expression of a source stands.
fn inside(alloc: Global, source: &str) -> Result<Option<usize>, LexFault> {
    let tokens = tokens_of(alloc, source)?;
    match read_tree(alloc, tokens.as_slice()) {
        Ok(tree) => Ok(call_inside(&tree)),
        Err(_) => Err(LexFault::Memory),
    }
}

#[test]
fn calls(rt: HostRuntime) -> Result<(), LexFault> {
    let rows = [
        ("int x = f();", None),
        ("int x = f(f());", Some(10)),
        ("int x = -f();", Some(9)),
    ];
    for (source, wanted) in &rows {
        assert!(rt; inside(rt.alloc(), source)? == *wanted, "{source}");
    }
    Ok(())
}

#[test]
fn too_large_at(rt: HostRuntime) -> Result<(), LexFault> {
    let rows = [
        ("int x = a", " + a", 200, ";", Some(8)),
        ("int x = -a", " + a", 199, ";", None),
        ("int x = (a", " + a", 200, ");", Some(8)),
        ("int main() { return a", "(0).n", 134, "; }", Some(20)),
        ("int main() { return a", "(0).n", 133, "; }", None),
        // each of the arguments, and the condition of a `for`
        ("int main() { f(0, a", " + a", 200, "); }", Some(18)),
        ("int main() { for (;a", " + a", 200, ";) ; }", Some(19)),
        // left sides are no expressions, but hold some
        ("int main() { p", "->n", 500, " = 0; }", None),
        ("int main() { (p", "->n", 400, ")->n = 0; }", Some(14)),
        ("int main() { scanf(\"%d\", &p", "->n", 500, "); }", None),
        ("int a", "[1]", 500, ";", None),
    ];
    let alloc = rt.alloc();
    for (before, middle, times, behind, wanted) in &rows {
        let source = repeated(alloc, before, middle, *times, behind)?;
        let tokens = tokens_of(alloc, &source)?;
        assert!(rt; too_large(tokens.as_slice()) == *wanted, "{before}");
    }
    Ok(())
}

// How many parts the tree of a source has, or the fault.
fn outcome(alloc: Global, source: &str) -> Result<String, LexFault> {
    let tokens = tokens_of(alloc, source)?;
    match parse(alloc, tokens.as_slice()) {
        Err(fault) => Ok(format!(in alloc; "{fault:?}")?),
        Ok(tree) => Ok(format!(in alloc; "{}", tree.parts.len())?),
    }
}

#[test]
fn sources(rt: HostRuntime) -> Result<(), LexFault> {
    let rows = [
        ("", "0"),
        ("int main() { if (a) if (b) ; else ; }", "1"),
        (
            "struct s { int a, *b; }; int g[2] = {1, -2}; void f(int a[], struct s *b); int main() { f(g, 0); }",
            "4",
        ),
        (
            "int main() { int x = f(1); x = g(2); f(3); return (f(4)); }",
            "1",
        ),
        // no tree is spelled
        (
            "int main() { int x; int *p; p = &x; *p++; return 0; }",
            "Syntax(38)",
        ),
        ("int main() {", "Syntax(12)"),
        ("int x", "Syntax(5)"),
        ("int x; y", "Syntax(7)"),
        ("struct s { int a; }", "Syntax(19)"),
        ("int a, f(int);", "Syntax(8)"),
        ("void x;", "Syntax(6)"),
        // a call stands inside an expression
        (
            "int f(int x) { return x; }\nint main() { int y; y = f(1) + 1; return y; }",
            "CallInside(51)",
        ),
        ("int main() { f(g(1)); return 0; }", "CallInside(15)"),
        ("int main() { x += f(1); }", "CallInside(18)"),
        ("int main() { if (f(1)) ; }", "CallInside(17)"),
        ("int main() { for (f(); g(); h()) ; }", "CallInside(23)"),
    ];
    for (source, wanted) in &rows {
        assert!(rt;
            outcome(rt.alloc(), source)?.as_str() == *wanted,
            "{source}"
        );
    }
    Ok(())
}

// No source begins with the tokens up to and including the one at the place.
#[test]
fn syntax_at(rt: HostRuntime) -> Result<(), LexFault> {
    let rows = [
        ("int f(void, int a);", 10),
        ("int a[] ;", 8),
        ("int a[3][] = {1};", 9),
        ("int a[] = 1;", 10),
        ("int g[2] = {};", 12),
        ("int g[2] = {1, -, 2};", 16),
        ("int main() { f(1) + 2; }", 18),
        ("int main() { (f(1)); }", 19),
        ("int main() { -f(1); }", 18),
        ("int main() { a b; }", 15),
        ("int main() { 1; }", 14),
        ("int main() { a + 1 = 2; }", 15),
        ("int main() { ++a++; }", 16),
        ("int main() { *p--; }", 15),
        ("int main() { x = y z; }", 19),
        ("int main() { return a ? b; }", 25),
        ("int main() { return f(1,); }", 24),
        ("int main() { if (a) int b; }", 20),
        ("int main() { else ; }", 13),
        ("int main() { if (a) ; else ; else ; }", 29),
        ("int main() { do ; while (a) }", 28),
        ("int main() { for (int i = 0, ; ) ; }", 29),
        ("int main() { for (f(); ; g();) ; }", 28),
        ("int main() { printf(\"%d\", 1, 2); }", 27),
        ("int main() { scanf(\"%d\", a); }", 25),
        ("int main() { } }", 15),
        ("struct s { int a = 1; };", 17),
        ("struct s int x;", 9),
        ("struct s a, *f(int);", 14),
        ("void f(int a) int b;", 14),
    ];
    let alloc = rt.alloc();
    for (source, wanted) in &rows {
        let fault = format!(in alloc; "Syntax({wanted})")?;
        assert!(rt;
            outcome(alloc, source)?.as_str() == fault.as_str(),
            "{source}"
        );
    }
    Ok(())
}

#[test]
fn long_sources(rt: HostRuntime) -> Result<(), LexFault> {
    let rows = [
        ("int main() { return ", "(", 250, "", "TooDeep(219)"),
        (
            "int main() { int x; x = 1; ",
            "if (x) ",
            250,
            ";}",
            "TooDeep(1416)",
        ),
        // what stands in a row is read in an ordinary stack
        ("int main() { p", "->n", 3000, " = 0; }", "1"),
        ("int a", "[1]", 6000, ";", "1"),
        ("int main() { ", ";", 19900, "}", "1"),
    ];
    let alloc = rt.alloc();
    for (before, middle, times, behind, wanted) in &rows {
        let source = repeated(alloc, before, middle, *times, behind)?;
        assert!(rt;
            outcome(alloc, &source)?.as_str() == *wanted,
            "{times} {middle}"
        );
    }
    Ok(())
}
