//! Programs of texts, and why a text has none.
use ax_front::{SourceFault, read_source};
use ax_parse::ParseFault;
use ax_prog::Program;
use std::alloc::{AllocError, Global};

const P1: &str =
    "int main() { int x; int y; scanf(\"%d\", &x); scanf(\"%d\", &y); if (x < y) printf(\"%d\", 1); else printf(\"%d\", 0); return 0; }";

// The slots with their spans, and how many names are in scope and how many atoms they have.
fn slots_of(alloc: Global, program: &Program) -> Result<String, AllocError> {
    let mut all = String::new(alloc);
    for slot in program.slots.as_slice() {
        let part = format!(in alloc;
            "{}-{}:{}:{} ",
            slot.span.from,
            slot.span.to,
            slot.scope.len(),
            slot.atoms.len()
        )?;
        all.push_str(&part)?;
    }
    Ok(all)
}

fn fault_of(alloc: Global, fault: SourceFault) -> Result<String, AllocError> {
    match fault {
        SourceFault::Type(fault) => format!(in alloc;
            "{:?} {}-{}",
            fault.kind, fault.span.from, fault.span.to
        ),
        other => format!(in alloc; "{other:?}"),
    }
}

// The slots of the program of a text, or the fault.
fn read(alloc: Global, source: &str) -> Result<String, AllocError> {
    if source.len() > 100_000 {
        return Err(AllocError);
    }
    match read_source(alloc, source.as_bytes()) {
        Err(fault) => fault_of(alloc, fault),
        Ok(program) => slots_of(alloc, &program),
    }
}

// Places and faults are counted by hand.
const SOURCES: [(&str, &str); 19] = [
    (P1, "65-70:2:2 85-86:2:0 107-108:2:0 118-119:2:0 "),
    (
        "#include <stdio.h>\n/* a */ int main() { return 0; } // b",
        "47-48:0:0 ",
    ),
    // the condition with two atoms, the value with one, the number with none
    (
        "int main() { int x; int y; if (x < y) x = x; return 0; }",
        "31-36:2:2 42-43:2:1 52-53:2:0 ",
    ),
    // parentheses around the whole are no part of a slot
    (
        "int main() { int x; x = ((x)) < (x + 1); return 0; }",
        "24-39:1:2 48-49:1:0 ",
    ),
    // an argument is a slot, a call is none, nor is a pointer
    (
        "int f(int *p, int n) { return *p + n; } int main() { int x; x = f(&x, x + 1); return x; }",
        "30-36:1:2 70-75:1:1 85-86:1:1 ",
    ),
    ("int main() { return y; }", "UnknownName 20-21"),
    (
        "int main() { int x; if (x < y) x = x; return 0; }",
        "UnknownName 28-29",
    ),
    ("int main() { int x; int x; return 0; }", "Redeclared 24-25"),
    (
        "int main() { int x; int *p; p = x; return 0; }",
        "WrongType 28-33",
    ),
    ("int main() { 1 = 2; return 0; }", "NotLvalue 13-14"),
    ("", "NoMain 0-0"),
    ("int f() { return 0; }", "NoMain 21-21"),
    ("int main() { return 0; } /*", "Lex(OpenComment(25))"),
    (
        "int main() { return -2147483648; }",
        "Lex(NumberTooLarge(21))",
    ),
    ("a @", "Lex(BadByte(2))"),
    (
        "int main() { int x; int *p; p = &x; *p++; return 0; }",
        "Parse(Syntax(38))",
    ),
    (
        "int f(int x) { return x; }\nint main() { int y; y = f(1) + 1; return y; }",
        "Parse(CallInside(51))",
    ),
    ("int main() { break; }", "Misplaced 13-19"),
    (
        "struct s { struct s x[2]; }; int main() { return 0; }",
        "RecursiveStruct 20-24",
    ),
];

#[test]
fn sources(rt: HostRuntime) -> Result<(), AllocError> {
    for (source, wanted) in &SOURCES {
        assert!(rt; read(rt.alloc(), source)?.as_str() == *wanted, "{source}");
    }
    Ok(())
}

// `before`, so many times `middle`, and `behind`.
fn repeated(
    alloc: Global,
    before: &str,
    middle: &str,
    times: u32,
    behind: &str,
) -> Result<String, AllocError> {
    let mut text = String::from_str(alloc, before)?;
    for _ in 0..times {
        text.push_str(middle)?;
    }
    text.push_str(behind)?;
    Ok(text)
}

#[test]
fn nesting(rt: HostRuntime) -> Result<(), AllocError> {
    let rows = [
        ("int main() { return ", "(", "", 219),
        ("int main() { int x; x = 1; ", "if (x) ", ";}", 1416),
    ];
    for (before, middle, behind, place) in &rows {
        let source = repeated(rt.alloc(), before, middle, 250, behind)?;
        if source.len() > 100_000 {
            return Err(AllocError);
        }
        match read_source(rt.alloc(), source.as_bytes()) {
            Err(SourceFault::Parse(ParseFault::TooDeep(at))) => {
                assert!(rt; at == *place, "{middle}: {at}")
            }
            _ => assert!(rt; false, "{middle}"),
        }
    }
    Ok(())
}
