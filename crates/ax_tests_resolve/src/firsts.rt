//! Of several faults, the first.

use crate::answers::other_answer;
use std::test::Fail;

const FIRST_FAULT: [(&str, &str); 11] = [
    ("int main() { return x + y; }", "UnknownName 20 21"),
    (
        "int main() { int x; x = y; break; return z; }",
        "UnknownName 24 25",
    ),
    (
        "int main() { int *p; p[y] = z; return 0; }",
        "UnknownName 23 24",
    ),
    (
        "int main() { int x; int x[0]; return 0; }",
        "Redeclared 24 25",
    ),
    (
        "int main() { int x; int *x[0]; return 0; }",
        "WrongType 24 29",
    ),
    (
        "int f() { return 0; } int main() { f(y); return 0; }",
        "WrongCount 35 39",
    ),
    ("int f(int x); int main() { return y; }", "UnknownName 4 5"),
    (
        "int f(struct s *p, int x, int x) { return 0; } int main() { return 0; }",
        "UnknownName 13 14",
    ),
    (
        "void f() { return y; } int main() { return 0; }",
        "WrongType 11 20",
    ),
    ("int f() { return y; }", "UnknownName 17 18"),
    ("void *f(); int main() { return y; }", "WrongType 0 9"),
];

/// Of two faults the one that begins first.
#[test]
fn first_fault(rt: HostRuntime) -> Result<(), Fail> {
    assert_eq!(rt; other_answer(rt.alloc(), &FIRST_FAULT)?.as_str(), "");
    Ok(())
}

const FIRST_IN_EXPRESSIONS: [(&str, &str); 15] = [
    (
        "int f(int *p, int *q, int x) { return p * q; } int main() { return 0; }",
        "WrongType 38 39",
    ),
    (
        "int f(int *p, int *q, int x) { return x + p + y; } int main() { return 0; }",
        "WrongType 42 43",
    ),
    (
        "int f(int *p, int *q, int x) { return y + p * x; } int main() { return 0; }",
        "UnknownName 38 39",
    ),
    (
        "int f(int *p, int *q, int x) { return p == y; } int main() { return 0; }",
        "UnknownName 43 44",
    ),
    (
        "int f(int *p, int *q, int x) { return (y + p) == p; } int main() { return 0; }",
        "UnknownName 39 40",
    ),
    (
        "int f(int *p, int *q, int x) { return x - p == p; } int main() { return 0; }",
        "WrongType 42 43",
    ),
    (
        "int f(int *p, int *q, int x) { return p[q] + y; } int main() { return 0; }",
        "WrongType 40 41",
    ),
    (
        "int f(int *p, int *q, int x) { return p[y][z]; } int main() { return 0; }",
        "UnknownName 40 41",
    ),
    (
        "int f(int *p, int *q, int x) { return -y[p]; } int main() { return 0; }",
        "UnknownName 39 40",
    ),
    (
        "int f(int *p, int *q, int x) { return *&(x + 1) + y; } int main() { return 0; }",
        "NotLvalue 41 46",
    ),
    (
        "int f(int *p, int *q, int x) { return p ? y : z; } int main() { return 0; }",
        "WrongType 38 39",
    ),
    (
        "int f(int *p, int *q, int x) { return x ? y : p; } int main() { return 0; }",
        "UnknownName 42 43",
    ),
    (
        "struct s { int a; int b[2]; }; int main() { struct s x; struct s *p; struct s y[2]; int i; int *q; struct s **r; return x.c + z; }",
        "MissingField 122 123",
    ),
    (
        "struct s { int a; int b[2]; }; int main() { struct s x; struct s *p; struct s y[2]; int i; int *q; struct s **r; return p.c; }",
        "WrongType 120 121",
    ),
    (
        "int f(int *p, int *q, int x) { return (p == 1) + y; } int main() { return 0; }",
        "WrongType 39 45",
    ),
];

/// Of two faults of an expression the one that begins first; what needs the type of a part at fault is no fault.
#[test]
fn first_in_expressions(rt: HostRuntime) -> Result<(), Fail> {
    assert_eq!(rt;
        other_answer(rt.alloc(), &FIRST_IN_EXPRESSIONS)?.as_str(),
        ""
    );
    Ok(())
}

const FIRST_IN_STATEMENTS: [(&str, &str); 20] = [
    ("int main() { y = z; return 0; }", "UnknownName 13 14"),
    ("int main() { 1 = y; return 0; }", "NotLvalue 13 14"),
    (
        "int f(int *p, int *q, int x) { p = p + y; return p; } int main() { return 0; }",
        "UnknownName 39 40",
    ),
    (
        "int f(int *p, int *q, int x) { p = 1; y = 2; return 0; } int main() { return 0; }",
        "WrongType 31 36",
    ),
    (
        "int f(int *p, int *q, int x) { p *= y; return 0; } int main() { return 0; }",
        "WrongType 31 32",
    ),
    (
        "struct s { int a; int b[2]; }; int main() { struct s x; struct s *p; struct s y[2]; int i; int *q; struct s **r; x.c = k; return 0; }",
        "MissingField 115 116",
    ),
    (
        "int f(int *p, int *q, int x) { if (p) y = 1; return 0; } int main() { return 0; }",
        "WrongType 35 36",
    ),
    (
        "int main() { if (1) break; else y = 1; return 0; }",
        "Misplaced 20 26",
    ),
    (
        "int main() { do y = 1; while (z); return 0; }",
        "UnknownName 16 17",
    ),
    (
        "int main() { { break; } while (y) ; return 0; }",
        "Misplaced 15 21",
    ),
    (
        "int main() { while (y) z = 1; return 0; }",
        "UnknownName 20 21",
    ),
    (
        "int main() { for (y = 1; z; k++) w = 1; return 0; }",
        "UnknownName 18 19",
    ),
    (
        "int main() { for (; z; k++) w = 1; return 0; }",
        "UnknownName 20 21",
    ),
    (
        "int main() { for (; ; k++) w = 1; return 0; }",
        "UnknownName 22 23",
    ),
    (
        "int *f() { if (1) return 1; return y; } int main() { return 0; }",
        "WrongType 18 27",
    ),
    (
        "void f(int x) { } int main() { g(y); f(y, z); return 0; }",
        "UnknownName 31 32",
    ),
    (
        "void f(int x, int y) { } int main() { int x; x = f(y, z); return 0; }",
        "UnknownName 51 52",
    ),
    (
        "void f() { } int main() { int x; x = f(y); return 0; }",
        "WrongCount 37 41",
    ),
    (
        "void f(int x, int *y) { } int main() { f(1, 2); f(&y); return 0; }",
        "WrongType 44 45",
    ),
    (
        "int f(int x) { return x; } int main() { int *p; p = f(1); return y; }",
        "WrongType 48 56",
    ),
];

/// Of two faults of statements the one that begins first.
#[test]
fn first_in_statements(rt: HostRuntime) -> Result<(), Fail> {
    assert_eq!(rt;
        other_answer(rt.alloc(), &FIRST_IN_STATEMENTS)?.as_str(),
        ""
    );
    Ok(())
}

const FIRST_IN_DECLARATIONS: [(&str, &str); 33] = [
    (
        "int main() { int x = y, *p = 1; return 0; }",
        "UnknownName 21 22",
    ),
    (
        "int main() { int *p = 1, x = y; return 0; }",
        "WrongType 17 19",
    ),
    (
        "int main() { struct t a[0]; return 0; }",
        "UnknownName 20 21",
    ),
    (
        "int main() { int x; struct t x; return 0; }",
        "UnknownName 27 28",
    ),
    (
        "int main() { int x; int x = y; return 0; }",
        "Redeclared 24 25",
    ),
    (
        "int main() { int x; int x[4097]; return 0; }",
        "Redeclared 24 25",
    ),
    (
        "int main() { int x; int *x[4097]; return 0; }",
        "TooLarge 24 32",
    ),
    (
        "int main() { int x; int x = {1}; return 0; }",
        "Redeclared 24 25",
    ),
    (
        "int main() { int a; int a[1] = {1, 2}; return 0; }",
        "Redeclared 24 25",
    ),
    (
        "int main() { int a; int *a = {1}; return 0; }",
        "WrongType 24 26",
    ),
    (
        "int g; int g = 1 + 2; int main() { return 0; }",
        "Redeclared 11 12",
    ),
    (
        "int a; int a[0]; int main() { return 0; }",
        "Redeclared 11 12",
    ),
    (
        "struct s { struct s x[0]; }; int main() { return 0; }",
        "WrongType 20 24",
    ),
    (
        "struct s { int x; struct s x; }; int main() { return 0; }",
        "Redeclared 27 28",
    ),
    (
        "struct s { struct s x; struct t y; }; int main() { return 0; }",
        "RecursiveStruct 20 21",
    ),
    (
        "struct s { int x; int x[0]; }; int main() { return 0; }",
        "Redeclared 22 23",
    ),
    (
        "struct s { int x; int *x[0]; }; int main() { return 0; }",
        "WrongType 22 27",
    ),
    (
        "struct s { int a; int a; }; struct s { struct t b; }; int main() { return 0; }",
        "Redeclared 22 23",
    ),
    (
        "struct s { int a; }; struct s { struct s x; }; int main() { return 0; }",
        "Redeclared 28 29",
    ),
    (
        "int f; int f(); int main() { return 0; }",
        "UnknownName 11 12",
    ),
    (
        "int f(struct t x); int main() { return 0; }",
        "UnknownName 4 5",
    ),
    (
        "struct s { int a; }; struct s f(); int main() { return 0; }",
        "WrongType 21 33",
    ),
    (
        "struct t f(struct u *p); int main() { return 0; }",
        "UnknownName 7 8",
    ),
    (
        "int f(struct t) { return 0; } int main() { return 0; }",
        "WrongType 6 14",
    ),
    (
        "int f(struct t a[0]) { return 0; } int main() { return 0; }",
        "WrongType 6 19",
    ),
    (
        "struct s { int a; }; int f(int x, struct s x) { return 0; } int main() { return 0; }",
        "WrongType 34 44",
    ),
    (
        "int f; int f(struct t *p) { return y; } int main() { return 0; }",
        "Redeclared 11 12",
    ),
    (
        "int f() { return 0; } void *f() { return y; } int main() { return 0; }",
        "WrongType 22 31",
    ),
    (
        "int f() { return 0; } int f(struct t x) { return y; } int main() { return 0; }",
        "Redeclared 26 27",
    ),
    (
        "int f(int x, struct t y, int) { return 0; } int main() { return 0; }",
        "UnknownName 20 21",
    ),
    (
        "int f(int x, int, struct t y, int x) { return 0; } int main() { return 0; }",
        "WrongType 13 16",
    ),
    (
        "int f(int x); int main() { return y; } int f(int *x) { return 0; }",
        "UnknownName 34 35",
    ),
    (
        "struct s { int a; }; int main() { int x = y; return 0; } struct s { int a; };",
        "UnknownName 42 43",
    ),
];

/// Of two faults of declarations the one that begins first, at one place the first in the list of kinds.
#[test]
fn first_in_declarations(rt: HostRuntime) -> Result<(), Fail> {
    assert_eq!(rt;
        other_answer(rt.alloc(), &FIRST_IN_DECLARATIONS)?.as_str(),
        ""
    );
    Ok(())
}
