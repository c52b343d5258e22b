//! Names and tags: what is declared before its use, and what is declared twice.

use crate::answers::other_answer;
use std::test::Fail;

const NAMES: [(&str, &str); 13] = [
    ("int main() { return y; }", "UnknownName 20 21"),
    (
        "int main() { x = 1; int x; return 0; }",
        "UnknownName 13 14",
    ),
    (
        "int main() { int y = x, x = 1; return y; }",
        "UnknownName 21 22",
    ),
    ("int main() { int x = x; return 0; }", "program"),
    ("int main() { int a = 1, b = a; return b; }", "program"),
    ("int main() { { int x; } return x; }", "UnknownName 31 32"),
    (
        "int main() { for (int i = 0; i < 2; i++) ; return i; }",
        "UnknownName 50 51",
    ),
    ("int main() { struct s *p; return 0; }", "UnknownName 20 21"),
    (
        "int main() { f(); return 0; } void f() { }",
        "UnknownName 13 14",
    ),
    ("int f(int x);\nint main() { return 0; }", "UnknownName 4 5"),
    (
        "void f(int x); int main() { f(1); return 0; } void f(int x) { }",
        "program",
    ),
    (
        "int main() { int x; { int *x; x = 0; } return x; }",
        "program",
    ),
    (
        "int f() { return 0; } int main() { int f; f = 1; return f; }",
        "program",
    ),
];

/// Names are declared before their use.
#[test]
fn names(rt: HostRuntime) -> Result<(), Fail> {
    assert_eq!(rt; other_answer(rt.alloc(), &NAMES)?.as_str(), "");
    Ok(())
}

const DECLARED_TWICE: [(&str, &str); 16] = [
    ("int main() { int x; int x; return 0; }", "Redeclared 24 25"),
    ("int main() { int x, *x; return 0; }", "Redeclared 21 22"),
    ("int g; int g; int main() { return 0; }", "Redeclared 11 12"),
    (
        "int f(int x) { int x; return 0; } int main() { return 0; }",
        "Redeclared 19 20",
    ),
    (
        "int f(int x) { { int x; x = 1; } return x; } int main() { return f(2); }",
        "program",
    ),
    (
        "int f(int x, int x) { return 0; } int main() { return 0; }",
        "Redeclared 17 18",
    ),
    (
        "int f; int f() { return 0; } int main() { return 0; }",
        "Redeclared 11 12",
    ),
    (
        "int f() { return 0; } int f; int main() { return 0; }",
        "Redeclared 26 27",
    ),
    (
        "int f() { return 0; } int f() { return 1; } int main() { return 0; }",
        "Redeclared 26 27",
    ),
    (
        "int f(int x); int f(int *x) { return 0; } int main() { return 0; }",
        "Redeclared 18 19",
    ),
    (
        "int f(); void f() { } int main() { return 0; }",
        "Redeclared 14 15",
    ),
    (
        "int f(int x); int f(int); int f(int y) { return y; } int main() { return f(1); }",
        "program",
    ),
    (
        "int f(int a[]); int f(int *b) { return *b; } int main() { return 0; }",
        "program",
    ),
    (
        "struct s { int a; }; struct s { int b; }; int main() { return 0; }",
        "Redeclared 28 29",
    ),
    (
        "struct s { int a; int a; }; int main() { return 0; }",
        "Redeclared 22 23",
    ),
    (
        "struct s { int s; }; int s; int main() { return 0; }",
        "program",
    ),
];

/// One name of a scope has one declaration.
#[test]
fn declared_twice(rt: HostRuntime) -> Result<(), Fail> {
    assert_eq!(rt; other_answer(rt.alloc(), &DECLARED_TWICE)?.as_str(), "");
    Ok(())
}

const UNKNOWN_IN_STATEMENTS: [(&str, &str); 24] = [
    (
        "int main() { if (y) return 1; return 0; }",
        "UnknownName 17 18",
    ),
    (
        "int main() { int x; x = 0; if (x) x = 1; else x = y; return x; }",
        "UnknownName 50 51",
    ),
    ("int main() { while (y) ; return 0; }", "UnknownName 20 21"),
    (
        "int main() { do y = 1; while (1); return 0; }",
        "UnknownName 16 17",
    ),
    (
        "int main() { do ; while (y); return 0; }",
        "UnknownName 25 26",
    ),
    (
        "int main() { for (y = 0; ; ) ; return 0; }",
        "UnknownName 18 19",
    ),
    (
        "int main() { for (int i = y; ; ) ; return 0; }",
        "UnknownName 26 27",
    ),
    (
        "int main() { for (int i = 0; i < y; i++) ; return 0; }",
        "UnknownName 33 34",
    ),
    (
        "int main() { for (int i = 0; i < 2; y++) ; return 0; }",
        "UnknownName 36 37",
    ),
    (
        "int main() { for (int i = 0; i < 2; i++) printf(\"%d\", y); return 0; }",
        "UnknownName 54 55",
    ),
    (
        "int main() { printf(\"%d\\n\", y); return 0; }",
        "UnknownName 28 29",
    ),
    (
        "int main() { scanf(\"%d\", &y); return 0; }",
        "UnknownName 26 27",
    ),
    ("int main() { int x = y; return 0; }", "UnknownName 21 22"),
    (
        "int main() { int x; x = 0; x += y; return 0; }",
        "UnknownName 32 33",
    ),
    ("int main() { y -= 1; return 0; }", "UnknownName 13 14"),
    ("int main() { --y; return 0; }", "UnknownName 15 16"),
    ("int main() { *y = 1; return 0; }", "UnknownName 14 15"),
    ("int main() { y[0] = 1; return 0; }", "UnknownName 13 14"),
    ("int main() { return f(1); }", "UnknownName 20 21"),
    (
        "int main() { int x = f(1); return 0; }",
        "UnknownName 21 22",
    ),
    (
        "int main() { int x; x = f(1); return 0; }",
        "UnknownName 24 25",
    ),
    ("int main() { (*y)(1); return 0; }", "UnknownName 15 16"),
    (
        "int f(int x) { return x; } int main() { return f(y); }",
        "UnknownName 49 50",
    ),
    (
        "void f(int x, int *p) { *p = x; } int main() { int x; f(1, &x); f(x, &y); return 0; }",
        "UnknownName 70 71",
    ),
];

/// A name in each place of a statement where one is looked up.
#[test]
fn unknown_in_statements(rt: HostRuntime) -> Result<(), Fail> {
    assert_eq!(rt;
        other_answer(rt.alloc(), &UNKNOWN_IN_STATEMENTS)?.as_str(),
        ""
    );
    Ok(())
}

const UNKNOWN_IN_EXPRESSIONS: [(&str, &str); 16] = [
    ("int main() { return -y; }", "UnknownName 21 22"),
    ("int main() { return !y; }", "UnknownName 21 22"),
    ("int main() { return ~y; }", "UnknownName 21 22"),
    ("int main() { return *y; }", "UnknownName 21 22"),
    (
        "int main() { int *p; p = &y; return 0; }",
        "UnknownName 26 27",
    ),
    ("int main() { return y * 2; }", "UnknownName 20 21"),
    ("int main() { return 2 + 3 * y; }", "UnknownName 28 29"),
    ("int main() { return 1 && y; }", "UnknownName 25 26"),
    ("int main() { return y ? 1 : 2; }", "UnknownName 20 21"),
    ("int main() { return 1 ? y : 2; }", "UnknownName 24 25"),
    ("int main() { return 1 ? 2 : y; }", "UnknownName 28 29"),
    ("int main() { return y[0]; }", "UnknownName 20 21"),
    (
        "int main() { int a[2]; a[0] = 1; return a[y]; }",
        "UnknownName 42 43",
    ),
    ("int main() { return y.a; }", "UnknownName 20 21"),
    ("int main() { return y->a; }", "UnknownName 20 21"),
    (
        "int main() { int *p; p = 0; return p == y; }",
        "UnknownName 40 41",
    ),
];

/// A name in each place of an expression.
#[test]
fn unknown_in_expressions(rt: HostRuntime) -> Result<(), Fail> {
    assert_eq!(rt;
        other_answer(rt.alloc(), &UNKNOWN_IN_EXPRESSIONS)?.as_str(),
        ""
    );
    Ok(())
}

const SCOPES: [(&str, &str); 14] = [
    (
        "int main() { do { int x = 1; } while (x); return 0; }",
        "UnknownName 38 39",
    ),
    (
        "int main() { for (int i = 0; i < 3; i = j) { int j = i; } return 0; }",
        "UnknownName 40 41",
    ),
    (
        "int main() { if (1) { int x = 1; } else { return x; } return 0; }",
        "UnknownName 49 50",
    ),
    (
        "int main() { while (0) { int x; } return x; }",
        "UnknownName 41 42",
    ),
    (
        "int f(int x) { return x; } int g() { return x; } int main() { return 0; }",
        "UnknownName 44 45",
    ),
    (
        "int f() { int x; x = 1; return x; } int main() { return x; }",
        "UnknownName 56 57",
    ),
    (
        "int f(int x); int main() { return x; } int f(int x) { return x; }",
        "UnknownName 34 35",
    ),
    ("int main() { return g; } int g;", "UnknownName 20 21"),
    (
        "struct s { int a; }; int main() { return a; }",
        "UnknownName 41 42",
    ),
    (
        "struct s { int a; }; int main() { return s.a; }",
        "UnknownName 41 42",
    ),
    (
        "int g; int main() { int x = 1; { int g = x; { int x = g; g = x; } } for (int g = 0; g < 2; g++) { int g = 2; x = g; } g = x; return g; }",
        "program",
    ),
    (
        "int f(int f) { return f; } int g(int x) { int g = x; return g; } int main() { return f(1); }",
        "program",
    ),
    (
        "int f(int x) { if (x < 1) return 1; return f(x); } int main() { return f(2); }",
        "program",
    ),
    (
        "struct s { int s; struct s *p; }; int f(struct s *s) { return s->s; } struct s t; int main() { return f(&t); }",
        "program",
    ),
];

/// Where a name ends to be known, and what it hides.
#[test]
fn scopes(rt: HostRuntime) -> Result<(), Fail> {
    assert_eq!(rt; other_answer(rt.alloc(), &SCOPES)?.as_str(), "");
    Ok(())
}

const UNKNOWN_TAGS: [(&str, &str); 13] = [
    ("struct t x; int main() { return 0; }", "UnknownName 7 8"),
    (
        "int main() { { struct t x; } return 0; }",
        "UnknownName 22 23",
    ),
    (
        "int main() { for (struct t *p = 0; ; ) ; return 0; }",
        "UnknownName 25 26",
    ),
    (
        "int f(struct t *p) { return 0; } int main() { return 0; }",
        "UnknownName 13 14",
    ),
    (
        "void f(int x, struct t y) { } int main() { return 0; }",
        "UnknownName 21 22",
    ),
    (
        "struct t *f() { return 0; } int main() { return 0; }",
        "UnknownName 7 8",
    ),
    (
        "struct t f() { } int main() { return 0; }",
        "UnknownName 7 8",
    ),
    (
        "void f(struct t *p); void f(struct t *p) { } int main() { return 0; }",
        "UnknownName 14 15",
    ),
    (
        "struct s { struct t x; }; int main() { return 0; }",
        "UnknownName 18 19",
    ),
    (
        "struct s { struct s *p; struct t x[2]; }; int main() { return 0; }",
        "UnknownName 31 32",
    ),
    (
        "int main() { struct s x; return 0; } struct s { int a; };",
        "UnknownName 20 21",
    ),
    (
        "int s; struct s *p; int main() { return 0; }",
        "UnknownName 14 15",
    ),
    (
        "struct s { struct s *p; }; struct t { struct s x; struct s *y; }; struct s f; struct t *g(struct s *p, struct t x[]) { return x; } int main() { struct t x; x.y = &x.x; return 0; }",
        "program",
    ),
];

/// A tag in each place of a type.
#[test]
fn unknown_tags(rt: HostRuntime) -> Result<(), Fail> {
    assert_eq!(rt; other_answer(rt.alloc(), &UNKNOWN_TAGS)?.as_str(), "");
    Ok(())
}

const PROTOTYPES: [(&str, &str); 5] = [
    (
        "int f(int x); int g(int x); int f(int x) { return x; } int main() { return 0; }",
        "UnknownName 18 19",
    ),
    (
        "int f(int x); int f(int x); int main() { return f(1); }",
        "UnknownName 4 5",
    ),
    ("int main() { return 0; } void f();", "UnknownName 30 31"),
    (
        "int f(int x) { return x; } int g(int x); int main() { return g(1); }",
        "UnknownName 31 32",
    ),
    (
        "int g(int *); int f(int x) { return x; } int f(int); int main() { return g(0); } int g(int p[3]) { return f(1); }",
        "program",
    ),
];

/// A prototype stands beside a definition.
#[test]
fn prototypes(rt: HostRuntime) -> Result<(), Fail> {
    assert_eq!(rt; other_answer(rt.alloc(), &PROTOTYPES)?.as_str(), "");
    Ok(())
}

const REDECLARED_VARIABLES: [(&str, &str); 13] = [
    (
        "int main() { for (int i = 0, i = 1; i < 2; i++) ; return 0; }",
        "Redeclared 29 30",
    ),
    (
        "int main() { int x; { int x; int x[2]; } return 0; }",
        "Redeclared 33 34",
    ),
    (
        "int main() { int x; x = 1; int *x; return 0; }",
        "Redeclared 32 33",
    ),
    (
        "int main() { while (1) { int x; break; int x; } return 0; }",
        "Redeclared 43 44",
    ),
    ("int g, g; int main() { return 0; }", "Redeclared 7 8"),
    (
        "int g[2]; int f() { return 0; } int *g; int main() { return 0; }",
        "Redeclared 37 38",
    ),
    (
        "int f(int a[]) { a[0] = 1; int a; return 0; } int main() { return 0; }",
        "Redeclared 31 32",
    ),
    (
        "void f(int x, int *y, int x[]) { } int main() { return 0; }",
        "Redeclared 26 27",
    ),
    (
        "void f(int x, int x); void f(int x, int y) { } int main() { return 0; }",
        "Redeclared 18 19",
    ),
    (
        "struct s { int a, *a; }; int main() { return 0; }",
        "Redeclared 19 20",
    ),
    (
        "struct s { int a; struct s *b; int b[2]; }; int main() { return 0; }",
        "Redeclared 35 36",
    ),
    (
        "int main() { { int x; } { int *x; } for (int x; ; ) { int x; } int x; return 0; }",
        "program",
    ),
    (
        "void f(int x, int y); void f(int y, int x) { } struct s { int x; int y; }; struct t { int x; int y; }; int main() { return 0; }",
        "program",
    ),
];

/// Variables, parameters and members of one scope.
#[test]
fn redeclared_variables(rt: HostRuntime) -> Result<(), Fail> {
    assert_eq!(rt;
        other_answer(rt.alloc(), &REDECLARED_VARIABLES)?.as_str(),
        ""
    );
    Ok(())
}

const REDECLARED_FUNCTIONS: [(&str, &str); 16] = [
    (
        "int main() { return 0; } int main() { return 0; }",
        "Redeclared 29 33",
    ),
    ("int main; int main() { return 0; }", "Redeclared 14 18"),
    (
        "int f(int x) { return x; } void f() { } int main() { return 0; }",
        "Redeclared 32 33",
    ),
    (
        "int f; int f(); int f() { return 0; } int main() { return 0; }",
        "Redeclared 11 12",
    ),
    (
        "int f(); int f; int f() { return 0; } int main() { return 0; }",
        "Redeclared 13 14",
    ),
    (
        "void f(int x); void f(int x, int y) { } int main() { return 0; }",
        "Redeclared 20 21",
    ),
    (
        "void f(int x); void f() { } int main() { return 0; }",
        "Redeclared 20 21",
    ),
    (
        "int f(); int *f() { return 0; } int main() { return 0; }",
        "Redeclared 14 15",
    ),
    (
        "void f(int *p); void f(int **p) { } int main() { return 0; }",
        "Redeclared 21 22",
    ),
    (
        "void f(int a[2][3]); void f(int a[2][4]) { } int main() { return 0; }",
        "Redeclared 26 27",
    ),
    (
        "struct s { int a; }; struct t { int a; }; void f(struct s *p); void f(struct t *p) { } int main() { return 0; }",
        "Redeclared 68 69",
    ),
    (
        "struct s { int a; }; struct t { int a; }; struct s *f() { return 0; } struct t *f(); int main() { return 0; }",
        "Redeclared 80 81",
    ),
    (
        "void f(int x) { } int f(int x); int main() { return 0; }",
        "Redeclared 22 23",
    ),
    (
        "void f(int); void f(int x); void f(int *); void f(int x) { } int main() { return 0; }",
        "Redeclared 33 34",
    ),
    (
        "struct s { int a; }; int s; struct s { int a; }; int main() { return 0; }",
        "Redeclared 35 36",
    ),
    (
        "void f(int a[2][3]); void f(int a[][3]); void f(int a[5][3]) { } void f(int [4][3]); int main() { return 0; }",
        "program",
    ),
];

/// Functions, and heads of one name that differ.
#[test]
fn redeclared_functions(rt: HostRuntime) -> Result<(), Fail> {
    assert_eq!(rt;
        other_answer(rt.alloc(), &REDECLARED_FUNCTIONS)?.as_str(),
        ""
    );
    Ok(())
}
