//! Heads and calls of functions, and `main`.

use crate::answers::other_answer;
use std::test::Fail;

const LOOPS_AND_MAIN: [(&str, &str); 13] = [
    ("int main() { break; return 0; }", "Misplaced 13 19"),
    (
        "int main() { if (1) continue; return 0; }",
        "Misplaced 20 29",
    ),
    (
        "void f() { break; } int main() { while (1) f(); return 0; }",
        "Misplaced 11 17",
    ),
    (
        "int main() { while (1) { if (1) break; else continue; } do break; while (1); for (;;) { break; } return 0; }",
        "program",
    ),
    ("", "NoMain 0 0"),
    ("int f() { return 0; }", "NoMain 21 21"),
    ("int f() { return 0; } // nothing else", "NoMain 21 21"),
    ("void main() { }", "NoMain 15 15"),
    ("int *main() { return 0; }", "NoMain 25 25"),
    ("int main(int x) { return 0; }", "NoMain 29 29"),
    ("int main;", "NoMain 9 9"),
    ("int main();", "UnknownName 4 8"),
    ("int main(void) { return 0; }", "program"),
];

/// Loops, and `main`.
#[test]
fn loops_and_main(rt: HostRuntime) -> Result<(), Fail> {
    assert_eq!(rt; other_answer(rt.alloc(), &LOOPS_AND_MAIN)?.as_str(), "");
    Ok(())
}

const HEADS: [(&str, &str); 12] = [
    (
        "void **f(int x) { } int main() { return 0; }",
        "WrongType 0 15",
    ),
    (
        "void *f(); int f() { return 0; } int main() { return 0; }",
        "WrongType 0 9",
    ),
    (
        "struct s { int a; }; struct s f(int x); int f(int x) { return x; } int main() { return 0; }",
        "WrongType 21 38",
    ),
    (
        "struct s { int a; }; void f(int x, struct s y) { } int main() { return 0; }",
        "WrongType 35 45",
    ),
    (
        "struct s { int a; }; void f(struct s); void f(struct s *p) { } int main() { return 0; }",
        "WrongType 28 36",
    ),
    (
        "int f(int x, int *) { return 0; } int main() { return 0; }",
        "WrongType 13 18",
    ),
    (
        "int f(int []) { return 0; } int main() { return 0; }",
        "WrongType 6 12",
    ),
    (
        "struct s { int a; }; void f(struct s *) { } int main() { return 0; }",
        "WrongType 28 38",
    ),
    (
        "int f(int a[0]) { return 0; } int main() { return 0; }",
        "WrongType 6 14",
    ),
    (
        "int f(int x, int a[][0]) { return 0; } int main() { return 0; }",
        "WrongType 13 23",
    ),
    (
        "int f(int a[0][2]); int f(int a[][2]) { return 0; } int main() { return 0; }",
        "WrongType 6 17",
    ),
    (
        "struct s { int a; }; struct s *f(struct s *p, struct s a[], struct s b[2][3], int *c[], int **d) { return a; } int **g(int, int *, int [], int [][2]); int **g(int x, int *y, int *z, int w[3][2]) { return &y; } void h(void) { } int main() { return 0; }",
        "program",
    ),
];

/// Results and parameters.
#[test]
fn heads(rt: HostRuntime) -> Result<(), Fail> {
    assert_eq!(rt; other_answer(rt.alloc(), &HEADS)?.as_str(), "");
    Ok(())
}

const CALLEES: [(&str, &str); 11] = [
    ("int g; int main() { g(); return 0; }", "WrongType 20 21"),
    (
        "int f() { return 0; } int main() { int f; f = 1; return f(); }",
        "WrongType 56 57",
    ),
    (
        "int f(int f) { f(1); return 0; } int main() { return 0; }",
        "WrongType 15 16",
    ),
    (
        "int main() { int *p; p = 0; (*p)(1); return 0; }",
        "WrongType 29 31",
    ),
    (
        "int main() { int a[2]; a[0](1); return 0; }",
        "WrongType 23 27",
    ),
    (
        "int main() { int x; x = 1; return (x + 1)(2); }",
        "WrongType 35 40",
    ),
    ("int main() { 1(2); return 0; }", "WrongType 13 14"),
    (
        "struct s { int f; }; int main() { struct s x; x.f(); return 0; }",
        "WrongType 46 49",
    ),
    (
        "int f() { return 0; } int main() { (*f)(); return 0; }",
        "WrongType 37 38",
    ),
    (
        "struct s { int a; }; int main() { struct s x; x.f(); return 0; }",
        "MissingField 48 49",
    ),
    (
        "int f(int x); void g() { g(); } int main() { int x; x = f(1); (f)(2); x = ((f)(3)); g(); return main(); } int f(int x) { return x; }",
        "program",
    ),
];

/// What is called is a function, by its name.
#[test]
fn callees(rt: HostRuntime) -> Result<(), Fail> {
    assert_eq!(rt; other_answer(rt.alloc(), &CALLEES)?.as_str(), "");
    Ok(())
}

const COUNTS: [(&str, &str); 10] = [
    (
        "void f() { } int main() { f(1); return 0; }",
        "WrongCount 26 30",
    ),
    (
        "void f(void) { } int main() { f(0); return 0; }",
        "WrongCount 30 34",
    ),
    (
        "int f(int x) { return x; } int main() { int x; x = f(); return x; }",
        "WrongCount 51 54",
    ),
    (
        "int f(int x) { return x; } int main() { int x = f(1, 2); return x; }",
        "WrongCount 48 55",
    ),
    (
        "int f(int x) { return x; } int main() { return ((f)(1, 2)); }",
        "WrongCount 48 57",
    ),
    (
        "void f(int *p, int x); int main() { f(0); return 0; } void f(int *p, int x) { *p = x; }",
        "WrongCount 36 40",
    ),
    (
        "int f(int x) { return f(); } int main() { return 0; }",
        "WrongCount 22 25",
    ),
    ("int main() { return main(1); }", "WrongCount 20 27"),
    (
        "void f(int x) { } int main() { for (; ; f()) ; }",
        "WrongCount 40 43",
    ),
    (
        "void f(int x) { } int main() { for (f(1, 2); ; ) ; }",
        "WrongCount 36 43",
    ),
];

/// As many arguments as parameters.
#[test]
fn counts(rt: HostRuntime) -> Result<(), Fail> {
    assert_eq!(rt; other_answer(rt.alloc(), &COUNTS)?.as_str(), "");
    Ok(())
}

const ARGUMENTS: [(&str, &str); 19] = [
    (
        "struct s { int a; }; struct t { int a; }; void f(int x, int *p, struct s *q, int b[][2]) { } int main() { int *p; struct s s; struct t t; int c[3]; int b[2][3]; int **r; f(p, 0, 0, 0); return 0; }",
        "WrongType 172 173",
    ),
    (
        "struct s { int a; }; struct t { int a; }; void f(int x, int *p, struct s *q, int b[][2]) { } int main() { int *p; struct s s; struct t t; int c[3]; int b[2][3]; int **r; f(c, 0, 0, 0); return 0; }",
        "WrongType 172 173",
    ),
    (
        "struct s { int a; }; struct t { int a; }; void f(int x, int *p, struct s *q, int b[][2]) { } int main() { int *p; struct s s; struct t t; int c[3]; int b[2][3]; int **r; f(s, 0, 0, 0); return 0; }",
        "WrongType 172 173",
    ),
    (
        "struct s { int a; }; struct t { int a; }; void f(int x, int *p, struct s *q, int b[][2]) { } int main() { int *p; struct s s; struct t t; int c[3]; int b[2][3]; int **r; f(0, 1, 0, 0); return 0; }",
        "WrongType 175 176",
    ),
    (
        "struct s { int a; }; struct t { int a; }; void f(int x, int *p, struct s *q, int b[][2]) { } int main() { int *p; struct s s; struct t t; int c[3]; int b[2][3]; int **r; f(0, c[0], 0, 0); return 0; }",
        "WrongType 175 179",
    ),
    (
        "struct s { int a; }; struct t { int a; }; void f(int x, int *p, struct s *q, int b[][2]) { } int main() { int *p; struct s s; struct t t; int c[3]; int b[2][3]; int **r; f(0, (-0), 0, 0); return 0; }",
        "WrongType 176 178",
    ),
    (
        "struct s { int a; }; struct t { int a; }; void f(int x, int *p, struct s *q, int b[][2]) { } int main() { int *p; struct s s; struct t t; int c[3]; int b[2][3]; int **r; f(0, &p, 0, 0); return 0; }",
        "WrongType 175 177",
    ),
    (
        "struct s { int a; }; struct t { int a; }; void f(int x, int *p, struct s *q, int b[][2]) { } int main() { int *p; struct s s; struct t t; int c[3]; int b[2][3]; int **r; f(0, &c, 0, 0); return 0; }",
        "WrongType 175 177",
    ),
    (
        "struct s { int a; }; struct t { int a; }; void f(int x, int *p, struct s *q, int b[][2]) { } int main() { int *p; struct s s; struct t t; int c[3]; int b[2][3]; int **r; f(0, b, 0, 0); return 0; }",
        "WrongType 175 176",
    ),
    (
        "struct s { int a; }; struct t { int a; }; void f(int x, int *p, struct s *q, int b[][2]) { } int main() { int *p; struct s s; struct t t; int c[3]; int b[2][3]; int **r; f(0, p, &t, 0); return 0; }",
        "WrongType 178 180",
    ),
    (
        "struct s { int a; }; struct t { int a; }; void f(int x, int *p, struct s *q, int b[][2]) { } int main() { int *p; struct s s; struct t t; int c[3]; int b[2][3]; int **r; f(0, p, s, 0); return 0; }",
        "WrongType 178 179",
    ),
    (
        "struct s { int a; }; struct t { int a; }; void f(int x, int *p, struct s *q, int b[][2]) { } int main() { int *p; struct s s; struct t t; int c[3]; int b[2][3]; int **r; f(0, p, &s, b); return 0; }",
        "WrongType 182 183",
    ),
    (
        "struct s { int a; }; struct t { int a; }; void f(int x, int *p, struct s *q, int b[][2]) { } int main() { int *p; struct s s; struct t t; int c[3]; int b[2][3]; int **r; f(0, p, &s, c); return 0; }",
        "WrongType 182 183",
    ),
    (
        "struct s { int a; }; struct t { int a; }; void f(int x, int *p, struct s *q, int b[][2]) { } int main() { int *p; struct s s; struct t t; int c[3]; int b[2][3]; int **r; f(0, p, p, 0); return 0; }",
        "WrongType 178 179",
    ),
    (
        "struct s { int a; }; struct t { int a; }; void f(int x, int *p, struct s *q, int b[][2]) { } int main() { int *p; struct s s; struct t t; int c[3]; int b[2][3]; int **r; f(0, &1, 0, 0); return 0; }",
        "NotLvalue 176 177",
    ),
    (
        "struct s { int a; }; struct t { int a; }; void f(int x, int *p, struct s *q, int b[][2]) { } int main() { int *p; struct s s; struct t t; int c[3]; int b[2][3]; int **r; f(0, &(p == 0), 0, 0); return 0; }",
        "NotLvalue 177 183",
    ),
    (
        "struct s { int a; }; struct t { int a; }; void f(int x, int *p, struct s *q, int b[][2]) { } int main() { int *p; struct s s; struct t t; int c[3]; int b[2][3]; int **r; f(s.b, 0, 0, 0); return 0; }",
        "MissingField 174 175",
    ),
    (
        "struct s { int a; }; struct t { int a; }; void f(int x, int *p, struct s *q, int b[][2]) { } int main() { int *p; struct s s; struct t t; int c[3]; int b[2][3]; int **r; f(1 + p, 0, 0, 0); return 0; }",
        "WrongType 176 177",
    ),
    (
        "struct s { int a; }; struct t { int a; }; void f(int x, int *p, struct s *q, int b[][2]) { } int main() { int *p; struct s s; int c[3][2]; p = *c; f(1, p, &s, c); f(p == 0, (0), 0, 0x0); f(c[0][0], c[1], &s, c + 1); f(s.a, &s.a, 0, &c[1]); return 0; }",
        "program",
    ),
];

/// Each argument is as its parameter.
#[test]
fn arguments(rt: HostRuntime) -> Result<(), Fail> {
    assert_eq!(rt; other_answer(rt.alloc(), &ARGUMENTS)?.as_str(), "");
    Ok(())
}

const NO_MAIN: [(&str, &str); 10] = [
    ("// nothing", "NoMain 0 0"),
    ("  int x;  ", "NoMain 8 8"),
    ("struct s { int a; }; /* main */", "NoMain 20 20"),
    (
        "int f() { int main; main = 1; return main; }",
        "NoMain 44 44",
    ),
    ("int main(int x, int *y) { return 0; }", "NoMain 37 37"),
    ("struct main { int a; };", "NoMain 23 23"),
    (
        "struct s { int a; }; struct s *main() { return 0; }",
        "NoMain 51 51",
    ),
    ("int Main() { return 0; }\n", "NoMain 24 24"),
    ("void main(); void main() { }", "NoMain 28 28"),
    (
        "int main(void); int main() { } int f() { return main(); }",
        "program",
    ),
];

/// No `int main()` is defined.
#[test]
fn no_main(rt: HostRuntime) -> Result<(), Fail> {
    assert_eq!(rt; other_answer(rt.alloc(), &NO_MAIN)?.as_str(), "");
    Ok(())
}
