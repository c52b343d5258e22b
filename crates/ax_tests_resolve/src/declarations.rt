//! Sizes, initialisers and structs.

use crate::answers::other_answer;
use std::test::Fail;

const STRUCTS_AND_SIZES: [(&str, &str); 10] = [
    (
        "struct s { int a; }; int main() { struct s x; return x.b; }",
        "MissingField 55 56",
    ),
    (
        "struct s { int a; }; int main() { struct s x; struct s *p; p = &x; return p->b; }",
        "MissingField 77 78",
    ),
    (
        "struct s { struct s x; }; int main() { return 0; }",
        "RecursiveStruct 20 21",
    ),
    (
        "struct s { struct s x[2]; }; int main() { return 0; }",
        "RecursiveStruct 20 24",
    ),
    (
        "struct s { struct s *next; int a; }; int main() { return 0; }",
        "program",
    ),
    (
        "struct s { struct t *x; }; struct t { int a; }; int main() { return 0; }",
        "UnknownName 18 19",
    ),
    ("int main() { int a[4097]; return 0; }", "TooLarge 17 24"),
    ("int main() { int a[4096]; return 0; }", "program"),
    (
        "struct s { int a[64]; }; struct s b[65]; int main() { return 0; }",
        "TooLarge 34 39",
    ),
    (
        "struct s { int a[64]; }; struct s b[64]; int main() { return 0; }",
        "program",
    ),
];

/// Members, structs and large variables.
#[test]
fn structs_and_sizes(rt: HostRuntime) -> Result<(), Fail> {
    assert_eq!(rt; other_answer(rt.alloc(), &STRUCTS_AND_SIZES)?.as_str(), "");
    Ok(())
}

const SIZES: [(&str, &str); 19] = [
    ("int main() { int a[2][0]; return 0; }", "WrongType 17 24"),
    ("int main() { int a[0][2]; return 0; }", "WrongType 17 24"),
    ("int main() { int x, *a[0]; return 0; }", "WrongType 20 25"),
    (
        "int main() { for (int a[0]; ; ) ; return 0; }",
        "WrongType 22 26",
    ),
    (
        "int main() { int a[0] = {1}; return 0; }",
        "WrongType 17 21",
    ),
    ("int a[0x0]; int main() { return 0; }", "WrongType 4 10"),
    (
        "struct s { int a[0]; }; int main() { return 0; }",
        "WrongType 15 19",
    ),
    (
        "struct s { int x, *a[2][0]; }; int main() { return 0; }",
        "WrongType 18 26",
    ),
    ("int main() { int a[64][65]; return 0; }", "TooLarge 17 26"),
    (
        "int main() { int x, *a[4097]; return 0; }",
        "TooLarge 20 28",
    ),
    (
        "int main() { int a[4097] = {1}; return 0; }",
        "TooLarge 17 24",
    ),
    (
        "int main() { int a[2147483647][2147483647][2147483647]; return 0; }",
        "TooLarge 17 54",
    ),
    (
        "int main() { for (int a[17][241]; ; ) ; return 0; }",
        "TooLarge 22 32",
    ),
    ("int a[4097]; int main() { return 0; }", "TooLarge 4 11"),
    (
        "struct s { int a[4096]; int b; }; struct s x; int main() { return 0; }",
        "TooLarge 43 44",
    ),
    (
        "struct s { int *a[2048]; }; struct t { struct s a; struct s b[1]; int *c; }; int f() { struct t x; return 0; } int main() { return 0; }",
        "TooLarge 96 97",
    ),
    (
        "struct s { int a[2147483647]; }; struct t { struct s a[2147483647]; }; struct t x[2]; int main() { return 0; }",
        "TooLarge 80 84",
    ),
    (
        "struct s { int a[2147483647][2147483647]; }; struct s *p; void f(int a[5000], struct s b[3], int c[2][2147483647]) { struct s *q = p; } struct t { int x[4095]; int *y; }; struct t v; int *w[4096]; int z[64][64]; int main() { return 0; }",
        "program",
    ),
    (
        "struct e { }; struct e a[2147483647]; struct f { struct e x[5000]; int b[4096]; }; struct f c; int main() { return 0; }",
        "program",
    ),
];

/// Sizes are above 0, and a variable has at most 4,096 cells.
#[test]
fn sizes(rt: HostRuntime) -> Result<(), Fail> {
    assert_eq!(rt; other_answer(rt.alloc(), &SIZES)?.as_str(), "");
    Ok(())
}

const LISTS: [(&str, &str); 14] = [
    ("int x = {1}; int main() { return 0; }", "WrongType 4 5"),
    ("int *p = {0}; int main() { return 0; }", "WrongType 4 6"),
    (
        "int *a[2] = {0, 0}; int main() { return 0; }",
        "WrongType 4 9",
    ),
    (
        "int a[2][2] = {1, 2, 3, 4}; int main() { return 0; }",
        "WrongType 4 11",
    ),
    (
        "int main() { int *q, *p = {0}; return 0; }",
        "WrongType 21 23",
    ),
    (
        "int main() { int a[][2] = {1, 2}; return 0; }",
        "WrongType 17 23",
    ),
    (
        "int main() { int *a[] = {0}; return 0; }",
        "WrongType 17 21",
    ),
    (
        "int main() { for (int i = {0}; ; ) ; return 0; }",
        "WrongType 22 23",
    ),
    (
        "struct s { int a; }; struct s x = {1}; int main() { return 0; }",
        "WrongType 30 31",
    ),
    (
        "struct s { int a; }; int main() { struct s a[2] = {1, 2}; return 0; }",
        "WrongType 43 47",
    ),
    (
        "int a[1] = {1, -2,}; int main() { return 0; }",
        "WrongCount 4 8",
    ),
    (
        "int x, a[2] = {1, 2, 3}, b; int main() { return 0; }",
        "WrongCount 7 11",
    ),
    (
        "int main() { for (int a[1] = {1, 2}; ; ) ; return 0; }",
        "WrongCount 22 26",
    ),
    (
        "int a[] = {-1}, b[1] = {-2147483647,}, c[4096] = {1, 2}; int f() { int a[3] = {1}, x; return a[0]; } int main() { return 0; }",
        "program",
    ),
];

/// A brace list is for an array of `int` that is no shorter.
#[test]
fn lists(rt: HostRuntime) -> Result<(), Fail> {
    assert_eq!(rt; other_answer(rt.alloc(), &LISTS)?.as_str(), "");
    Ok(())
}

const INITIALISERS: [(&str, &str); 19] = [
    ("int main() { int *p = 1; return 0; }", "WrongType 17 19"),
    (
        "int main() { int x = 1, *p = x; return 0; }",
        "WrongType 24 26",
    ),
    (
        "int main() { int *p = 0, x = p; return 0; }",
        "WrongType 25 26",
    ),
    (
        "int main() { int **q = 0; int *p = q; return 0; }",
        "WrongType 30 32",
    ),
    ("int main() { int *p = &p; return 0; }", "WrongType 17 19"),
    ("int main() { int *p = -0; return 0; }", "WrongType 17 19"),
    ("int main() { int a[2] = 0; return 0; }", "WrongType 17 21"),
    (
        "int main() { int a[2]; int b[2] = a; return 0; }",
        "WrongType 27 31",
    ),
    (
        "int main() { int a[2]; int x = a; return 0; }",
        "WrongType 27 28",
    ),
    (
        "int main() { for (int *p = 1; ; ) ; return 0; }",
        "WrongType 22 24",
    ),
    (
        "int main() { { int y = 0; { int *p = &p[y] == 0; } } return 0; }",
        "WrongType 32 34",
    ),
    (
        "struct s { int a; int b[2]; }; int main() { struct s x; struct s *p; struct s y[2]; int i; int *q; struct s **r; struct s z = x; return 0; }",
        "WrongType 122 123",
    ),
    (
        "struct s { int a; int b[2]; }; int main() { struct s x; struct s *p; struct s y[2]; int i; int *q; struct s **r; struct s z = 0; return 0; }",
        "WrongType 122 123",
    ),
    (
        "struct s { int a; int b[2]; }; int main() { struct s x; struct s *p; struct s y[2]; int i; int *q; struct s **r; int z = x; return 0; }",
        "WrongType 117 118",
    ),
    (
        "void f() { } int main() { int x = f(); return 0; }",
        "WrongType 30 31",
    ),
    (
        "int *f() { return 0; } int main() { int x = f(); return 0; }",
        "WrongType 40 41",
    ),
    (
        "int f() { return 0; } int main() { int *p = (f()); return 0; }",
        "WrongType 39 41",
    ),
    (
        "int f() { return 0; } int main() { int a[1] = f(); return 0; }",
        "WrongType 39 43",
    ),
    (
        "int *f(int *p) { return p; } int g() { return 1; } int main() { int x = g(), *p = &x, *q = f(p), **r = &q, a[2], *s = a, *t = (0), y = *p + x; int *u = a + y; return y; }",
        "program",
    ),
];

/// What a variable of a block begins with.
#[test]
fn initialisers(rt: HostRuntime) -> Result<(), Fail> {
    assert_eq!(rt; other_answer(rt.alloc(), &INITIALISERS)?.as_str(), "");
    Ok(())
}

const GLOBALS: [(&str, &str); 13] = [
    ("int g = 1 + 2; int main() { return 0; }", "WrongType 4 5"),
    ("int g = - -1; int main() { return 0; }", "WrongType 4 5"),
    ("int g = ~1; int main() { return 0; }", "WrongType 4 5"),
    ("int g = !0; int main() { return 0; }", "WrongType 4 5"),
    ("int g = y; int main() { return 0; }", "WrongType 4 5"),
    (
        "int g = 1, h = g; int main() { return 0; }",
        "WrongType 11 12",
    ),
    ("int *p = 1; int main() { return 0; }", "WrongType 4 6"),
    ("int *p = -0; int main() { return 0; }", "WrongType 4 6"),
    (
        "int g; int *p = &g; int main() { return 0; }",
        "WrongType 11 13",
    ),
    (
        "int a[2]; int *p = a; int main() { return 0; }",
        "WrongType 14 16",
    ),
    ("int a[2] = 0; int main() { return 0; }", "WrongType 4 8"),
    (
        "struct s { int a; }; struct s x = 0; int main() { return 0; }",
        "WrongType 30 31",
    ),
    (
        "int a = -(1), b = (2), c = -0, *p = (0), **q = 00, d; struct s { int a; }; struct s *r = 0, x; int main() { return 0; }",
        "program",
    ),
];

/// A global begins with a literal, with or without `-`, with 0 for a pointer, or with a brace list.
#[test]
fn globals(rt: HostRuntime) -> Result<(), Fail> {
    assert_eq!(rt; other_answer(rt.alloc(), &GLOBALS)?.as_str(), "");
    Ok(())
}

const STRUCTS: [(&str, &str); 5] = [
    (
        "struct s { int a; struct s b; }; int main() { return 0; }",
        "RecursiveStruct 27 28",
    ),
    (
        "struct s { struct s *p, x; }; int main() { return 0; }",
        "RecursiveStruct 24 25",
    ),
    (
        "struct s { struct s a[2][2]; }; int main() { return 0; }",
        "RecursiveStruct 20 27",
    ),
    (
        "struct s { int a; }; struct t { struct s a; struct t b; }; int main() { return 0; }",
        "RecursiveStruct 53 54",
    ),
    (
        "struct s { struct s *a, *b[2], **c; }; struct t { struct s a[2]; struct t *b; struct s *c; }; struct e { }; struct e x; int main() { return 0; }",
        "program",
    ),
];

/// A struct holds itself only behind a pointer.
#[test]
fn structs(rt: HostRuntime) -> Result<(), Fail> {
    assert_eq!(rt; other_answer(rt.alloc(), &STRUCTS)?.as_str(), "");
    Ok(())
}
