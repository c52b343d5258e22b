//! Operands of operators, indices and members.

use crate::answers::other_answer;
use std::test::Fail;

const UNARY: [(&str, &str); 11] = [
    (
        "int f(int *p, int *q, int x) { return -p; } int main() { return 0; }",
        "WrongType 39 40",
    ),
    (
        "int f(int *p, int *q, int x) { return !p; } int main() { return 0; }",
        "WrongType 39 40",
    ),
    ("int main() { int a[2]; return ~a; }", "WrongType 31 32"),
    (
        "int f(int *p, int *q, int x) { return *x; } int main() { return 0; }",
        "WrongType 39 40",
    ),
    (
        "int f(int *p, int *q, int x) { return **p; } int main() { return 0; }",
        "WrongType 39 41",
    ),
    (
        "int f(int *p, int *q, int x) { return -(p + 1); } int main() { return 0; }",
        "WrongType 40 45",
    ),
    ("int main() { return *0; }", "WrongType 21 22"),
    (
        "struct s { int a; }; int main() { struct s x; return !x; }",
        "WrongType 54 55",
    ),
    (
        "struct s { int a; }; int main() { struct s x; return *x; }",
        "WrongType 54 55",
    ),
    (
        "struct s { int a; }; int f(struct s *p) { return -*p; } int main() { return 0; }",
        "WrongType 50 52",
    ),
    (
        "int f(int *p, int *q, int x) { int **r; r = &p; return -*p + !**r + ~*&*q + *&x + - -x; } int main() { return 0; }",
        "program",
    ),
];

/// Operands of the unary operators.
#[test]
fn unary(rt: HostRuntime) -> Result<(), Fail> {
    assert_eq!(rt; other_answer(rt.alloc(), &UNARY)?.as_str(), "");
    Ok(())
}

const BINARY: [(&str, &str); 19] = [
    (
        "int f(int *p, int *q, int x) { return p * x; } int main() { return 0; }",
        "WrongType 38 39",
    ),
    (
        "int f(int *p, int *q, int x) { return x * p; } int main() { return 0; }",
        "WrongType 42 43",
    ),
    (
        "int f(int *p, int *q, int x) { return p / 2; } int main() { return 0; }",
        "WrongType 38 39",
    ),
    (
        "int f(int *p, int *q, int x) { return x % q; } int main() { return 0; }",
        "WrongType 42 43",
    ),
    (
        "int f(int *p, int *q, int x) { return p & 1; } int main() { return 0; }",
        "WrongType 38 39",
    ),
    (
        "int f(int *p, int *q, int x) { return x | p; } int main() { return 0; }",
        "WrongType 42 43",
    ),
    ("int main() { int a[2]; return 1 ^ a; }", "WrongType 34 35"),
    (
        "int f(int *p, int *q, int x) { return p << 1; } int main() { return 0; }",
        "WrongType 38 39",
    ),
    (
        "int f(int *p, int *q, int x) { return 1 >> p; } int main() { return 0; }",
        "WrongType 43 44",
    ),
    (
        "int f(int *p, int *q, int x) { return p < q; } int main() { return 0; }",
        "WrongType 38 39",
    ),
    (
        "int f(int *p, int *q, int x) { return x <= q; } int main() { return 0; }",
        "WrongType 43 44",
    ),
    (
        "int f(int *p, int *q, int x) { return p && x; } int main() { return 0; }",
        "WrongType 38 39",
    ),
    (
        "int f(int *p, int *q, int x) { return x || p; } int main() { return 0; }",
        "WrongType 43 44",
    ),
    (
        "int f(int *p, int *q, int x) { return p - q > 0; } int main() { return 0; }",
        "WrongType 42 43",
    ),
    (
        "int f(int *p, int *q, int x) { q = x - p; return 0; } int main() { return 0; }",
        "WrongType 39 40",
    ),
    (
        "int f(int *p, int *q, int x) { q = p + (x + q); return 0; } int main() { return 0; }",
        "WrongType 44 45",
    ),
    (
        "struct s { int a; }; int main() { struct s x; return x + 1; }",
        "WrongType 53 54",
    ),
    (
        "struct s { int a; }; int main() { struct s x; return 1 - x; }",
        "WrongType 57 58",
    ),
    (
        "int f(int *p, int *q, int x) { q = p + x - 1; q = p + (x * 2); return *(p + 1) + x; } int main() { return 0; }",
        "program",
    ),
];

/// Operands of the binary operators.
#[test]
fn binary(rt: HostRuntime) -> Result<(), Fail> {
    assert_eq!(rt; other_answer(rt.alloc(), &BINARY)?.as_str(), "");
    Ok(())
}

const COMPARED: [(&str, &str); 16] = [
    (
        "int f(int *p, int *q, int x) { return 1 == p; } int main() { return 0; }",
        "WrongType 38 44",
    ),
    (
        "int f(int *p, int *q, int x) { return p != x; } int main() { return 0; }",
        "WrongType 38 44",
    ),
    (
        "int f(int *p, int *q, int x) { return x != p; } int main() { return 0; }",
        "WrongType 38 44",
    ),
    (
        "int f(int *p, int *q, int x) { return p == -0; } int main() { return 0; }",
        "WrongType 38 45",
    ),
    (
        "int f(int *p, int *q, int x) { return p == (0 + 0); } int main() { return 0; }",
        "WrongType 38 50",
    ),
    (
        "int f(int *p, int *q, int x) { return x + (p == *q); } int main() { return 0; }",
        "WrongType 43 50",
    ),
    (
        "int f(int *p, int *q, int x) { return (p) == 1 || x; } int main() { return 0; }",
        "WrongType 38 46",
    ),
    (
        "int f(int *p, int *q, int x) { return p == &q; } int main() { return 0; }",
        "WrongType 38 45",
    ),
    (
        "int main() { int a[2]; int b[2]; return a == &b; }",
        "WrongType 40 47",
    ),
    (
        "int main() { int a[2]; int *b[2]; return a != b; }",
        "WrongType 41 47",
    ),
    (
        "int main() { int a[2][3]; int b[2][4]; return a == b; }",
        "WrongType 46 52",
    ),
    (
        "struct s { int a; }; struct t { int a; }; int f(struct s *p, struct t *q) { return p == q; } int main() { return 0; }",
        "WrongType 83 89",
    ),
    (
        "struct s { int a; }; int main() { struct s x; struct s y; return x == y; }",
        "WrongType 65 66",
    ),
    (
        "struct s { int a; }; int f(struct s *p) { return p == *p; } int main() { return 0; }",
        "WrongType 54 56",
    ),
    (
        "int f(int *p, int *q, int x) { return p == 0 == q; } int main() { return 0; }",
        "WrongType 38 49",
    ),
    (
        "int main() { int a[2][3]; int b[2][4]; int *p; p = (0x0); return (a[0] == b[1]) + (p != *a) + (0 == p) + (p != 00) + (a == a) + (&p == 0) + (*a == &b[0][0]); }",
        "program",
    ),
];

/// The two sides of `==` and `!=`.
#[test]
fn compared(rt: HostRuntime) -> Result<(), Fail> {
    assert_eq!(rt; other_answer(rt.alloc(), &COMPARED)?.as_str(), "");
    Ok(())
}

const CONDITIONAL: [(&str, &str); 6] = [
    (
        "int f(int *p, int *q, int x) { return p ? 1 : 2; } int main() { return 0; }",
        "WrongType 38 39",
    ),
    (
        "int f(int *p, int *q, int x) { return x ? p : 0; } int main() { return 0; }",
        "WrongType 42 43",
    ),
    (
        "int f(int *p, int *q, int x) { return x ? 0 : p; } int main() { return 0; }",
        "WrongType 46 47",
    ),
    (
        "int f(int *p, int *q, int x) { p = x ? p : q; return 0; } int main() { return 0; }",
        "WrongType 39 40",
    ),
    (
        "struct s { int a; }; int main() { struct s x; return 1 ? 2 : x; }",
        "WrongType 61 62",
    ),
    (
        "int f(int *p, int *q, int x) { p = p + (x ? 1 : 2); return p == q ? *p : x; } int main() { return 0; }",
        "program",
    ),
];

/// The parts of `?:` are numbers.
#[test]
fn conditional(rt: HostRuntime) -> Result<(), Fail> {
    assert_eq!(rt; other_answer(rt.alloc(), &CONDITIONAL)?.as_str(), "");
    Ok(())
}

const INDICES: [(&str, &str); 10] = [
    (
        "int f(int *p, int *q, int x) { return x[0]; } int main() { return 0; }",
        "WrongType 38 39",
    ),
    ("int main() { int a[2]; return 1[a]; }", "WrongType 30 31"),
    (
        "int f(int *p, int *q, int x) { return (*p)[0]; } int main() { return 0; }",
        "WrongType 39 41",
    ),
    (
        "int f(int *p, int *q, int x) { return p[q]; } int main() { return 0; }",
        "WrongType 40 41",
    ),
    (
        "int main() { int a[2][2]; return a[0][a]; }",
        "WrongType 38 39",
    ),
    (
        "int main() { int a[2][2]; return a[a[0]][0]; }",
        "WrongType 35 39",
    ),
    (
        "int main() { int a[2]; return a[0][1]; }",
        "WrongType 30 34",
    ),
    (
        "struct s { int a; }; int main() { struct s x; return x[0]; }",
        "WrongType 53 54",
    ),
    (
        "struct s { int a; }; int main() { struct s x; int a[2]; return a[x]; }",
        "WrongType 65 66",
    ),
    (
        "int main() { int a[2][2]; int *p; p = a[0]; p[0] = 1; a[1][p[0]] = *a[1] + (*a)[0] + (p + 1)[0]; return **a; }",
        "program",
    ),
];

/// `a[i]` takes a pointer and a number.
#[test]
fn indices(rt: HostRuntime) -> Result<(), Fail> {
    assert_eq!(rt; other_answer(rt.alloc(), &INDICES)?.as_str(), "");
    Ok(())
}

const MEMBERS: [(&str, &str); 22] = [
    (
        "struct s { int a; int b[2]; }; int main() { struct s x; struct s *p; struct s y[2]; int i; int *q; struct s **r; return i.a; }",
        "WrongType 120 121",
    ),
    (
        "struct s { int a; int b[2]; }; int main() { struct s x; struct s *p; struct s y[2]; int i; int *q; struct s **r; return p.a; }",
        "WrongType 120 121",
    ),
    (
        "struct s { int a; int b[2]; }; int main() { struct s x; struct s *p; struct s y[2]; int i; int *q; struct s **r; return y.a; }",
        "WrongType 120 121",
    ),
    (
        "struct s { int a; int b[2]; }; int main() { struct s x; struct s *p; struct s y[2]; int i; int *q; struct s **r; return x.a.a; }",
        "WrongType 120 123",
    ),
    (
        "struct s { int a; int b[2]; }; int main() { struct s x; struct s *p; struct s y[2]; int i; int *q; struct s **r; return x.b.a; }",
        "WrongType 120 123",
    ),
    (
        "struct s { int a; int b[2]; }; int main() { struct s x; struct s *p; struct s y[2]; int i; int *q; struct s **r; return x->a; }",
        "WrongType 120 121",
    ),
    (
        "struct s { int a; int b[2]; }; int main() { struct s x; struct s *p; struct s y[2]; int i; int *q; struct s **r; return i->a; }",
        "WrongType 120 121",
    ),
    (
        "struct s { int a; int b[2]; }; int main() { struct s x; struct s *p; struct s y[2]; int i; int *q; struct s **r; return q->a; }",
        "WrongType 120 121",
    ),
    (
        "struct s { int a; int b[2]; }; int main() { struct s x; struct s *p; struct s y[2]; int i; int *q; struct s **r; return r->a; }",
        "WrongType 120 121",
    ),
    (
        "struct s { int a; int b[2]; }; int main() { struct s x; struct s *p; struct s y[2]; int i; int *q; struct s **r; return p->a->a; }",
        "WrongType 120 124",
    ),
    (
        "struct s { int a; int b[2]; }; int main() { struct s x; struct s *p; struct s y[2]; int i; int *q; struct s **r; return y[0]->a; }",
        "WrongType 120 124",
    ),
    (
        "struct s { int a; int b[2]; }; int main() { struct s x; struct s *p; struct s y[2]; int i; int *q; struct s **r; return y[0].c; }",
        "MissingField 125 126",
    ),
    (
        "struct s { int a; int b[2]; }; int main() { struct s x; struct s *p; struct s y[2]; int i; int *q; struct s **r; return y->c; }",
        "MissingField 123 124",
    ),
    (
        "struct s { int a; int b[2]; }; int main() { struct s x; struct s *p; struct s y[2]; int i; int *q; struct s **r; return (*p).c; }",
        "MissingField 125 126",
    ),
    (
        "struct s { int a; int b[2]; }; int main() { struct s x; struct s *p; struct s y[2]; int i; int *q; struct s **r; return (*r)->s; }",
        "MissingField 126 127",
    ),
    (
        "struct s { int a; int b[2]; }; int main() { struct s x; struct s *p; struct s y[2]; int i; int *q; struct s **r; x.x = 1; return 0; }",
        "MissingField 115 116",
    ),
    (
        "struct s { int a; int b[2]; }; int main() { struct s x; struct s *p; struct s y[2]; int i; int *q; struct s **r; scanf(\"%d\", &p->c); return 0; }",
        "MissingField 129 130",
    ),
    (
        "struct s { int a; int b[2]; }; int main() { struct s x; struct s *p; struct s y[2]; int i; int *q; struct s **r; q = &x.c; return 0; }",
        "MissingField 120 121",
    ),
    (
        "struct s { int a; }; struct t { struct s b; int c; }; int main() { struct t x; return x.b.c; }",
        "MissingField 90 91",
    ),
    (
        "struct s { int a; }; struct t { struct s *b; int c; }; int main() { struct t x; return x.b->c; }",
        "MissingField 92 93",
    ),
    (
        "struct e { }; int main() { struct e x; return x.a; }",
        "MissingField 48 49",
    ),
    (
        "struct s { int a; int b[2]; }; int main() { struct s x; struct s *p; struct s y[2]; int i; int *q; struct s **r; p = y; p = &y[1]; r = &p; q = x.b; return (*p).a + p->a + y->a + (y + 1)->b[0] + (*r)->a + *x.b + (*&x).a + (&x)->a; }",
        "program",
    ),
];

/// `.` takes a struct, and `->` a pointer to one.
#[test]
fn members(rt: HostRuntime) -> Result<(), Fail> {
    assert_eq!(rt; other_answer(rt.alloc(), &MEMBERS)?.as_str(), "");
    Ok(())
}

const FUNCTION_NAMES: [(&str, &str); 11] = [
    (
        "int f() { return 0; } int main() { return f; }",
        "WrongType 42 43",
    ),
    (
        "int f() { return 0; } int main() { return 1 + f; }",
        "WrongType 46 47",
    ),
    (
        "int f() { return 0; } int main() { return *f; }",
        "WrongType 43 44",
    ),
    (
        "int f() { return 0; } int main() { if (f) ; return 0; }",
        "WrongType 39 40",
    ),
    (
        "int f() { return 0; } int main() { int *p; p = &f; return 0; }",
        "NotLvalue 48 49",
    ),
    (
        "int f() { return 0; } int main() { f = 1; return 0; }",
        "NotLvalue 35 36",
    ),
    (
        "int f() { return 0; } int main() { f++; return 0; }",
        "NotLvalue 35 36",
    ),
    (
        "int f() { return 0; } int main() { scanf(\"%d\", &f); return 0; }",
        "NotLvalue 48 49",
    ),
    (
        "int f() { return 0; } int main() { int x = f; return 0; }",
        "WrongType 43 44",
    ),
    (
        "int f(int x) { return 0; } int main() { return f(f); }",
        "WrongType 49 50",
    ),
    ("int main() { return main == 0; }", "WrongType 20 24"),
];

/// A function's name is no value, and no place.
#[test]
fn function_names(rt: HostRuntime) -> Result<(), Fail> {
    assert_eq!(rt; other_answer(rt.alloc(), &FUNCTION_NAMES)?.as_str(), "");
    Ok(())
}
