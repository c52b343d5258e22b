//! Conditions, assignments, steps, reads, returns, and what stands outside a loop.

use crate::answers::other_answer;
use std::test::Fail;

const WRONG_TYPES: [(&str, &str); 25] = [
    (
        "int main() { int *p; p = 0; if (p) ; return 0; }",
        "WrongType 32 33",
    ),
    (
        "int main() { int *p; int *q; p = 0; q = p + p; return 0; }",
        "WrongType 44 45",
    ),
    (
        "int main() { int *p; p = 0; p = 1 + p; return 0; }",
        "WrongType 36 37",
    ),
    ("int main() { int *p; p = 1; return 0; }", "WrongType 21 26"),
    ("int main() { int *p; p = (0); return p == 0; }", "program"),
    (
        "int main() { int *p; p = 0; return p == 1; }",
        "WrongType 35 41",
    ),
    (
        "int main() { int *p; int **q; p = 0; q = &p; return p == q; }",
        "WrongType 52 58",
    ),
    (
        "int main() { int *p; p = 0; p *= 2; return 0; }",
        "WrongType 28 29",
    ),
    (
        "int main() { int a[3]; int *p; p = a; p += 2; p--; --p; return p - 1 != a; }",
        "program",
    ),
    ("int main() { int a[0]; return 0; }", "WrongType 17 21"),
    (
        "struct s { int a; }; struct s f() { } int main() { return 0; }",
        "WrongType 21 33",
    ),
    (
        "struct s { int a; }; int f(struct s x) { return 0; } int main() { return 0; }",
        "WrongType 27 37",
    ),
    ("void *f() { } int main() { return 0; }", "WrongType 0 9"),
    (
        "int f(int) { return 0; } int main() { return 0; }",
        "WrongType 6 9",
    ),
    ("int main() { int x = {1}; return 0; }", "WrongType 17 18"),
    (
        "int main() { int *a[1] = {0}; return 0; }",
        "WrongType 17 22",
    ),
    (
        "int g = 1; int h = g; int main() { return 0; }",
        "WrongType 15 16",
    ),
    (
        "int g = -1; int *p = 0; int a[] = {1, -2,}; int main() { return 0; }",
        "program",
    ),
    (
        "void f() { return 1; } int main() { return 0; }",
        "WrongType 11 20",
    ),
    (
        "int f() { return; } int main() { return 0; }",
        "WrongType 10 17",
    ),
    ("int main() { int x; x(); return 0; }", "WrongType 20 21"),
    (
        "void f() { } int main() { int x; x = f(); return 0; }",
        "WrongType 33 40",
    ),
    (
        "struct s { int a; }; int main() { struct s x; struct s y; x = y; return 0; }",
        "WrongType 58 63",
    ),
    (
        "int main() { int *p; scanf(\"%d\", &p); return 0; }",
        "WrongType 34 35",
    ),
    (
        "int main() { int a[2]; printf(\"%d\", a); return 0; }",
        "WrongType 36 37",
    ),
];

/// A break of each rule on types.
#[test]
fn wrong_types(rt: HostRuntime) -> Result<(), Fail> {
    assert_eq!(rt; other_answer(rt.alloc(), &WRONG_TYPES)?.as_str(), "");
    Ok(())
}

const TARGETS_AND_COUNTS: [(&str, &str); 11] = [
    ("int main() { 1 = 2; return 0; }", "NotLvalue 13 14"),
    (
        "int main() { int x; (x + 1)++; return 0; }",
        "NotLvalue 21 26",
    ),
    (
        "int main() { int a[2]; a = 0; return 0; }",
        "NotLvalue 23 24",
    ),
    (
        "int main() { int a[2]; scanf(\"%d\", &a); return 0; }",
        "NotLvalue 36 37",
    ),
    (
        "int main() { int *p; p = &1; return 0; }",
        "NotLvalue 26 27",
    ),
    (
        "struct s { int a[2]; }; int main() { struct s x; struct s *p; p = &x; p->a[1] = 2; (*p).a[0]++; scanf(\"%d\", &*x.a); return x.a[1]; }",
        "program",
    ),
    (
        "int f(int x) { return x; } int main() { f(); return 0; }",
        "WrongCount 40 43",
    ),
    (
        "int f(int x) { return x; } int main() { return f(1, 2); }",
        "WrongCount 47 54",
    ),
    (
        "int main() { int a[2] = {1, 2, 3}; return 0; }",
        "WrongCount 17 21",
    ),
    (
        "int a[2] = {1, 2, 3}; int main() { return 0; }",
        "WrongCount 4 8",
    ),
    (
        "int main() { int a[3] = {1, 2, 3}; int b[] = {4}; return a[2] + b[0]; }",
        "program",
    ),
];

/// Targets, arguments and brace lists.
#[test]
fn targets_and_counts(rt: HostRuntime) -> Result<(), Fail> {
    assert_eq!(rt; other_answer(rt.alloc(), &TARGETS_AND_COUNTS)?.as_str(), "");
    Ok(())
}

const CONDITIONS: [(&str, &str); 9] = [
    (
        "int main() { int *p; p = 0; if (p) ; else ; return 0; }",
        "WrongType 32 33",
    ),
    (
        "int main() { int *p; p = 0; while (p) ; return 0; }",
        "WrongType 35 36",
    ),
    (
        "int main() { int a[2]; do ; while (a); return 0; }",
        "WrongType 35 36",
    ),
    (
        "int main() { int *p; for (p = 0; p; ) ; return 0; }",
        "WrongType 33 34",
    ),
    (
        "int main() { for (int *p = 0; p + 1; ) ; return 0; }",
        "WrongType 30 35",
    ),
    (
        "struct s { int a; }; int main() { struct s x; if (x) ; return 0; }",
        "WrongType 50 51",
    ),
    (
        "int main() { int *p; p = 0; printf(\"%d \", p + 1); return 0; }",
        "WrongType 42 47",
    ),
    (
        "struct s { int a; }; int main() { struct s x; printf(\"%d\", x); return 0; }",
        "WrongType 59 60",
    ),
    (
        "int main() { int *p; p = 0; if (p == 0) ; while (p != 0 && *p) ; do ; while (!(p == 0)); for (; p != 0; ) ; printf(\"%d\", p == 0); return 0; }",
        "program",
    ),
];

/// Conditions and printed values are numbers.
#[test]
fn conditions(rt: HostRuntime) -> Result<(), Fail> {
    assert_eq!(rt; other_answer(rt.alloc(), &CONDITIONS)?.as_str(), "");
    Ok(())
}

const ASSIGNED: [(&str, &str); 25] = [
    (
        "int f(int *p, int *q, int x) { x = p; return 0; } int main() { return 0; }",
        "WrongType 31 36",
    ),
    (
        "int f(int *p, int *q, int x) { p = x; return 0; } int main() { return 0; }",
        "WrongType 31 36",
    ),
    (
        "int f(int *p, int *q, int x) { p = -0; return 0; } int main() { return 0; }",
        "WrongType 31 37",
    ),
    (
        "int f(int *p, int *q, int x) { p = 0 * 1; return 0; } int main() { return 0; }",
        "WrongType 31 40",
    ),
    (
        "int f(int *p, int *q, int x) { p = &q; return 0; } int main() { return 0; }",
        "WrongType 31 37",
    ),
    (
        "int f(int *p, int *q, int x) { *p = q; return 0; } int main() { return 0; }",
        "WrongType 31 37",
    ),
    (
        "int main() { int a[2]; int x; x = a; return 0; }",
        "WrongType 30 35",
    ),
    (
        "int main() { int a[2]; int *p; p = &a; return 0; }",
        "WrongType 31 37",
    ),
    (
        "int main() { int a[2][2]; int *p; p = a; return 0; }",
        "WrongType 34 39",
    ),
    (
        "int main() { int a[2]; a[0] = a; return 0; }",
        "WrongType 23 31",
    ),
    (
        "int f(int *p, int *q, int x) { if (x) p = 1; return 0; } int main() { return 0; }",
        "WrongType 38 43",
    ),
    (
        "int f(int *p, int *q, int x) { for (p = 1; ; ) ; } int main() { return 0; }",
        "WrongType 36 41",
    ),
    (
        "int f(int *p, int *q, int x) { for (; x; x = q) ; } int main() { return 0; }",
        "WrongType 41 46",
    ),
    (
        "struct s { int a; int b[2]; }; int main() { struct s x; struct s *p; struct s y[2]; int i; int *q; struct s **r; x = y[0]; return 0; }",
        "WrongType 113 121",
    ),
    (
        "struct s { int a; int b[2]; }; int main() { struct s x; struct s *p; struct s y[2]; int i; int *q; struct s **r; x = 0; return 0; }",
        "WrongType 113 118",
    ),
    (
        "struct s { int a; int b[2]; }; int main() { struct s x; struct s *p; struct s y[2]; int i; int *q; struct s **r; i = x; return 0; }",
        "WrongType 113 118",
    ),
    (
        "struct s { int a; int b[2]; }; int main() { struct s x; struct s *p; struct s y[2]; int i; int *q; struct s **r; p = x; return 0; }",
        "WrongType 113 118",
    ),
    (
        "struct s { int a; int b[2]; }; int main() { struct s x; struct s *p; struct s y[2]; int i; int *q; struct s **r; x.a = p; return 0; }",
        "WrongType 113 120",
    ),
    (
        "struct s { int a; int b[2]; }; int main() { struct s x; struct s *p; struct s y[2]; int i; int *q; struct s **r; p = r; return 0; }",
        "WrongType 113 118",
    ),
    (
        "struct s { int a; }; struct t { int a; }; int f(struct s *p, struct t *q) { p = q; return 0; } int main() { return 0; }",
        "WrongType 76 81",
    ),
    (
        "int *f() { return 0; } int main() { int x; x = f(); return 0; }",
        "WrongType 43 50",
    ),
    (
        "int f() { return 0; } int main() { int *p; p = f(); return 0; }",
        "WrongType 43 50",
    ),
    (
        "void f() { } int main() { int *p; p = (f()); return 0; }",
        "WrongType 34 43",
    ),
    (
        "struct s { int a; int b[2]; }; int main() { struct s x; struct s *p; struct s y[2]; int i; int *q; struct s **r; x.a = i; p = &x; *p->b = 1; q = x.b; r = 0; *r = p; q = &p->a; y[0].a = y[1].a; return 0; }",
        "program",
    ),
    (
        "int *f() { return 0; } int g() { return 1; } int main() { int *p; int x; p = f(); x = (g()); p = &x; *p = g(); return x; }",
        "program",
    ),
];

/// The two sides of an assignment.
#[test]
fn assigned(rt: HostRuntime) -> Result<(), Fail> {
    assert_eq!(rt; other_answer(rt.alloc(), &ASSIGNED)?.as_str(), "");
    Ok(())
}

const CHANGED: [(&str, &str); 15] = [
    (
        "int f(int *p, int *q, int x) { p += q; return 0; } int main() { return 0; }",
        "WrongType 36 37",
    ),
    (
        "int f(int *p, int *q, int x) { x += p; return 0; } int main() { return 0; }",
        "WrongType 36 37",
    ),
    (
        "int f(int *p, int *q, int x) { x <<= p; return 0; } int main() { return 0; }",
        "WrongType 37 38",
    ),
    (
        "int f(int *p, int *q, int x) { p %= 2; return 0; } int main() { return 0; }",
        "WrongType 31 32",
    ),
    (
        "int f(int *p, int *q, int x) { p ^= 1; return 0; } int main() { return 0; }",
        "WrongType 31 32",
    ),
    (
        "int f(int *p, int *q, int x) { p <<= x; return 0; } int main() { return 0; }",
        "WrongType 31 32",
    ),
    (
        "struct s { int a; int b[2]; }; int main() { struct s x; struct s *p; struct s y[2]; int i; int *q; struct s **r; p -= x; return 0; }",
        "WrongType 118 119",
    ),
    (
        "struct s { int a; int b[2]; }; int main() { struct s x; struct s *p; struct s y[2]; int i; int *q; struct s **r; i *= x.b; return 0; }",
        "WrongType 118 121",
    ),
    (
        "struct s { int a; int b[2]; }; int main() { struct s x; struct s *p; struct s y[2]; int i; int *q; struct s **r; x += 1; return 0; }",
        "WrongType 113 114",
    ),
    (
        "struct s { int a; int b[2]; }; int main() { struct s x; struct s *p; struct s y[2]; int i; int *q; struct s **r; x++; return 0; }",
        "WrongType 113 114",
    ),
    (
        "struct s { int a; int b[2]; }; int main() { struct s x; struct s *p; struct s y[2]; int i; int *q; struct s **r; --*p; return 0; }",
        "WrongType 115 117",
    ),
    (
        "struct s { int a; int b[2]; }; int main() { struct s x; struct s *p; struct s y[2]; int i; int *q; struct s **r; scanf(\"%d\", &x); return 0; }",
        "WrongType 126 127",
    ),
    (
        "struct s { int a; int b[2]; }; int main() { struct s x; struct s *p; struct s y[2]; int i; int *q; struct s **r; scanf(\"%d\", &*r); return 0; }",
        "WrongType 126 128",
    ),
    (
        "struct s { int a; int b[2]; }; int main() { struct s x; struct s *p; struct s y[2]; int i; int *q; struct s **r; for (; ; x++) ; }",
        "WrongType 122 123",
    ),
    (
        "struct s { int a; int b[2]; }; int main() { struct s x; struct s *p; struct s y[2]; int i; int *q; struct s **r; p += i; p -= 1 + 1; ++p; r--; x.a++; *q += i; x.b[0] >>= 1; scanf(\"%d\", &y[1].b[1]); scanf(\"%d\", &*q); scanf(\"%d\", &(i)); return 0; }",
        "program",
    ),
];

/// Compound assignments, steps and reads.
#[test]
fn changed(rt: HostRuntime) -> Result<(), Fail> {
    assert_eq!(rt; other_answer(rt.alloc(), &CHANGED)?.as_str(), "");
    Ok(())
}

const NO_PLACES: [(&str, &str); 35] = [
    (
        "int f(int *p, int *q, int x) { (x + 1) = 2; return 0; } int main() { return 0; }",
        "NotLvalue 32 37",
    ),
    (
        "int f(int *p, int *q, int x) { -x = 2; return 0; } int main() { return 0; }",
        "NotLvalue 31 33",
    ),
    (
        "int f(int *p, int *q, int x) { &x = p; return 0; } int main() { return 0; }",
        "NotLvalue 31 33",
    ),
    (
        "int f(int *p, int *q, int x) { (x ? x : x) = 1; return 0; } int main() { return 0; }",
        "NotLvalue 32 41",
    ),
    (
        "int f(int *p, int *q, int x) { (p + 1) = q; return 0; } int main() { return 0; }",
        "NotLvalue 32 37",
    ),
    (
        "int f(int *p, int *q, int x) { 1 += 2; return 0; } int main() { return 0; }",
        "NotLvalue 31 32",
    ),
    (
        "int f(int *p, int *q, int x) { 1--; return 0; } int main() { return 0; }",
        "NotLvalue 31 32",
    ),
    (
        "int f(int *p, int *q, int x) { ++!x; return 0; } int main() { return 0; }",
        "NotLvalue 33 35",
    ),
    (
        "int f(int *p, int *q, int x) { p = &(p == q); return 0; } int main() { return 0; }",
        "NotLvalue 37 43",
    ),
    (
        "int f(int *p, int *q, int x) { p = &-x; return 0; } int main() { return 0; }",
        "NotLvalue 36 38",
    ),
    (
        "int f(int *p, int *q, int x) { p = & &x; return 0; } int main() { return 0; }",
        "NotLvalue 37 39",
    ),
    (
        "int f(int *p, int *q, int x) { p = &(x ? x : x); return 0; } int main() { return 0; }",
        "NotLvalue 37 46",
    ),
    (
        "int f(int *p, int *q, int x) { return *&(x + 1); } int main() { return 0; }",
        "NotLvalue 41 46",
    ),
    (
        "int f(int *p, int *q, int x) { scanf(\"%d\", &1); return 0; } int main() { return 0; }",
        "NotLvalue 44 45",
    ),
    (
        "int f(int *p, int *q, int x) { scanf(\"%d\", &(x + 1)); return 0; } int main() { return 0; }",
        "NotLvalue 45 50",
    ),
    ("int main() { int a[2]; a++; return 0; }", "NotLvalue 23 24"),
    (
        "int main() { int a[2]; a += 1; return 0; }",
        "NotLvalue 23 24",
    ),
    ("int main() { int a[2]; --a; return 0; }", "NotLvalue 25 26"),
    (
        "int main() { int a[2][2]; a[0] = 0; return 0; }",
        "NotLvalue 26 30",
    ),
    (
        "int main() { int a[2][2]; *a = 0; return 0; }",
        "NotLvalue 26 28",
    ),
    (
        "int main() { int a[2][2]; scanf(\"%d\", &a[1]); return 0; }",
        "NotLvalue 39 43",
    ),
    (
        "struct s { int a; int b[2]; }; int main() { struct s x; struct s *p; struct s y[2]; int i; int *q; struct s **r; x.b = q; return 0; }",
        "NotLvalue 113 116",
    ),
    (
        "struct s { int a; int b[2]; }; int main() { struct s x; struct s *p; struct s y[2]; int i; int *q; struct s **r; p->b++; return 0; }",
        "NotLvalue 113 117",
    ),
    (
        "int f(int a[][2]) { *a = 0; return 0; } int main() { return 0; }",
        "NotLvalue 20 22",
    ),
    (
        "int a[2]; int main() { a = 0; return 0; }",
        "NotLvalue 23 24",
    ),
    (
        "int f() { return 0; } int main() { f += 1; return 0; }",
        "NotLvalue 35 36",
    ),
    (
        "int f() { return 0; } int main() { --f; return 0; }",
        "NotLvalue 37 38",
    ),
    (
        "int f() { return 0; } int main() { return *&(f); }",
        "NotLvalue 45 46",
    ),
    (
        "int f() { return 0; } int main() { *f = 1; return 0; }",
        "WrongType 36 37",
    ),
    (
        "int f() { return 0; } int main() { return -f; }",
        "WrongType 43 44",
    ),
    (
        "int f() { return 0; } int main() { f[0] = 1; return 0; }",
        "WrongType 35 36",
    ),
    (
        "int main() { int *p; p = &f; return 0; } int f() { return 0; }",
        "UnknownName 26 27",
    ),
    (
        "int f() { return 0; } int main() { int f; int *p; f = 1; f++; p = &f; return 0; }",
        "program",
    ),
    (
        "int f(int a[2]) { a = 0; a++; a += 1; return 0; } int main() { return 0; }",
        "program",
    ),
    (
        "int main() { int a[2]; int b[2][2]; int *p; p = &*a; p = *&a; p = &a[1]; p = *&*b; (*(&p)) = (a); *a = 1; *b[0] = 1; return 0; }",
        "program",
    ),
];

/// What is assigned to, stepped, read or behind `&` is a place, no function, and no array but behind `&`.
#[test]
fn no_places(rt: HostRuntime) -> Result<(), Fail> {
    assert_eq!(rt; other_answer(rt.alloc(), &NO_PLACES)?.as_str(), "");
    Ok(())
}

const RETURNED: [(&str, &str); 17] = [
    (
        "int *f() { return 1; } int main() { return 0; }",
        "WrongType 11 20",
    ),
    (
        "int *f() { return -0; } int main() { return 0; }",
        "WrongType 11 21",
    ),
    (
        "int *f(int x) { return x; } int main() { return 0; }",
        "WrongType 16 25",
    ),
    (
        "int *f(int **p) { return p; } int main() { return 0; }",
        "WrongType 18 27",
    ),
    (
        "int *f() { return; } int main() { return 0; }",
        "WrongType 11 18",
    ),
    (
        "int f(int *p) { return p; } int main() { return 0; }",
        "WrongType 16 25",
    ),
    (
        "int f(int a[]) { return a; } int main() { return 0; }",
        "WrongType 17 26",
    ),
    (
        "void f() { return 0; } int main() { return 0; }",
        "WrongType 11 20",
    ),
    (
        "void f(int x) { if (x) return; else return x; } int main() { return 0; }",
        "WrongType 36 45",
    ),
    ("int main() { while (1) { return; } }", "WrongType 25 32"),
    (
        "struct s { int a; }; int main() { struct s x; return x; }",
        "WrongType 46 55",
    ),
    (
        "struct s { int a; }; struct s *f() { struct s x; return x; } int main() { return 0; }",
        "WrongType 49 58",
    ),
    ("void f() { } int main() { return f(); }", "WrongType 26 37"),
    (
        "void f() { } void g() { return f(); } int main() { return 0; }",
        "WrongType 24 35",
    ),
    (
        "int *f() { return 0; } int main() { return f(); }",
        "WrongType 36 47",
    ),
    (
        "int f() { return 0; } int *g() { return (f()); } int main() { return 0; }",
        "WrongType 33 46",
    ),
    (
        "int *f(int *p) { return p + 1; } int *g() { int a[2]; return a; } int *h() { return f(0); } void i() { if (1) return; } int *j() { return (0); } int **k(int *p) { return &p; } int l() { } int main() { return 0; }",
        "program",
    ),
];

/// What a function returns.
#[test]
fn returned(rt: HostRuntime) -> Result<(), Fail> {
    assert_eq!(rt; other_answer(rt.alloc(), &RETURNED)?.as_str(), "");
    Ok(())
}

const MISPLACED: [(&str, &str); 9] = [
    ("int main() { { break; } return 0; }", "Misplaced 15 21"),
    (
        "int main() { if (1) ; else break; return 0; }",
        "Misplaced 27 33",
    ),
    (
        "int main() { if (1) { { continue; } } return 0; }",
        "Misplaced 24 33",
    ),
    (
        "int main() { while (0) ; continue; return 0; }",
        "Misplaced 25 34",
    ),
    (
        "int main() { for (; ; ) { break; } break; return 0; }",
        "Misplaced 35 41",
    ),
    (
        "int main() { do ; while (0); if (1) continue; return 0; }",
        "Misplaced 36 45",
    ),
    (
        "int f() { continue; return 0; } int main() { return 0; }",
        "Misplaced 10 19",
    ),
    (
        "void f() { while (1) break; } int main() { f(); break; return 0; }",
        "Misplaced 48 54",
    ),
    (
        "int main() { while (1) for (; ; ) { if (1) { continue; } else { do { break; } while (1); } break; } do { if (1) continue; break; } while (0); return 0; }",
        "program",
    ),
];

/// `break` and `continue` outside a loop.
#[test]
fn misplaced(rt: HostRuntime) -> Result<(), Fail> {
    assert_eq!(rt; other_answer(rt.alloc(), &MISPLACED)?.as_str(), "");
    Ok(())
}
