//! Programs of the whole language, run by the plain program and by the interpreter. What they print and return was found by
//! hand from the standard's rules.

use crate::texts::program_of;
use ax_flow::lower;
use ax_interp::run;
use ax_meaning::{Run, RunEnd};
use ax_prog::Program;
use std::alloc::{AllocError, Global};
use std::test::Fail;

fn printed(alloc: Global, out: &[i32], end: &str) -> Result<String, AllocError> {
    let mut text = String::new(alloc);
    for n in out {
        let number = format!(in alloc; "{n} ")?;
        text.push_str(number.as_str())?;
    }
    text.push_str(end)?;
    Ok(text)
}

// What a run printed, and how it ended.
fn shown(alloc: Global, run: &Run) -> Result<String, AllocError> {
    match &run.end {
        RunEnd::Returned { out, ret } => {
            let end = format!(in alloc; "returns {ret}")?;
            printed(alloc, out.as_slice(), end.as_str())
        }
        RunEnd::Undefined { why, out } => {
            let end = format!(in alloc; "undefined {why:?}")?;
            printed(alloc, out.as_slice(), end.as_str())
        }
        RunEnd::OutOfSteps { out } => printed(alloc, out.as_slice(), "out of steps"),
    }
}

// What the interpreter does of a program on the inputs 3, -2 and 7 within these steps.
fn flat_run(alloc: Global, program: &Program, steps: u32) -> Result<Run, AllocError> {
    let flow = lower(alloc, program)?;
    run(alloc, &flow, &[3, -2, 7], steps)
}

// What two runs print, and how they end, where they do so alike.
fn agreed(alloc: Global, flat: &Run, plain: &Run) -> Result<String, Fail> {
    let found = shown(alloc, plain)?;
    if shown(alloc, flat)?.as_str() != found.as_str() || flat.used != plain.used {
        return Err(Fail::from("unlike runs"));
    }
    Ok(found)
}

// What both print of a program on these inputs, and how they end within these steps, where they do so alike.
fn both(alloc: Global, program: &Program, steps: u32) -> Result<String, Fail> {
    let flat = flat_run(alloc, program, steps)?;
    let plain = ax_interp_plain::run(alloc, program, &[3, -2, 7], steps)?;
    agreed(alloc, &flat, &plain)
}

// What both print of a source.
fn ran(alloc: Global, source: &str, steps: u32) -> Result<String, Fail> {
    let program = program_of(alloc, source)?;
    both(alloc, &program, steps)
}

/// The first of these sources that runs otherwise than the text beside it says, with how it runs; nothing where there is none.
fn other_run(alloc: Global, rows: &[(&str, &str)]) -> Result<String, Fail> {
    for (source, wanted) in rows {
        let found = ran(alloc, source, 1000)?;
        if found.as_str() != *wanted {
            return Ok(format!(in alloc; "{source}: {found}")?);
        }
    }
    Ok(String::new(alloc))
}

const POINTERS: [(&str, &str); 17] = [
    (
        "int main() { int *p = 0; if (p != 0 && *p > 0) printf(\"%d\", 1); else printf(\"%d\", 2); return 0; }",
        "2 returns 0",
    ),
    (
        "int main() { int *p = 0; if (*p > 0 && p != 0) printf(\"%d\", 1); else printf(\"%d\", 2); return 0; }",
        "undefined NullAccess",
    ),
    (
        "int main() { int x = 5; int *p = &x; if (p != 0 && *p > 0) printf(\"%d\", *p); return p == 0 || *p; }",
        "5 returns 1",
    ),
    (
        "int main() { int *p = 0; return p == 0 ? 4 : *p; }",
        "returns 4",
    ),
    (
        "int main() { int *p = 0; return p != 0 ? 4 : *p; }",
        "undefined NullAccess",
    ),
    (
        "int main() { int *p = 0; printf(\"%d\", 3); p++; return 0; }",
        "3 undefined NullAccess",
    ),
    ("int main() { int *p; return p == 0; }", "undefined Uninit"),
    (
        "int main() { int *p; int x = 2; int **q = &p; *q = &x; **q = 7; return *p + x; }",
        "returns 14",
    ),
    (
        "int main() { int *p = 0; { int x = 1; p = &x; printf(\"%d\", *p); } return *p; }",
        "1 undefined DeadObject",
    ),
    (
        "int *f() { int x = 1; return &x; } int main() { int *p = f(); *p = 2; return 0; }",
        "undefined DeadObject",
    ),
    (
        "int main() { int a[3]; int *p = a; int *q = &a[1]; p++; return (p == q) * 10 + (p != q) + (&a[3] == a + 3); }",
        "returns 11",
    ),
    (
        "int main() { int a[3] = {1, 2, 3}; int *p = a + 3; p -= 1; printf(\"%d\", *p); p--; return *p + *(p - 1); }",
        "3 returns 3",
    ),
    (
        "int main() { int x = 1; int *p = &x; p += 1; p = p - 1; return *p; }",
        "returns 1",
    ),
    (
        "int main() { int x = 1; int *p = &x; p += 2; return 0; }",
        "undefined OutOfBounds",
    ),
    (
        "int main() { int *p = 0; int *q = &*p; return q == 0; }",
        "returns 1",
    ),
    (
        "int main() { int *p = 0; *p = 1 / 0; return 0; }",
        "undefined NullAccess",
    ),
    (
        "int main() { int *p; { int a[3] = {5, 6, 7}; a[2] = 8; p = &a[2]; printf(\"%d\", *p); } return *p; }",
        "8 undefined DeadObject",
    ),
];

/// Null pointers, moves within arrays, and objects that have ended.
#[test]
fn pointers(rt: HostRuntime) -> Result<(), Fail> {
    assert_eq!(rt; other_run(rt.alloc(), &POINTERS)?.as_str(), "");
    Ok(())
}

const ARRAYS: [(&str, &str); 15] = [
    (
        "int main() { int a[3] = {1, 2, 3}; int i = 2; return a[i]; }",
        "returns 3",
    ),
    (
        "int main() { int a[3] = {1, 2, 3}; int i = 3; return a[i]; }",
        "undefined OutOfBounds",
    ),
    (
        "int main() { int a[3] = {1, 2, 3}; int i = 3; a[i] = 1; return 0; }",
        "undefined OutOfBounds",
    ),
    (
        "int main() { int a[3] = {1, 2, 3}; int i = 0; return a[i - 1]; }",
        "undefined OutOfBounds",
    ),
    (
        "int main() { int a[3]; int *p = a + 4; return 0; }",
        "undefined OutOfBounds",
    ),
    (
        "int main() { int a[2][3]; a[1][2] = 5; a[0][2] = 4; return a[1][2] * 10 + *(a[0] + 2); }",
        "returns 54",
    ),
    (
        "int main() { int a[2][3]; a[0][3] = 1; return 0; }",
        "undefined OutOfBounds",
    ),
    (
        "int main() { int a[2][3]; int i; int j; for (i = 0; i < 2; i++) for (j = 0; j < 3; j++) a[i][j] = i * 3 + j; return *(*(a + 1) + 1) * 10 + **a; }",
        "returns 40",
    ),
    (
        "int main() { int a[4] = {1, -2}; return a[0] + a[1] + a[2] + a[3]; }",
        "returns -1",
    ),
    (
        "int main() { int a[] = {5, -6,}; printf(\"%d\\n\", a[0]); printf(\"%d \", a[1]); return a[2]; }",
        "5 -6 undefined OutOfBounds",
    ),
    (
        "int main() { int a[2]; a[0] = 1; return a[1]; }",
        "undefined Uninit",
    ),
    (
        "int main() { int a[2]; int i = 1; scanf(\"%d\", &a[i]); a[i]++; a[0] = a[i] - 2; return a[0] * 10 + a[1]; }",
        "returns 24",
    ),
    (
        "int main() { int *a[2]; int x = 3; int y = 4; a[0] = &x; a[1] = &y; *a[0] += *a[1]; return x; }",
        "returns 7",
    ),
    (
        "int main() { int a[3] = {5, 6, 7}; printf(\"%d\", a[0]); printf(\"%d\", a[2]); return a[4]; }",
        "5 7 undefined OutOfBounds",
    ),
    (
        "int main() { int a[3] = {5, 6, 7}; return a[-2147483647 - 1]; }",
        "undefined OutOfBounds",
    ),
];

/// Indices, arrays of arrays, and brace lists.
#[test]
fn arrays(rt: HostRuntime) -> Result<(), Fail> {
    assert_eq!(rt; other_run(rt.alloc(), &ARRAYS)?.as_str(), "");
    Ok(())
}

const NUMBERS: [(&str, &str); 26] = [
    (
        "int main() { int x = 2147483647; return x + 1; }",
        "undefined Overflow",
    ),
    (
        "int main() { int x = -2147483647; return x - 1; }",
        "returns -2147483648",
    ),
    (
        "int main() { int x = -2147483647; return x - 2; }",
        "undefined Overflow",
    ),
    (
        "int main() { int x = -2147483647 - 1; return x / -1; }",
        "undefined Division",
    ),
    (
        "int main() { int x = -2147483647 - 1; return x % -1; }",
        "undefined Division",
    ),
    (
        "int main() { int x = -2147483647 - 1; return -x; }",
        "undefined Overflow",
    ),
    (
        "int main() { int x = -2147483647 - 1; return x * -1; }",
        "undefined Overflow",
    ),
    (
        "int main() { int x = 2147483647; x++; return 0; }",
        "undefined Overflow",
    ),
    (
        "int main() { int x = 0; return 1 / x; }",
        "undefined Division",
    ),
    (
        "int main() { int x = 7; x %= 0; return 0; }",
        "undefined Division",
    ),
    ("int main() { return -7 / 2 * 10 + -7 % 2; }", "returns -31"),
    (
        "int main() { printf(\"%d\", 1 << 30); printf(\"%d\", -5 >> 1); return 1 << 31; }",
        "1073741824 -3 undefined Shift",
    ),
    (
        "int main() { int x = -1; return x << 1; }",
        "undefined Shift",
    ),
    (
        "int main() { int x = 32; return 1 >> x; }",
        "undefined Shift",
    ),
    ("int main() { return ~5 & 12 | 3 ^ 1; }", "returns 10"),
    ("int main() { return 010 + 0x1F - 9; }", "returns 30"),
    (
        "int main() { int x = 13; x %= 5; x <<= 3; x |= 1; x ^= 2; x &= 25; x >>= 1; x -= 20; x *= -2; x /= 3; x += 4; return x; }",
        "returns 9",
    ),
    (
        "int main() { int x = 0; return (x && 1 / x) + (x == 0 || 1 / x) * 2 + (x ? 1 / x : 4) + !x * 8; }",
        "returns 14",
    ),
    (
        "int main() { int x = 3; return (1 < x) + (x <= 3) * 2 + (x > 3) * 4 + (x >= 4) * 8 + (x != 3) * 16 + (x == 3) * 32; }",
        "returns 35",
    ),
    ("int main() { int x = x; return 0; }", "undefined Uninit"),
    (
        "int main() { int x; x += 1; return 0; }",
        "undefined Uninit",
    ),
    (
        "int main() { int x = 5; return x % 0; }",
        "undefined Division",
    ),
    (
        "int main() { int x = 2; int y = 0; int z = 3; return (x < 2) + (x <= 2) * 2 + (x && 3) * 4 + (y || 0) * 8 + (z ^ 5) * 16; }",
        "returns 102",
    ),
    ("int main() { return 7 || 1 / 0; }", "returns 1"),
    ("int main() { return 0 ? 1 / 0 : -5; }", "returns -5"),
    (
        "int main() { int x; x = 5; x *= 5; x--; return x; }",
        "returns 24",
    ),
];

/// What the operators give, and where they are undefined.
#[test]
fn numbers(rt: HostRuntime) -> Result<(), Fail> {
    assert_eq!(rt; other_run(rt.alloc(), &NUMBERS)?.as_str(), "");
    Ok(())
}

const FUNCTIONS: [(&str, &str); 21] = [
    (
        "int sum(int a[], int n) { int s = 0; for (int i = 0; i < n; i++) s += a[i]; return s; } int main() { int b[4] = {1, 2, 3, 4}; return sum(b, 4); }",
        "returns 10",
    ),
    (
        "int sum(int a[], int n) { int s = 0; for (int i = 0; i < n; i++) s += a[i]; return s; } int main() { int b[4] = {1, 2, 3, 4}; return sum(b + 1, 2); }",
        "returns 5",
    ),
    (
        "int sum(int a[], int n) { int s = 0; for (int i = 0; i < n; i++) s += a[i]; return s; } int main() { int b[4] = {1, 2, 3, 4}; return sum(b, 5); }",
        "undefined OutOfBounds",
    ),
    (
        "int fact(int n) { if (n < 2) return 1; int m = fact(n - 1); return n * m; } int main() { return fact(10); }",
        "returns 3628800",
    ),
    (
        "int fact(int n) { if (n < 2) return 1; int m = fact(n - 1); return n * m; } int main() { return fact(13); }",
        "undefined Overflow",
    ),
    (
        "int odd(int n); int even(int n) { if (n == 0) return 1; return odd(n - 1); } int odd(int n) { if (n == 0) return 0; return even(n - 1); } int main() { int x = even(10), y = odd(10); return x * 10 + y; }",
        "returns 10",
    ),
    (
        "void swap(int *p, int *q) { int t = *p; *p = *q; *q = t; } int main() { int x; int y; scanf(\"%d\", &x); scanf(\"%d\", &y); swap(&x, &y); printf(\"%d\", x); printf(\"%d\", y); return 0; }",
        "-2 3 returns 0",
    ),
    (
        "void f(int x) { x = 9; } int main() { int x = 1; f(x); return x; }",
        "returns 1",
    ),
    (
        "void f(int a[3]) { a[1] = 7; a = 0; } int main() { int b[3] = {1}; f(b); return b[1]; }",
        "returns 7",
    ),
    (
        "int f(int a[][2], int i) { return a[i][1]; } int main() { int b[2][2]; b[1][1] = 6; return f(b, 1); }",
        "returns 6",
    ),
    (
        "int f() { } int main() { f(); int x = f(); return x; }",
        "undefined NoValue",
    ),
    (
        "int f(int x) { if (x > 0) return x; } int main() { int y = 0; y = f(3); printf(\"%d\", y); y = f(-3); return 0; }",
        "3 undefined NoValue",
    ),
    (
        "void f(int n) { if (n == 0) return; printf(\"%d\", n); f(n - 1); printf(\"%d\", n); } int main() { f(2); }",
        "2 1 1 2 returns 0",
    ),
    (
        "int n; int main() { n++; if (n < 3) main(); return n; }",
        "returns 3",
    ),
    (
        "int n; int main() { if (n == 0) { n = 1; int x = main(); return x + 4; } }",
        "returns 4",
    ),
    (
        "int *most(int *a, int n) { int *p = a; for (int i = 1; i < n; i++) if (a[i] > *p) p = a + i; return p; } int main() { int a[3] = {4, 9, 2}; int *p = most(a, 3); *p = 0; return a[0] + a[1] + a[2]; }",
        "returns 6",
    ),
    (
        "int f() { } int main() { return f(); }",
        "undefined NoValue",
    ),
    (
        "int f() { return 3; } int main() { return f(); }",
        "returns 3",
    ),
    (
        "void f(int a, int *p, int b, int c) { } int main() { int x; f(5, 0, 1 / 0, x); return 0; }",
        "undefined Division",
    ),
    (
        "void f(int a, int *p, int b, int c) { } int main() { int x; f(5, 0, x, 1 / 0); return 0; }",
        "undefined Uninit",
    ),
    (
        "int f(int a, int *p) { return a * 10 + (p == 0); } int main() { int x = f(5, 0); return x; }",
        "returns 51",
    ),
];

/// Parameters, recursion, and calls without a value.
#[test]
fn functions(rt: HostRuntime) -> Result<(), Fail> {
    assert_eq!(rt; other_run(rt.alloc(), &FUNCTIONS)?.as_str(), "");
    Ok(())
}

const STRUCTS: [(&str, &str); 12] = [
    (
        "struct p { int x; int y; }; void move(struct p *q, int d) { q->x += d; (*q).y -= d; } int main() { struct p a[2]; a[0].x = 1; a[0].y = 2; a[1].x = 3; a[1].y = 4; move(&a[1], 10); move(a, 5); printf(\"%d\", a[0].x); printf(\"%d\", a->y); printf(\"%d\", a[1].x); printf(\"%d\", (a + 1)->y); return 0; }",
        "6 -3 13 -6 returns 0",
    ),
    (
        "struct n { int v; struct n *next; }; int main() { struct n a; struct n b; a.v = 1; a.next = &b; b.v = 2; b.next = 0; int s = 0; struct n *p; for (p = &a; p != 0; p = p->next) s = s * 10 + p->v; return s; }",
        "returns 12",
    ),
    (
        "struct n { int v; struct n *next; }; int main() { struct n a; struct n b; a.next = &b; b.next = &a; a.next->next->next->v = 5; b.next = 0; return b.v * a.next->next->v; }",
        "undefined NullAccess",
    ),
    (
        "struct n { int v; struct n *next; }; int main() { struct n a; a.v = 1; a.next = &a; a.next->next->v++; return a.v; }",
        "returns 2",
    ),
    (
        "struct s { int a; int b; }; int main() { struct s v; v.a = 1; return v.b; }",
        "undefined Uninit",
    ),
    (
        "struct s { int a[2]; int b; }; int main() { struct s v; v.b = 4; v.a[1] = 3; int *p = v.a; p[0] = 2; return v.a[0] * 100 + p[1] * 10 + v.b; }",
        "returns 234",
    ),
    (
        "struct s { int a[2]; int b; }; int main() { struct s v; v.a[2] = 1; return 0; }",
        "undefined OutOfBounds",
    ),
    (
        "struct s { int a; int b; }; struct t { struct s x; struct s y[2]; }; int main() { struct t v; struct s *p = &v.y[1]; p->b = 8; v.x.a = 1; v.y[1].a = 2; (p - 1)->a = v.x.a + v.y[1].b; return v.y->a * 10 + p->a; }",
        "returns 92",
    ),
    (
        "struct e { }; struct s { struct e x; int a; }; int main() { struct s v[2]; v[1].a = 3; v[0].a = 4; return v[1].a; }",
        "returns 3",
    ),
    (
        "struct s { int m; int n[2]; }; int main() { struct s v; v.n[1] = 9; printf(\"%d\", v.n[1]); return v.n[0]; }",
        "9 undefined Uninit",
    ),
    (
        "struct s { int m; int n[2]; }; int main() { struct s v; v.m = 4; v.n[0] = 5; v.n[1] = 9; printf(\"%d\", **&v.n); printf(\"%d\", (*&v.n)[1]); return (*&v.n)[2]; }",
        "5 9 undefined OutOfBounds",
    ),
    (
        "struct s { int m; int n[2]; }; int main() { struct s v; printf(\"%d\", &v.n + 1 != &v.n); return &v.n + 2 != &v.n; }",
        "1 undefined OutOfBounds",
    ),
];

/// Members, also through pointers.
#[test]
fn structs(rt: HostRuntime) -> Result<(), Fail> {
    assert_eq!(rt; other_run(rt.alloc(), &STRUCTS)?.as_str(), "");
    Ok(())
}

const CONTROL: [(&str, &str); 18] = [
    (
        "int main() { for (int i = 0; i < 5; i++) { if (i % 2) continue; printf(\"%d\", i); } return 0; }",
        "0 2 4 returns 0",
    ),
    (
        "int main() { int i = 0; while (i < 5) { i++; if (i % 2) continue; printf(\"%d\", i); } return i; }",
        "2 4 returns 5",
    ),
    (
        "int main() { int i = 0; do { i++; if (i == 2) continue; printf(\"%d\", i); } while (i < 4); return 0; }",
        "1 3 4 returns 0",
    ),
    (
        "int main() { do printf(\"%d\", 9); while (0); return 0; }",
        "9 returns 0",
    ),
    (
        "int main() { do { if (1) continue; return 1; } while (0); return 2; }",
        "returns 2",
    ),
    (
        "int main() { for (int i = 0; i < 3; i++) { for (int j = 0; j < 3; j++) { if (j == 1) break; printf(\"%d\", i * 10 + j); } } return 0; }",
        "0 10 20 returns 0",
    ),
    (
        "int main() { int x = 0; for (; ; ) { if (x == 3) return x; x++; } }",
        "returns 3",
    ),
    (
        "int main() { int x = 1; for (x = 5; x > 2; ) x -= 2; return x; }",
        "returns 1",
    ),
    (
        "int main() { if (0) if (1) printf(\"%d\", 1); else printf(\"%d\", 2); printf(\"%d\", 3); return 0; }",
        "3 returns 0",
    ),
    (
        "int main() { int i = 7; for (int i = 0; i < 2; i++) { int i = 5; i++; } return i; }",
        "returns 7",
    ),
    (
        "int main() { int i; for (i = 0; i < 2; i++) { int t; if (i == 0) t = 5; else printf(\"%d\", t); } return 0; }",
        "undefined Uninit",
    ),
    (
        "int main() { int x = 1; { int x = 2; { int x = 3; printf(\"%d\", x); } printf(\"%d\", x); } return x; }",
        "3 2 returns 1",
    ),
    ("int main() { while (1) ; return 0; }", "out of steps"),
    (
        "int main() { for (int i = 0; ; ) { printf(\"%d\", 1); while (1) ; } }",
        "1 out of steps",
    ),
    (
        "int main() { int x; int y; scanf(\"%d\", &x); scanf(\"%d\", &y); printf(\"%d\", x - y); scanf(\"%d\", &x); return x; }",
        "5 returns 7",
    ),
    (
        "int main() { int x; while (1) { scanf(\"%d\", &x); printf(\"%d\", x); } }",
        "3 -2 7 undefined NoInput",
    ),
    (
        "int main() { int x; if (x) return 1; return 0; }",
        "undefined Uninit",
    ),
    (
        "int main() { int x; scanf(\"%d\", &x); printf(\"%d\", x); while (x) x--; for (; ; ) scanf(\"%d\", &x); }",
        "3 undefined NoInput",
    ),
];

/// Loops, jumps, blocks and conditions.
#[test]
fn control(rt: HostRuntime) -> Result<(), Fail> {
    assert_eq!(rt; other_run(rt.alloc(), &CONTROL)?.as_str(), "");
    Ok(())
}

const GLOBALS: [(&str, &str); 9] = [
    (
        "int g = 5, a[3] = {1, 2}, *p = 0, z; int main() { return g * 100 + a[1] * 10 + a[2] + z + (p == 0); }",
        "returns 521",
    ),
    (
        "int g = 1; void f() { g = g * 3; } int main() { f(); f(); int g = 4; f(); return g; }",
        "returns 4",
    ),
    (
        "int g = 1; void f() { g = g * 3; } int main() { f(); f(); return g; }",
        "returns 9",
    ),
    ("int *p; int main() { return *p; }", "undefined NullAccess"),
    (
        "struct s { int a; struct s *p; int b[2]; }; struct s x; struct s *q; int main() { if (x.p == 0 && q == 0) return x.a + x.b[1]; return 1; }",
        "returns 0",
    ),
    (
        "int a[] = {3, -4}; int *p; int main() { p = a; p[0] += *(p + 1); return a[0]; }",
        "returns -1",
    ),
    (
        "struct s { int a[2000000000]; }; struct s *p; int main() { return p == 0; }",
        "returns 1",
    ),
    (
        "struct e { int a; struct e *p; }; struct w { struct e x[2]; int y; }; struct z { struct w v[2000000000]; }; struct w g[2]; struct z *q; int main() { if (g[1].x[1].p == 0 && q == 0) return g[0].x[1].a + g[1].y; return 1; }",
        "returns 0",
    ),
    (
        "int g = -2147483647; int h = 0x7fffffff; int main() { return g + h; }",
        "returns 0",
    ),
];

/// What globals begin with. A struct that only pointers name takes no memory.
#[test]
fn globals(rt: HostRuntime) -> Result<(), Fail> {
    assert_eq!(rt; other_run(rt.alloc(), &GLOBALS)?.as_str(), "");
    Ok(())
}

const STEPS: [(&str, u32, &str); 7] = [
    (
        "int main() { int a[3] = {5, 6}; int x = a[0] - a[1] + a[2]; return x; }",
        1,
        "out of steps",
    ),
    (
        "int main() { int a[3] = {5, 6}; int x = a[0] - a[1] + a[2]; return x; }",
        2,
        "out of steps",
    ),
    (
        "int main() { int a[3] = {5, 6}; int x = a[0] - a[1] + a[2]; return x; }",
        3,
        "returns -1",
    ),
    (
        "int main() { int x; if (x) return 1; return 0; }",
        1,
        "out of steps",
    ),
    (
        "int main() { int x; if (x) return 1; return 0; }",
        2,
        "undefined Uninit",
    ),
    (
        "int main() { int x; x = 5; x *= 5; x--; return x; }",
        4,
        "out of steps",
    ),
    (
        "int main() { int x; x = 5; x *= 5; x--; return x; }",
        5,
        "returns 24",
    ),
];

// As `other_run`, within the steps of each row.
fn other_end(alloc: Global, rows: &[(&str, u32, &str)]) -> Result<String, Fail> {
    for (source, steps, wanted) in rows {
        let found = ran(alloc, source, *steps)?;
        if found.as_str() != *wanted {
            return Ok(format!(in alloc; "{source}: {found}")?);
        }
    }
    Ok(String::new(alloc))
}

/// Declarations, conditions, assignments and returns take a step each, also where they are undefined.
#[test]
fn steps(rt: HostRuntime) -> Result<(), Fail> {
    assert_eq!(rt; other_end(rt.alloc(), &STEPS)?.as_str(), "");
    Ok(())
}

const COUNTS: [(&str, &[u64]); 5] = [
    ("int main() { int *p = 0; *p = 1 / 0; return 0; }", &[0, 0]),
    (
        "int main() { int x; x = 5; x *= 5; x--; return x; }",
        &[1, 1, 1],
    ),
    (
        "int main() { int i = 0; while (i < 2) i++; return i; }",
        &[1, 3, 1],
    ),
    (
        "int main() { int x; if (x) return 1; return 0; }",
        &[1, 0, 0],
    ),
    (
        "void f(int a, int *p, int b, int c) { } int main() { int x; f(5, 0, 1 / 0, x); return 0; }",
        &[1, 1, 0, 0],
    ),
];

// Whether both evaluate the slots of a source this often, without inputs.
fn counted(alloc: Global, source: &str, wanted: &[u64]) -> Result<bool, Fail> {
    let program = program_of(alloc, source)?;
    let flow = lower(alloc, &program)?;
    let flat = run(alloc, &flow, &[], 1000)?;
    let plain = ax_interp_plain::run(alloc, &program, &[], 1000)?;
    Ok(flat.counts.as_slice() == wanted && plain.counts.as_slice() == wanted)
}

// The first of these sources whose slots are evaluated otherwise than the numbers beside it say; nothing where there is none.
fn other_counts(alloc: Global, rows: &[(&str, &[u64])]) -> Result<String, Fail> {
    for (source, wanted) in rows {
        if !counted(alloc, source, wanted)? {
            return Ok(format!(in alloc; "{source}")?);
        }
    }
    Ok(String::new(alloc))
}

/// How often the slots of a source are evaluated, in their order.
#[test]
fn counts(rt: HostRuntime) -> Result<(), Fail> {
    assert_eq!(rt; other_counts(rt.alloc(), &COUNTS)?.as_str(), "");
    Ok(())
}
