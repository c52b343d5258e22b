ghost use Rattle.std.specs.Prelude.{codes};

use ax_outside::{Endless, MemShelf, Shelf};
use ax_rank::{Ranker, Score, SeenRun};
use ax_top::angelix;
use sqlite_items::Items;
use std::alloc::{AllocError, Global};
use std::test::Fail;

// One condition and three numbers, so four candidates. Its runs have seven steps.
const SOURCE: &str =
    "int main() { int x; int y; scanf(\"%d\", &x); scanf(\"%d\", &y); if (x < y) printf(\"%d\", 1); else printf(\"%d\", 0); return 0; }";

const TESTS: &str = "[{\"in\":[1,2],\"out\":[1]}]";

// A ranker of the name `jaccard` that gives all places one score, so that they stay in source order.
#[derive(Drop)]
struct Named {
    alloc: Global,
    seen: Items<SeenRun>,
}

impl Ranker for Named {
    ghost runs = { λ s. s.seen };

    ghost title = { λ _. codes "jaccard" };

    ghost formula = { λ _. λ _. λ _. (0, 1) };

    fn name(&self) -> &str {
        "jaccard"
    }

    fn see(&mut self, covered: &[bool], passed: bool) -> Result<(), AllocError> {
        let covered = Items::from_slice(self.alloc, covered)?;
        self.seen.push(SeenRun { covered, passed })
    }

    fn score(&self, _place: usize) -> Score {
        Score { num: 0, den: 1 }
    }
}

fn words_of(alloc: Global, line: &str) -> Result<Vec<String>, AllocError> {
    let mut words = Vec::new(alloc);
    for word in line.split_whitespace() {
        words.push(String::from_str(alloc, word)?)?;
    }
    Ok(words)
}

// The status of a line of words, with one ranker.
fn status_of_line<S: Shelf>(alloc: Global, line: &str, shelf: &mut S) -> Result<u8, AllocError> {
    let seen = Items::new(alloc);
    let mut rankers: Vec<Box<dyn Ranker>> = Vec::new(alloc);
    rankers.push(Box::new(alloc, Named { alloc, seen })?)?;
    let words = words_of(alloc, line)?;
    Ok(angelix(alloc, words, shelf, rankers))
}

// A line of words, what the source and the tests hold, the status, and the report. Under `m` nothing is kept.
type Row = (&'static str, &'static str, &'static str, u8, &'static str);

fn is_answered(alloc: Global, row: Row) -> Result<bool, AllocError> {
    let (line, source, tests, want, report) = row;
    let mut shelf = MemShelf::new(alloc);
    shelf.keep("s", source.as_bytes())?;
    shelf.keep("t", tests.as_bytes())?;
    shelf.keep("k", b"")?;
    shelf.room(8, 4_096)?;
    let status = status_of_line(alloc, line, &mut shelf)?;
    let nothing_put = shelf.bytes("o").is_none() && shelf.bytes("c").is_none();
    Ok(status == want && shelf.printed() == report.as_bytes() && nothing_put)
}

const WORDS: [Row; 11] = [
    ("", SOURCE, TESTS, 2, "words refused: no command\n"),
    (
        "mend s t",
        SOURCE,
        TESTS,
        2,
        "words refused: unknown command\n",
    ),
    (
        "repair s t o",
        SOURCE,
        TESTS,
        2,
        "words refused: arguments\n",
    ),
    (
        "repair m n o c --top 5",
        SOURCE,
        TESTS,
        2,
        "words refused: out of range --top\n",
    ),
    (
        "repair s t o c --top x",
        SOURCE,
        TESTS,
        2,
        "words refused: bad number --top\n",
    ),
    (
        "repair s t o c --with cmp,all",
        SOURCE,
        TESTS,
        2,
        "words refused: bad list --with\n",
    ),
    (
        "repair s t o c --pick 1 --top 1",
        SOURCE,
        TESTS,
        2,
        "words refused: pick beside top or formula\n",
    ),
    (
        "repair s t s c",
        SOURCE,
        TESTS,
        2,
        "words refused: same name\n",
    ),
    ("gen 0", SOURCE, TESTS, 2, "words refused: out of range N\n"),
    (
        "repair m n o c --formula none",
        SOURCE,
        TESTS,
        2,
        "no ranker\n",
    ),
    ("rank m n --formula none", SOURCE, TESTS, 2, "no ranker\n"),
];

#[test]
fn words_are_refused(rt: HostRuntime) -> Result<(), Fail> {
    for row in WORDS {
        assert!(rt; is_answered(rt.alloc(), row)?, "at {}", row.0);
    }
    Ok(())
}

const SOURCES: [Row; 11] = [
    ("repair m t o c", SOURCE, TESTS, 6, "read failed: m\n"),
    ("rank m t", SOURCE, TESTS, 6, "read failed: m\n"),
    (
        "repair s t o c",
        "int main() { return -2147483648; }",
        TESTS,
        3,
        "source refused: number too large at 21\n",
    ),
    (
        "check s t p c",
        "a @",
        "{",
        3,
        "source refused: bad byte at 2\n",
    ),
    (
        "run s m",
        "int main() { /* return 0; }",
        TESTS,
        3,
        "source refused: open comment at 13\n",
    ),
    (
        "repair s m o c",
        "int main() { int x; int *p; p = &x; *p++; return 0; }",
        TESTS,
        3,
        "source refused: syntax at 38\n",
    ),
    (
        "rank s m",
        "int f(int x) { return x; }\nint main() { int y; y = f(1) + 1; return y; }",
        TESTS,
        3,
        "source refused: call inside an expression at 51\n",
    ),
    (
        "repair s m o c",
        "int main() { return y; }",
        TESTS,
        3,
        "source refused: unknown name at 20\n",
    ),
    (
        "run s m",
        "int main() { int x; int x; return 0; }",
        TESTS,
        3,
        "source refused: redeclared at 24\n",
    ),
    ("run s m", "", TESTS, 3, "source refused: no main at 0\n"),
    (
        "run s m",
        "int main() { return 1; }",
        TESTS,
        6,
        "read failed: m\n",
    ),
];

#[test]
fn sources_are_judged(rt: HostRuntime) -> Result<(), Fail> {
    for row in SOURCES {
        assert!(rt; is_answered(rt.alloc(), row)?, "at {}", row.0);
    }
    Ok(())
}

const SUITES: [Row; 10] = [
    ("repair s m o c", SOURCE, TESTS, 6, "read failed: m\n"),
    (
        "repair s t o c --pick 9",
        SOURCE,
        "{",
        4,
        "suite refused: not json\n",
    ),
    (
        "check s t p m",
        SOURCE,
        "[1]",
        4,
        "suite refused: bad shape in test 1\n",
    ),
    (
        "run s t",
        SOURCE,
        "[{\"in\":[2147483648]}]",
        4,
        "suite refused: out of int in test 1\n",
    ),
    ("check s t p m", SOURCE, TESTS, 6, "read failed: m\n"),
    ("check s t p k", SOURCE, TESTS, 11, "not built\n"),
    (
        "repair s t o c --pick 9",
        SOURCE,
        TESTS,
        2,
        "no candidate 9 of 4\n",
    ),
    (
        "repair s t o c --pick 4,5,6",
        SOURCE,
        TESTS,
        2,
        "no candidate 5 of 4\n",
    ),
    ("repair s t o c", SOURCE, TESTS, 11, "not built\n"),
    ("gen 1", SOURCE, TESTS, 11, "not built\n"),
];

#[test]
fn suites_and_numbers_are_judged(rt: HostRuntime) -> Result<(), Fail> {
    for row in SUITES {
        assert!(rt; is_answered(rt.alloc(), row)?, "at {}", row.0);
    }
    Ok(())
}

// Ways in which an order isn't built: another set, two numbers, four binary operators, a unary operator, and `?:`.
const UNBUILT: [Row; 8] = [
    (
        "repair s t o c --top 2 --with cmp",
        SOURCE,
        TESTS,
        11,
        "not built\n",
    ),
    ("repair s t o c --pick 1", SOURCE, TESTS, 11, "not built\n"),
    (
        "repair s t o c --pick 1 --with cmp,consts",
        SOURCE,
        TESTS,
        11,
        "not built\n",
    ),
    (
        "repair s t o c --pick 1,2 --with cmp",
        SOURCE,
        TESTS,
        11,
        "not built\n",
    ),
    (
        "repair s t o c --pick 1 --with cmp",
        "int main() { if ((1 + (2 + 3)) < (4 + 5)) printf(\"%d\", 1); return 0; }",
        "[]",
        11,
        "not built\n",
    ),
    (
        "repair s t o c --pick 1 --with cmp",
        "int main() { if (!(1 < 2)) printf(\"%d\", 1); return 0; }",
        "[]",
        11,
        "not built\n",
    ),
    (
        "repair s t o c --pick 1 --with cmp",
        "int main() { if (1 < -2) printf(\"%d\", 1); return 0; }",
        "[]",
        11,
        "not built\n",
    ),
    (
        "repair s t o c --pick 1 --with cmp",
        "int main() { if (1?1?1?1?1?1?1?1?1?1?1:0:0:0:0:0:0:0:0:0:0) printf(\"%d\", 1); return 0; }",
        "[]",
        11,
        "not built\n",
    ),
];

#[test]
fn some_orders_are_not_built(rt: HostRuntime) -> Result<(), Fail> {
    for row in UNBUILT {
        assert!(rt; is_answered(rt.alloc(), row)?, "at {}", row.0);
    }
    Ok(())
}

const REPORTS: [Row; 5] = [
    ("run s t", SOURCE, "[]", 0, "0 of 0 pass\n"),
    (
        "run s t --steps 7",
        SOURCE,
        TESTS,
        0,
        "test 1: passes\n1 of 1 pass\n",
    ),
    (
        "run s t --steps 6",
        SOURCE,
        TESTS,
        1,
        "test 1: fails, out of steps\n0 of 1 pass\n",
    ),
    (
        "run s t",
        SOURCE,
        FOUR,
        1,
        "test 1: passes\ntest 2: fails, wrong output\ntest 3: passes\ntest 4: passes\n3 of 4 pass\n",
    ),
    (
        "rank s t",
        SOURCE,
        TESTS,
        0,
        "expression 1: 0/1\nexpression 2: 0/1\nexpression 3: 0/1\nexpression 4: 0/1\n",
    ),
];

#[test]
fn runs_and_ranks_are_reported(rt: HostRuntime) -> Result<(), Fail> {
    for row in REPORTS {
        assert!(rt; is_answered(rt.alloc(), row)?, "at {}", row.0);
    }
    Ok(())
}

const PICK_ONE: &str = "repair s t o c --pick 1 --with cmp";

// P1 with that condition.
fn with_condition(alloc: Global, condition: &str) -> Result<String, AllocError> {
    format!(in alloc;
        "int main() {{ int x; int y; scanf(\"%d\", &x); scanf(\"%d\", &y); if ({condition}) printf(\"%d\", 1); else printf(\"%d\", 0); return 0; }}"
    )
}

// An order, the tests, the condition that OUT has in place of P1's, the status, and the report.
type Mended = (
    &'static str,
    &'static str,
    Option<&'static str>,
    u8,
    &'static str,
);

fn is_out(alloc: Global, shelf: &MemShelf, condition: Option<&str>) -> Result<bool, AllocError> {
    match (condition, shelf.bytes("o")) {
        (None, None) => Ok(true),
        (Some(condition), Some(bytes)) => {
            let wanted = with_condition(alloc, condition)?;
            Ok(bytes == wanted.as_bytes())
        }
        _ => Ok(false),
    }
}

fn is_mended(alloc: Global, row: Mended) -> Result<bool, AllocError> {
    let (line, tests, condition, want, report) = row;
    let mut shelf = MemShelf::new(alloc);
    shelf.keep("s", SOURCE.as_bytes())?;
    shelf.keep("t", tests.as_bytes())?;
    shelf.room(8, 4_096)?;
    let status = status_of_line(alloc, line, &mut shelf)?;
    let others_stay = shelf.bytes("s") == Some(SOURCE.as_bytes()) && shelf.bytes("c").is_none();
    let out = is_out(alloc, &shelf, condition)?;
    Ok(status == want && shelf.printed() == report.as_bytes() && out && others_stay)
}

const FOUR: &str =
    "[{\"in\":[1,2],\"out\":[1]},{\"in\":[2,2],\"out\":[1]},{\"in\":[3,2],\"out\":[0]},{\"in\":[5,7],\"out\":[1]}]";

const MENDED: [Mended; 10] = [
    (
        "repair s t o c --with cmp",
        FOUR,
        Some("(x <= y)"),
        0,
        "repaired, cost 1\nexpression 1: (x <= y)\n",
    ),
    (
        PICK_ONE,
        FOUR,
        Some("(x <= y)"),
        0,
        "repaired, cost 1\nexpression 1: (x <= y)\n",
    ),
    (
        PICK_ONE,
        "[{\"in\":[1,2],\"out\":[1]},{\"in\":[3,2],\"out\":[0]}]",
        Some("x < y"),
        0,
        "repaired, cost 0\n",
    ),
    (PICK_ONE, "[]", Some("x < y"), 0, "repaired, cost 0\n"),
    (
        PICK_ONE,
        "[{\"in\":[1,2],\"out\":[1]},{\"in\":[1,2],\"out\":[0]}]",
        None,
        1,
        "no repair\n",
    ),
    (
        PICK_ONE,
        "[{\"in\":[1,2],\"out\":[1]},{\"in\":[2,2],\"out\":[0]},{\"in\":[3,2],\"out\":[1]}]",
        Some("(x != y)"),
        0,
        "repaired, cost 1\nexpression 1: (x != y)\n",
    ),
    (
        "repair s t o c --pick 2 --with cmp",
        TESTS,
        Some("x < y"),
        0,
        "repaired, cost 0\n",
    ),
    (
        "repair s t o c --pick 2 --with cmp",
        FOUR,
        None,
        1,
        "no repair\n",
    ),
    (
        "repair s t o c --pick 1 --with cmp --steps 7",
        TESTS,
        Some("x < y"),
        0,
        "repaired, cost 0\n",
    ),
    (
        "repair s t o c --pick 1 --with cmp --steps 6",
        TESTS,
        None,
        1,
        "no repair\n",
    ),
];

#[test]
fn least_repairs_are_written(rt: HostRuntime) -> Result<(), Fail> {
    for row in MENDED {
        assert!(rt; is_mended(rt.alloc(), row)?, "at {}", row.0);
    }
    Ok(())
}

#[test]
fn one_of_two_least_repairs_is_written(rt: HostRuntime) -> Result<(), Fail> {
    let alloc = rt.alloc();
    let mut shelf = MemShelf::new(alloc);
    shelf.keep("s", SOURCE.as_bytes())?;
    shelf.keep(
        "t",
        b"[{\"in\":[2,2],\"out\":[1]},{\"in\":[3,2],\"out\":[0]}]",
    )?;
    shelf.room(8, 4_096)?;
    assert_eq!(rt; status_of_line(alloc, PICK_ONE, &mut shelf)?, 0);
    let equal = is_out(alloc, &shelf, Some("(x == y)"))?;
    let at_most = is_out(alloc, &shelf, Some("(x <= y)"))?;
    assert!(rt; equal || at_most);
    Ok(())
}

const COMMENTED: &str = "#include <stdio.h>
/* a < b */
int main() { int x; int y; scanf(\"%d\", &x); scanf(\"%d\", &y); if (x /* left */ < y) printf(\"%d\", 1); else printf(\"%d\", 0); return 0; }";

const COMMENTED_MENDED: &str = "#include <stdio.h>
/* a < b */
int main() { int x; int y; scanf(\"%d\", &x); scanf(\"%d\", &y); if ((x <= y)) printf(\"%d\", 1); else printf(\"%d\", 0); return 0; }";

#[test]
fn only_the_expression_is_replaced(rt: HostRuntime) -> Result<(), Fail> {
    let alloc = rt.alloc();
    let mut shelf = MemShelf::new(alloc);
    shelf.keep("s", COMMENTED.as_bytes())?;
    shelf.keep("t", FOUR.as_bytes())?;
    shelf.room(8, 4_096)?;
    assert_eq!(rt; status_of_line(alloc, PICK_ONE, &mut shelf)?, 0);
    assert!(rt; shelf.bytes("o") == Some(COMMENTED_MENDED.as_bytes()));
    assert!(rt; shelf.printed() == b"repaired, cost 1\nexpression 1: (x <= y)\n".as_slice());
    Ok(())
}

// Of the calls of the order the first four read, the fifth puts OUT, and the sixth prints. The tests, the call that
// fails, how many bytes it leaves, what OUT holds then, and what is printed.
type Torn = (&'static str, u64, usize, Option<&'static str>, &'static str);

const TORN: [Torn; 4] = [
    ("[]", 5, 0, Some(""), ""),
    (FOUR, 5, 10, Some("int main()"), ""),
    ("[]", 6, 8, Some(SOURCE), "repaired"),
    (
        "[{\"in\":[1,2],\"out\":[1]},{\"in\":[1,2],\"out\":[0]}]",
        5,
        3,
        None,
        "no ",
    ),
];

fn is_torn(alloc: Global, row: Torn) -> Result<bool, AllocError> {
    let (tests, call, kept, out, printed) = row;
    let mut shelf = MemShelf::new(alloc);
    shelf.keep("s", SOURCE.as_bytes())?;
    shelf.keep("t", tests.as_bytes())?;
    shelf.room(8, 4_096)?;
    shelf.tear(call, kept)?;
    let status = status_of_line(alloc, PICK_ONE, &mut shelf)?;
    let holds = match (out, shelf.bytes("o")) {
        (None, None) => true,
        (Some(text), Some(bytes)) => bytes == text.as_bytes(),
        _ => false,
    };
    Ok(status == 7 && holds && shelf.printed() == printed.as_bytes())
}

#[test]
fn puts_and_prints_fail(rt: HostRuntime) -> Result<(), Fail> {
    for row in TORN {
        assert!(rt; is_torn(rt.alloc(), row)?, "at call {} of {}", row.1, row.0);
    }
    Ok(())
}

#[test]
fn a_put_fails_and_leaves_nothing(rt: HostRuntime) -> Result<(), Fail> {
    let alloc = rt.alloc();
    let mut shelf = MemShelf::new(alloc);
    shelf.keep("s", SOURCE.as_bytes())?;
    shelf.keep("t", FOUR.as_bytes())?;
    shelf.room(8, 4_096)?;
    shelf.fail(5)?;
    assert_eq!(rt; status_of_line(alloc, PICK_ONE, &mut shelf)?, 7);
    assert!(rt; shelf.bytes("o").is_none());
    assert!(rt; shelf.printed().is_empty());
    Ok(())
}

#[test]
fn the_second_read_of_the_suite_fails(rt: HostRuntime) -> Result<(), Fail> {
    let alloc = rt.alloc();
    let mut shelf = MemShelf::new(alloc);
    shelf.keep("s", SOURCE.as_bytes())?;
    shelf.keep("t", TESTS.as_bytes())?;
    shelf.room(8, 4_096)?;
    shelf.fail(4)?;
    let status = status_of_line(alloc, "repair s t o c", &mut shelf)?;
    assert_eq!(rt; status, 6);
    assert_eq!(rt; shelf.printed(), b"read failed: t\n".as_slice());
    assert!(rt; shelf.bytes("o").is_none());
    assert!(rt; shelf.bytes("c").is_none());
    Ok(())
}

// The source, followed by spaces up to that length.
fn padded(alloc: Global, length: usize) -> Result<Vec<u8>, AllocError> {
    let mut bytes = Vec::new(alloc);
    bytes.extend_from_slice(SOURCE.as_bytes())?;
    let spaces = vec![in alloc; b' '; length.saturating_sub(SOURCE.len())]?;
    bytes.extend_from_slice(spaces.as_slice())?;
    Ok(bytes)
}

#[test]
fn a_source_has_a_limit(rt: HostRuntime) -> Result<(), Fail> {
    let alloc = rt.alloc();
    for (length, want, report) in [
        (1_048_576, 2, "no candidate 5 of 4\n"),
        (1_048_577, 5, "file too long: s\n"),
    ] {
        let mut shelf = MemShelf::new(alloc);
        shelf.keep("s", padded(alloc, length)?.as_slice())?;
        shelf.keep("t", TESTS.as_bytes())?;
        shelf.room(1, 80)?;
        let status = status_of_line(alloc, "repair s t o c --pick 5", &mut shelf)?;
        assert!(rt; status == want, "at {length}: {status}");
        assert!(rt; shelf.printed() == report.as_bytes(), "at {length}");
    }
    Ok(())
}

#[test]
fn a_suite_that_never_ends_is_too_long(rt: HostRuntime) -> Result<(), Fail> {
    let alloc = rt.alloc();
    let mut inner = MemShelf::new(alloc);
    inner.keep("s", SOURCE.as_bytes())?;
    inner.room(1, 80)?;
    let name = String::from_str(alloc, "t")?;
    let mut shelf = Endless { inner, name };
    let status = status_of_line(alloc, "run s t", &mut shelf)?;
    assert_eq!(rt; status, 5);
    assert_eq!(rt; shelf.inner.printed(), b"file too long: t\n".as_slice());
    Ok(())
}

// `int main() { return ` and 250 times `(`.
#[test]
fn nesting_is_judged(rt: HostRuntime) -> Result<(), Fail> {
    let alloc = rt.alloc();
    let mut source = String::from_str(alloc, "int main() { return ")?;
    for _ in 0..250 {
        source.push_str("(")?;
    }
    let mut shelf = MemShelf::new(alloc);
    shelf.keep("s", source.as_bytes())?;
    shelf.room(1, 80)?;
    let status = status_of_line(alloc, "run s t", &mut shelf)?;
    assert_eq!(rt; status, 3);
    assert_eq!(rt;
        shelf.printed(),
        b"source refused: too deep at 219\n".as_slice()
    );
    Ok(())
}

// A line of words, what CNF holds, the status, the report, and whether PROOF is put.
type Proved = (&'static str, &'static str, u8, &'static str, bool);

fn is_decided(alloc: Global, row: Proved) -> Result<bool, AllocError> {
    let (line, cnf, want, report, put) = row;
    let mut shelf = MemShelf::new(alloc);
    shelf.keep("f", cnf.as_bytes())?;
    shelf.room(8, 4_096)?;
    let status = status_of_line(alloc, line, &mut shelf)?;
    let is_put = shelf.bytes("p").is_some();
    Ok(status == want && shelf.printed() == report.as_bytes() && is_put == put)
}

const PROVED: [Proved; 5] = [
    (
        "prove f p",
        "p cnf 2 4\n1 2 0\n-1 2 0\n1 -2 0\n-1 -2 0\n",
        0,
        "s UNSATISFIABLE\n",
        true,
    ),
    (
        "prove f p",
        "p cnf 1 1\n1 0\n",
        1,
        "s SATISFIABLE\nv 1 0\n",
        false,
    ),
    (
        "prove f p",
        "p cnf 1 1\n2 0\n",
        13,
        "cnf refused at 10\n",
        false,
    ),
    (
        "prove f f",
        "p cnf 1 1\n1 0\n",
        2,
        "words refused: same name\n",
        false,
    ),
    ("prove g p", "", 6, "read failed: g\n", false),
];

#[test]
fn clauses_are_decided(rt: HostRuntime) -> Result<(), Fail> {
    for row in PROVED {
        assert!(rt; is_decided(rt.alloc(), row)?);
    }
    Ok(())
}

const FOUR_PIGEONS: &str = "p cnf 12 22
1 2 3 0 4 5 6 0 7 8 9 0 10 11 12 0
-1 -4 0 -1 -7 0 -1 -10 0 -4 -7 0 -4 -10 0 -7 -10 0
-2 -5 0 -2 -8 0 -2 -11 0 -5 -8 0 -5 -11 0 -8 -11 0
-3 -6 0 -3 -9 0 -3 -12 0 -6 -9 0 -6 -12 0 -9 -12 0
";

// A line of words, the call that fails, how many bytes it leaves, the status, and what is printed. Of the calls the first
// two read CNF, the third puts PROOF, and the fourth prints.
type Unprinted = (&'static str, u64, usize, u8, &'static str);

const UNPRINTED: [Unprinted; 4] = [
    ("prove f p --budget 1", 4, 6, 9, "budget"),
    ("prove f p --budget 1", 4, 0, 9, ""),
    ("prove f p --budget 1", 3, 0, 7, ""),
    ("prove f p", 4, 6, 7, "s UNSA"),
];

fn is_unprinted(alloc: Global, row: Unprinted) -> Result<bool, AllocError> {
    let (line, call, kept, want, printed) = row;
    let mut shelf = MemShelf::new(alloc);
    shelf.keep("f", FOUR_PIGEONS.as_bytes())?;
    shelf.room(8, 4_096)?;
    shelf.tear(call, kept)?;
    let status = status_of_line(alloc, line, &mut shelf)?;
    let is_put = shelf.bytes("p").is_some();
    Ok(status == want && is_put && shelf.printed() == printed.as_bytes())
}

#[test]
fn lines_that_are_put_stay_where_the_print_fails(rt: HostRuntime) -> Result<(), Fail> {
    for row in UNPRINTED {
        assert!(rt;
            is_unprinted(rt.alloc(), row)?,
            "{} at call {}",
            row.0,
            row.1
        );
    }
    Ok(())
}
