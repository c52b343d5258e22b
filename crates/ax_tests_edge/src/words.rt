use ax_words::read_words;
use std::alloc::{AllocError, Global};

// What the words of a line are read as.
fn read(alloc: Global, line: &str) -> Result<String, AllocError> {
    let mut words = Vec::new(alloc);
    for word in line.split_whitespace() {
        words.push(String::from_str(alloc, word)?)?;
    }
    format!(in alloc; "{:?}", read_words(alloc, &words))
}

// Lines, with the order that they give, or why they give none.
const ROWS: [(&str, &str); 32] = [
    ("", "Err(NoCommand)"),
    ("mend s t", "Err(UnknownCommand)"),
    ("repair s t o", "Err(Refused)"),
    ("repair s t o c d", "Err(Refused)"),
    ("repair --help", "Err(Refused)"),
    ("repair s t o c --steps 1 --steps 2", "Err(Refused)"),
    (
        "repair s t o c",
        "Ok(Repair(RepairOrder { source: \"s\", tests: \"t\", out: \"o\", cert: \"c\", \
         choice: Top { count: 1, formula: \"jaccard\" }, \
         sets: Sets { cmp: true, logic: true, arith: true, mul: false, bits: false, vars: true, consts: true, guard: false }, \
         bounds: Bounds { steps: 10000, evals: 16, grow: 1 }, paths: 256, budget: 100000 }))",
    ),
    (
        "repair s t o c --pick 1 --with cmp",
        "Ok(Repair(RepairOrder { source: \"s\", tests: \"t\", out: \"o\", cert: \"c\", \
         choice: Pick(Items { items: [1] }), \
         sets: Sets { cmp: true, logic: false, arith: false, mul: false, bits: false, vars: false, consts: false, guard: false }, \
         bounds: Bounds { steps: 10000, evals: 16, grow: 1 }, paths: 256, budget: 100000 }))",
    ),
    (
        "repair s t o c --pick 3,5,20000 --grow 0 --evals 64",
        "Ok(Repair(RepairOrder { source: \"s\", tests: \"t\", out: \"o\", cert: \"c\", \
         choice: Pick(Items { items: [3, 5, 20000] }), \
         sets: Sets { cmp: true, logic: true, arith: true, mul: false, bits: false, vars: true, consts: true, guard: false }, \
         bounds: Bounds { steps: 10000, evals: 64, grow: 0 }, paths: 256, budget: 100000 }))",
    ),
    (
        "repair s t o c --with guard,vars",
        "Ok(Repair(RepairOrder { source: \"s\", tests: \"t\", out: \"o\", cert: \"c\", \
         choice: Top { count: 1, formula: \"jaccard\" }, \
         sets: Sets { cmp: false, logic: false, arith: false, mul: false, bits: false, vars: true, consts: false, guard: true }, \
         bounds: Bounds { steps: 10000, evals: 16, grow: 1 }, paths: 256, budget: 100000 }))",
    ),
    ("repair s t o c --top 5", "Err(OutOfRange(\"--top\"))"),
    ("repair s t o c --top x", "Err(BadNumber(\"--top\"))"),
    (
        "repair s t o c --top 5 --budget x",
        "Err(BadNumber(\"--budget\"))",
    ),
    (
        "repair s t o c --steps 12345678901",
        "Err(BadNumber(\"--steps\"))",
    ),
    (
        "repair s t o c --steps 1000001",
        "Err(OutOfRange(\"--steps\"))",
    ),
    ("repair s t o c --pick 2,1", "Err(BadList(\"--pick\"))"),
    (
        "repair s t o c --pick 1,2,3,4,5",
        "Err(BadList(\"--pick\"))",
    ),
    ("repair s t o c --pick 20001", "Err(BadList(\"--pick\"))"),
    ("repair s t o c --with cmp,cmp", "Err(BadList(\"--with\"))"),
    ("repair s t o c --with cmp,", "Err(BadList(\"--with\"))"),
    ("repair s t o c --pick 1 --top 1", "Err(Both)"),
    ("repair s t s c", "Err(SameName)"),
    (
        "check s t o c",
        "Ok(Check { source: \"s\", tests: \"t\", patched: \"o\", cert: \"c\" })",
    ),
    ("run s t --steps 0", "Err(OutOfRange(\"--steps\"))"),
    (
        "run s t",
        "Ok(Run { source: \"s\", tests: \"t\", steps: 10000 })",
    ),
    (
        "rank s t --formula ochiai",
        "Ok(Rank { source: \"s\", tests: \"t\", formula: \"ochiai\", steps: 10000 })",
    ),
    ("gen 1000000", "Ok(Gen { n: 1000000 })"),
    (
        "prove c p",
        "Ok(Prove { cnf: \"c\", proof: \"p\", budget: 100000 })",
    ),
    (
        "prove c p --budget 1",
        "Ok(Prove { cnf: \"c\", proof: \"p\", budget: 1 })",
    ),
    ("prove c", "Err(Refused)"),
    ("prove c c", "Err(SameName)"),
    ("prove c c --budget 0", "Err(OutOfRange(\"--budget\"))"),
];

#[test]
fn words_are_read_or_refused(rt: HostRuntime) -> Result<(), AllocError> {
    for (line, want) in &ROWS {
        let found = read(rt.alloc(), line)?;
        assert!(rt; found.as_str() == *want, "at {line}: {found}");
    }
    Ok(())
}
