use ax_front::read_source;
use ax_print::{expr_text, splice};
use ax_print_back::{is_writable, write_changes};
use ax_prog::copy::copy_expr;
use ax_prog::same::same_expr;
use ax_prog::{Atom, Bin, Expr, Lval, SlotId, Un, VarId};
use sqlite_items::{Boxed, Items};
use std::alloc::{AllocError, Global};

const P1: &str =
    "int main() { int x; int y; scanf(\"%d\", &x); scanf(\"%d\", &y); if (x < y) printf(\"%d\", 1); else printf(\"%d\", 0); return 0; }";

fn variable(alloc: Global, at: u32) -> Result<Boxed<Expr>, AllocError> {
    let atom = Boxed::new(alloc, Atom::Read(Lval::Var(VarId(at))))?;
    Boxed::new(alloc, Expr::Atom(atom))
}

// `x OP y`, where these are the first two variables
fn binary(alloc: Global, op: Bin) -> Result<Expr, AllocError> {
    let left = variable(alloc, 0)?;
    Ok(Expr::Bin(op, left, variable(alloc, 1)?))
}

// whether the text's first slot has this tree
fn first_is(alloc: Global, text: &[u8], tree: &Expr) -> bool {
    if text.len() > 1000 {
        return false;
    }
    match read_source(alloc, text) {
        Err(_) => false,
        Ok(program) => match program.slots.get(0) {
            Some(slot) => same_expr(&slot.expr, tree),
            None => false,
        },
    }
}

// the source with a tree in place of its first slot
fn first_written(alloc: Global, source: &[u8], tree: &Expr) -> Result<Items<u8>, AllocError> {
    if source.len() > 1000 {
        return Err(AllocError);
    }
    let Ok(program) = read_source(alloc, source) else {
        return Err(AllocError);
    };
    let text = expr_text(alloc, source, &program, SlotId(0), tree)?;
    match program.slots.get(0) {
        Some(slot) if slot.span.from <= slot.span.to && slot.span.to as usize <= source.len() => {
            splice(alloc, source, &[(slot.span, text)])
        }
        _ => Err(AllocError),
    }
}

#[test]
fn a_written_condition_reads_back(rt: HostRuntime) -> Result<(), AllocError> {
    let alloc = rt.alloc();
    let tree = binary(alloc, Bin::Le)?;
    let text = first_written(alloc, P1.as_bytes(), &tree)?;
    let wanted =
        "int main() { int x; int y; scanf(\"%d\", &x); scanf(\"%d\", &y); if ((x <= y)) printf(\"%d\", 1); else printf(\"%d\", 0); return 0; }";
    assert!(rt; text.as_slice() == wanted.as_bytes());
    assert!(rt; first_is(alloc, text.as_slice(), &tree));
    Ok(())
}

// the source with 7 and 8 in place of the first and the third slot
fn numbers_written(alloc: Global, source: &[u8]) -> Result<Items<u8>, AllocError> {
    if source.len() > 1000 {
        return Err(AllocError);
    }
    match read_source(alloc, source) {
        Ok(program) if program.slots.len() >= 4 => {
            let changes = [(SlotId(0), Expr::Num(7)), (SlotId(2), Expr::Num(8))];
            write_changes(alloc, source, &program, &changes)
        }
        _ => Err(AllocError),
    }
}

#[test]
fn two_numbers_are_written(rt: HostRuntime) -> Result<(), AllocError> {
    let alloc = rt.alloc();
    let text = numbers_written(alloc, P1.as_bytes())?;
    let wanted =
        "int main() { int x; int y; scanf(\"%d\", &x); scanf(\"%d\", &y); if ((7)) printf(\"%d\", 1); else printf(\"%d\", (8)); return 0; }";
    assert!(rt; text.as_slice() == wanted.as_bytes());
    assert!(rt; first_is(alloc, text.as_slice(), &Expr::Num(7)));
    Ok(())
}

// The tree of the first slot, in its place: atoms that aren't variables are written as they stand in the source.
fn again(alloc: Global, source: &str) -> Result<Items<u8>, AllocError> {
    if source.len() > 1000 {
        return Err(AllocError);
    }
    match read_source(alloc, source.as_bytes()) {
        Ok(program) => match program.slots.get(0) {
            Some(slot) => {
                let tree = copy_expr(alloc, &slot.expr)?;
                first_written(alloc, source.as_bytes(), &tree)
            }
            None => Err(AllocError),
        },
        Err(_) => Err(AllocError),
    }
}

#[test]
fn atoms_are_written_as_they_stand(rt: HostRuntime) -> Result<(), AllocError> {
    let rows = [
        (
            "int main() { int a[3]; int *p; p = a; if (!(p == a + 1) && *p < a[ 0 ]) return 1; return 0; }",
            "int main() { int a[3]; int *p; p = a; if (((!(p == a + 1)) && (*p < a[ 0 ]))) return 1; return 0; }",
        ),
        (
            "struct s { int n; }; int f(struct s *p, struct s *q) { return -p->n+( *q ) . n; } int main() { return 0; }",
            "struct s { int n; }; int f(struct s *p, struct s *q) { return ((-p->n) + ( *q ) . n); } int main() { return 0; }",
        ),
    ];
    for (source, wanted) in &rows {
        let text = again(rt.alloc(), source)?;
        assert!(rt; text.as_slice() == wanted.as_bytes(), "{source}");
    }
    Ok(())
}

#[test]
fn trees_that_can_be_written(rt: HostRuntime) -> Result<(), AllocError> {
    let alloc = rt.alloc();
    let rows = [(0, true), (2147483647, true), (-1, false)];
    for (n, wanted) in rows {
        assert!(rt; is_writable(&Expr::Num(n)) == wanted, "{n}");
        let number = Boxed::new(alloc, Expr::Num(n))?;
        assert!(rt; is_writable(&Expr::Un(Un::Neg, number)) == wanted, "- {n}");
    }
    assert!(rt; is_writable(&binary(alloc, Bin::Shl)?));
    Ok(())
}
