use crate::texts::{numbered, repeated};
use ax_lex::LexFault;
use ax_parse_expressions::tokens::are_at;
use ax_parse_expressions::{args, postfix, unary, whole, whole_until};
use ax_parse_grammar::terminals::Terminal;
use ax_parse_grammar::tree::Expr;
use std::alloc::{AllocError, Global};

// Names as the places where they stand; of arguments, how many they are.
fn outline(out: &mut String, tree: &Expr) -> Result<(), AllocError> {
    match tree {
        Expr::Name(at, _) => write!(out, "n{}", at.from),
        Expr::Number(_, n) => write!(out, "{n}"),
        Expr::Unary(_, op, a) => {
            write!(out, "{op:?}(")?;
            outline(out, a.get())?;
            out.push_str(")")
        }
        Expr::Binary(at, op, a, b) => {
            write!(out, "{op:?}[{}-{}](", at.from, at.to)?;
            outline(out, a.get())?;
            out.push_str(" ")?;
            outline(out, b.get())?;
            out.push_str(")")
        }
        Expr::Cond(_, c, a, b) => {
            out.push_str("if(")?;
            outline(out, c.get())?;
            out.push_str(" ")?;
            outline(out, a.get())?;
            out.push_str(" ")?;
            outline(out, b.get())?;
            out.push_str(")")
        }
        Expr::Index(_, a, i) => {
            outline(out, a.get())?;
            out.push_str("[")?;
            outline(out, i.get())?;
            out.push_str("]")
        }
        Expr::Member(_, a, name) => {
            outline(out, a.get())?;
            write!(out, ".n{}", name.span.from)
        }
        Expr::Arrow(_, a, name) => {
            outline(out, a.get())?;
            write!(out, "->n{}", name.span.from)
        }
        Expr::Call(_, f, xs) => {
            outline(out, f.get())?;
            write!(out, "({})", xs.len())
        }
    }
}

// The outline of what is read at the start and how many tokens it takes, or the fault.
fn read(alloc: Global, text: &str) -> Result<String, LexFault> {
    let tokens = numbered(alloc, text)?;
    let mut out = String::new(alloc);
    match whole(alloc, tokens.as_slice(), 0) {
        Err(fault) => write!(out, "{fault:?}")?,
        Ok((tree, end)) => {
            outline(&mut out, &tree)?;
            write!(out, " {end}")?
        }
    }
    Ok(out)
}

#[test]
fn expressions(rt: HostRuntime) -> Result<(), LexFault> {
    let rows = [
        // precedence and association (C11 6.5.5 to 6.5.15)
        ("a & b == c", "BitAnd[0-5](n0 Eq[2-5](n2 n4)) 5"),
        ("a - b - c", "Sub[0-5](Sub[0-3](n0 n2) n4) 5"),
        ("a || b && c", "Or[0-5](n0 And[2-5](n2 n4)) 5"),
        ("a && b || c", "Or[0-5](And[0-3](n0 n2) n4) 5"),
        ("a * b + c", "Add[0-5](Mul[0-3](n0 n2) n4) 5"),
        ("( a + b ) * c", "Mul[0-7](Add[1-4](n1 n3) n6) 7"),
        ("a ? b : c ? d : e", "if(n0 n2 if(n4 n6 n8)) 9"),
        ("a ? b ? c : d : e", "if(n0 if(n2 n4 n6) n8) 9"),
        ("a || b ? c : d", "if(Or[0-3](n0 n2) n4 n6) 7"),
        // operands
        ("- * p -> x [ 1 ]", "Neg(Deref(n2->n4[1])) 8"),
        ("! a < b", "Lt[0-4](Not(n1) n3) 4"),
        ("f ( a , b ) . x", "n0(2).n7 8"),
        ("f ( )", "n0(0) 3"),
        ("( ( 7 ) )", "7 5"),
        // what follows is no part of it
        ("a ++ + b", "n0 1"),
        ("a : b", "n0 1"),
        // faults
        ("+ a", "Syntax(0)"),
        ("( a", "Syntax(2)"),
        ("f ( a , )", "Syntax(4)"),
        ("f ( a b )", "Syntax(3)"),
        ("p -> 1", "Syntax(2)"),
        ("p . [", "Syntax(2)"),
        ("a [ 1 )", "Syntax(3)"),
        ("a ? b", "Syntax(3)"),
        ("a + * )", "Syntax(3)"),
    ];
    for (text, wanted) in &rows {
        assert!(rt; read(rt.alloc(), text)?.as_str() == *wanted, "{text}");
    }
    Ok(())
}

// How many tokens each reader takes from the second token on, and what it tells besides.
fn ends(alloc: Global, text: &str) -> Result<String, LexFault> {
    let tokens = numbered(alloc, text)?;
    let all = tokens.as_slice();
    if all.is_empty() {
        return Err(LexFault::Memory);
    }
    let one = whole_until(alloc, all, 1, Terminal::Comma).map(|f| f.1);
    let two = unary(alloc, all, 1).map(|f| f.1);
    let three = postfix(alloc, all, 1).map(|f| (f.0.1, f.1));
    let four = args(alloc, all, 1).map(|f| (f.0.len(), f.1));
    let opens = are_at(all, 1, &[Terminal::OpenRound, Terminal::OpenRound]);
    Ok(format!(in alloc; "{one:?} {two:?} {three:?} {four:?} {opens}")?)
}

#[test]
fn readers(rt: HostRuntime) -> Result<(), LexFault> {
    let rows = [
        (
            "x f ( 1 ) , - a )",
            "Ok(6) Ok(5) Ok((true, 5)) Ok((2, 9)) false",
        ),
        (
            "x ( ( f ( 1 ) ) ) + 2 ,",
            "Ok(12) Ok(9) Ok((false, 9)) Err(Syntax(12)) true",
        ),
        (
            "x - f ( )",
            "Err(Syntax(5)) Ok(5) Err(Syntax(1)) Err(Syntax(5)) false",
        ),
    ];
    for (text, wanted) in &rows {
        assert!(rt; ends(rt.alloc(), text)?.as_str() == *wanted, "{text}");
    }
    Ok(())
}

// How many tokens are read of `before` so often, `a`, and `behind` so often.
fn taken(alloc: Global, before: &str, behind: &str, times: u32) -> Result<usize, LexFault> {
    let front = repeated(alloc, "", before, times, "a")?;
    let text = repeated(alloc, &front, behind, times, "")?;
    let tokens = numbered(alloc, &text)?;
    match whole(alloc, tokens.as_slice(), 0) {
        Ok((_, end)) => Ok(end),
        Err(_) => Ok(0),
    }
}

// A chain, a sum, and parentheses.
#[test]
fn long_expressions(rt: HostRuntime) -> Result<(), LexFault> {
    let rows = [
        ("", " -> b", 9900, 19801),
        ("", " - b", 9900, 19801),
        ("( ", " )", 150, 301),
    ];
    for (before, behind, times, wanted) in &rows {
        assert!(rt;
            taken(rt.alloc(), before, behind, *times)? == *wanted,
            "{behind}"
        );
    }
    Ok(())
}
