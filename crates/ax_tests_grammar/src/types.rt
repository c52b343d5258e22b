use crate::texts::{repeated, tokens_of};
use ax_names_declared::{
    Known, Signature, add_struct, agrees, filled, object_type, signature_of, struct_type,
};
use ax_names_types::{TypeFault, TypeKind};
use ax_parse::read_tree;
use ax_parse_expressions::ReadFault;
use ax_parse_grammar::tree::{Part, Size, Tree};
use ax_prog::{Span, Ty};
use sqlite_items::{Boxed, Items};
use std::alloc::{AllocError, Global};

fn tree_of(alloc: Global, text: &str) -> Result<Tree, ReadFault> {
    match tokens_of(alloc, text) {
        Ok(tokens) => read_tree(alloc, tokens.as_slice()),
        Err(_) => Err(ReadFault::Memory),
    }
}

// The fault of a struct, a head, or the first declarator of a declaration.
fn fault_of(alloc: Global, part: &Part) -> Result<Option<TypeFault>, AllocError> {
    match part {
        Part::Struct(_, name, list) => Ok(struct_type(alloc, &[], name, list.as_slice())?.err()),
        Part::Function(_, head, _) => Ok(signature_of(alloc, &[], head, true)?.err()),
        Part::Prototype(_, head) => Ok(signature_of(alloc, &[], head, false)?.err()),
        Part::Decl(decl) => match decl.items.get(0) {
            None => Ok(None),
            Some(item) => {
                let it = &item.declarator;
                let sizes = it.sizes.as_slice();
                Ok(object_type(alloc, &[], &[], &decl.base, it.stars, sizes, it.span)?.err())
            }
        },
    }
}

// The fault of the first part of a text, and where it starts.
fn fault(alloc: Global, text: &str) -> Result<Option<(TypeKind, u32)>, ReadFault> {
    let tree = tree_of(alloc, text)?;
    match tree.parts.get(0) {
        None => Err(ReadFault::Memory),
        Some(part) => match fault_of(alloc, part)? {
            None => Ok(None),
            Some(fault) => Ok(Some((fault.kind, fault.span.from))),
        },
    }
}

#[test]
fn faults(rt: HostRuntime) -> Result<(), ReadFault> {
    let rows = [
        // 4,096 cells, and more
        ("int a[64][64];", None),
        ("int **a[64][64];", None),
        ("int a[64][65];", Some((TypeKind::TooLarge, 4))),
        ("int a[3][0];", Some((TypeKind::WrongType, 4))),
        // a struct may point at itself, and not hold itself, also not in an array
        ("struct s { struct s *a[2]; };", None),
        (
            "struct s { struct s a; };",
            Some((TypeKind::RecursiveStruct, 20)),
        ),
        (
            "struct s { struct s a[2]; };",
            Some((TypeKind::RecursiveStruct, 20)),
        ),
        (
            "struct s { struct t *a; };",
            Some((TypeKind::UnknownName, 18)),
        ),
        // a definition names its parameters
        ("int f(int a[]) { }", None),
        ("int f(int []);", None),
        ("int f(int []) { }", Some((TypeKind::WrongType, 6))),
    ];
    for (text, wanted) in &rows {
        assert!(rt; fault(rt.alloc(), text)? == *wanted, "{text}");
    }
    Ok(())
}

// 6,000 dimensions, in an ordinary stack.
#[test]
fn dimensions(rt: HostRuntime) -> Result<(), ReadFault> {
    let text = repeated(rt.alloc(), "int a", "[1]", 6000, ";")?;
    assert!(rt; fault(rt.alloc(), &text)? == None);
    Ok(())
}

// How many structs of a text are defined, and the cells of the first.
fn defined(alloc: Global, text: &str) -> Result<(usize, Option<u32>), ReadFault> {
    let tree = tree_of(alloc, text)?;
    let mut structs = Items::new(alloc);
    let mut counts = Items::new(alloc);
    for part in tree.parts.as_slice() {
        if let Part::Struct(_, name, list) = part
            && let Ok(it) = struct_type(alloc, structs.as_slice(), name, list.as_slice())?
        {
            add_struct(&mut structs, &mut counts, it)?;
        }
    }
    Ok((structs.len(), counts.get(0).copied()))
}

// So many structs, each of which holds the one before it.
fn chain(alloc: Global, depth: u32) -> Result<String, AllocError> {
    let mut text = String::from_str(alloc, "struct s0 { int a; };")?;
    for n in 1..depth {
        let before = n - 1;
        let next = format!(in alloc; "struct s{n} {{ struct s{before} a; }};")?;
        text.push_str(&next)?;
    }
    Ok(text)
}

// Structs nested 1,500 deep, in an ordinary stack.
#[test]
fn structs(rt: HostRuntime) -> Result<(), ReadFault> {
    let alloc = rt.alloc();
    assert!(rt; defined(alloc, "struct s { struct s *a[2]; };")? == (1, Some(2)));
    assert!(rt; defined(alloc, &chain(alloc, 1500)?)? == (1500, Some(1)));
    Ok(())
}

// A brace list sizes an array.
#[test]
fn sizes(rt: HostRuntime) -> Result<(), AllocError> {
    let span = Span { from: 5, to: 5 };
    let filled = filled(rt.alloc(), 3, &[Size { span, count: None }])?;
    let count = Some(3);
    assert!(rt; filled.as_slice() == [Size { span, count }].as_slice());
    Ok(())
}

fn of_one(alloc: Global, param: Ty) -> Result<Signature, AllocError> {
    let mut params = Items::new(alloc);
    params.push(param)?;
    Ok(Signature {
        result: Some(Ty::Int),
        params,
    })
}

// Whether a definition of `f` with this parameter agrees with the prototype `int f(int);`.
fn fits(alloc: Global, param: Ty) -> Result<bool, AllocError> {
    let known = Known {
        name: Items::from_slice(alloc, b"f")?,
        signature: of_one(alloc, Ty::Int)?,
        defined: false,
    };
    let signature = of_one(alloc, param)?;
    Ok(agrees(&[known], b"f", &signature, true))
}

#[test]
fn agreement(rt: HostRuntime) -> Result<(), AllocError> {
    let alloc = rt.alloc();
    assert!(rt; fits(alloc, Ty::Int)?);
    let array = Ty::Array(Boxed::new(alloc, Ty::Int)?, 3);
    assert!(rt; !fits(alloc, array)?);
    Ok(())
}
