//! Writing trees at the end of a text.
ghost use Rattle.std.specs.Prelude.{◌≡◌, ◌++◌, OnOk};
ghost use Rattle.std.specs.Fmt.{signed_decimal};
ghost use Rattle.ax_print.specs.Text.{in_parens, is_read, is_leaf, tree_text, operand_text, atom_operand, atom_text};

use crate::leaves::{Site, atom_bytes, bin_sign, un_sign};
use ax_prog::{Atom, Expr};
use itoa::Buffer;
use std::alloc::AllocError;

pub fn append(out: &mut Vec<u8>, more: &[u8]) -> Result<(), AllocError>
    ensures { OnOk result (out.new.items ≡ out.old.items ++ more.now) }
{
    out.extend_from_slice(more)?;
    Ok(())
}

fn is_read_atom(atom: &Atom) -> bool
    ensures { result ≡ is_read atom.now }
{
    match atom {
        Atom::Read(_) => true,
        Atom::Same(_, _) | Atom::Differ(_, _) => false,
    }
}

/// Whether the tree is a number or the value of a place.
#[tactic(auto, using(crate::proofs::Layers::layers))]
fn is_leaf_tree(tree: &Expr) -> bool
    ensures { result ≡ is_leaf tree.now }
{
    match tree {
        Expr::Num(_) => true,
        Expr::Atom(a) => is_read_atom(a.get()),
        Expr::Un(_, _) => false,
        Expr::Bin(_, _, _) => false,
        Expr::Cond(_, _, _) => false,
    }
}

fn write_number(n: i32, out: &mut Vec<u8>) -> Result<(), AllocError>
    ensures { OnOk result (out.new.items ≡ out.old.items ++ signed_decimal n) }
{
    let mut buffer = Buffer::new();
    append(out, buffer.format(n).as_bytes())
}

fn write_atom(atom: &Atom, site: &Site, out: &mut Vec<u8>) -> Result<(), AllocError>
    ensures { OnOk result (out.new.items ≡ out.old.items ++ atom_operand (atom_text site.now.source.now site.now.program.now site.now.atoms.now) atom.now) }
{
    if is_read_atom(atom) {
        append(out, atom_bytes(site, atom))
    } else {
        append(out, b"(")?;
        append(out, atom_bytes(site, atom))?;
        append(out, b")")
    }
}

/// Appends the tree's text as an operand's.
#[tactic(auto, using(crate::proofs::Layers::layers))]
fn write_operand(tree: &Expr, site: &Site, out: &mut Vec<u8>) -> Result<(), AllocError>
    ensures { OnOk result (out.new.items ≡ out.old.items ++ operand_text (atom_text site.now.source.now site.now.program.now site.now.atoms.now) tree.now) }
{
    match tree {
        Expr::Num(n) => write_number(*n, out),
        Expr::Atom(a) => write_atom(a.get(), site, out),
        Expr::Un(op, a) => {
            append(out, b"(")?;
            append(out, un_sign(*op).as_bytes())?;
            write_operand(a.get(), site, out)?;
            append(out, b")")?;
            Ok(())
        }
        Expr::Bin(op, a, b) => {
            append(out, b"(")?;
            write_operand(a.get(), site, out)?;
            append(out, b" ")?;
            append(out, bin_sign(*op).as_bytes())?;
            append(out, b" ")?;
            write_operand(b.get(), site, out)?;
            append(out, b")")?;
            Ok(())
        }
        Expr::Cond(f, a, b) => {
            append(out, b"(")?;
            write_operand(f.get(), site, out)?;
            append(out, b" ? ")?;
            write_operand(a.get(), site, out)?;
            append(out, b" : ")?;
            write_operand(b.get(), site, out)?;
            append(out, b")")?;
            Ok(())
        }
    }
}

/// Appends the tree's text in parentheses.
pub fn write_whole(tree: &Expr, site: &Site, out: &mut Vec<u8>) -> Result<(), AllocError>
    ensures { OnOk result (out.new.items ≡ out.old.items ++ in_parens (tree_text (atom_text site.now.source.now site.now.program.now site.now.atoms.now) tree.now)) }
{
    if is_leaf_tree(tree) {
        append(out, b"(")?;
        write_operand(tree, site, out)?;
        append(out, b")")?;
        Ok(())
    } else {
        write_operand(tree, site, out)?;
        Ok(())
    }
}
