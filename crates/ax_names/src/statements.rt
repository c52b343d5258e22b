//! Statements (C11 6.8).
//!
//! The items of a block are turned by a loop, and what nests by recursion.
ghost use Rattle.std.specs.Prelude.{◌≡◌, true, false, OnOk};
ghost use Rattle.ax_names_declared.specs.Cells.{measured};
ghost use Rattle.ax_names_rules.specs.StatementWalk.{if_of as if_by_rules, while_of as while_by_rules, do_of as do_by_rules, for_of as for_by_rules, block_of as block_by_rules, item_by as item_by_rules, stmt_of as stmt_by_rules, items_of as items_by_rules};
ghost use Rattle.ax_names_rules.specs.States.{depth as depth_of};
ghost use Rattle.ax_names_given.specs.Made.{IsMade};
ghost use Rattle.ax_names.specs.Answers.{IsGrown, prefixed, returned, printed};

use crate::declarations::vars_of;
use crate::simples::{header, in_loop, misplaced, read_of, return_of, simple_of};
use ax_names_given::states::leave;
use ax_names_given::{Stop, slot_of};
use ax_names_rules::State;
use ax_parse_grammar::tree::{Expr, Opening, Simple, Stmt};
use ax_prog::{Span, Ty};
use sqlite_items::{Boxed, Items};
use std::alloc::Global;

/// What statements of a function stand in: the functions that the file defines, by their names in order, the numbers of cells
/// of the structs, and the type of the function's value.
#[derive(Drop)]
pub struct Setting<'a> {
    pub alloc: Global,
    pub defs: &'a [Items<u8>],
    pub cells: &'a [u32],
    pub returns: &'a Option<Ty>,
}

fn give_back(
    set: &Setting,
    at: Span,
    a: &Option<Expr>,
    st: &mut State,
) -> Result<ax_prog::Stmt, Stop>
    ensures { IsMade (returned set.now.defs.now set.now.returns.now at a.now st.old) result st.new }
{
    let value = return_of(set.alloc, set.defs, set.returns, at, a, st)?;
    Ok(ax_prog::Stmt::Return(value))
}

fn print(set: &Setting, a: &Expr, st: &mut State) -> Result<ax_prog::Stmt, Stop>
    ensures { IsMade (printed a.now st.old) result st.new }
{
    let id = slot_of(set.alloc, st, a)?;
    Ok(ax_prog::Stmt::Print(id))
}

/// What a statement becomes, or the first rule that it breaks.
#[cycle(statements)]
#[tactic(auto, using(crate::proofs::Layers::statements))]
fn stmt(set: &Setting, inside: bool, tree: &Stmt, st: &mut State) -> Result<ax_prog::Stmt, Stop>
    requires measured { set.now.cells.now ≡ measured st.old.structs }
    ensures made { IsMade (stmt_by_rules set.now.defs.now set.now.returns.now inside tree.now st.old) result st.new }
{
    match tree {
        Stmt::Empty(_) => Ok(ax_prog::Stmt::Empty),
        Stmt::Block(_, items) => block(set, inside, items.as_slice(), st),
        Stmt::Decl(d) => Err(Stop::Fault(misplaced(d.span))),
        Stmt::Simple(_, x) => simple_of(set.alloc, set.defs, x, st),
        Stmt::If(_, c, a) => lone_if(set, inside, a.get(), c, st),
        Stmt::IfElse(_, c, a, b) => {
            let id = slot_of(set.alloc, st, c)?;
            let body = boxed(set, inside, a.get(), st)?;
            let other = boxed(set, inside, b.get(), st)?;
            Ok(ax_prog::Stmt::If(id, body, Some(other)))
        }
        Stmt::While(_, c, a) => while_of(set, a.get(), c, st),
        Stmt::Do(_, a, c) => do_of(set, a.get(), c, st),
        Stmt::For(_, o, c, x, a) => for_of(set, o, c, x, a.get(), st),
        Stmt::Break(at) => in_loop(inside, *at, ax_prog::Stmt::Break),
        Stmt::Continue(at) => in_loop(inside, *at, ax_prog::Stmt::Continue),
        Stmt::Return(at, a) => give_back(set, *at, a, st),
        Stmt::Read(_, a) => read_of(set.alloc, a, st),
        Stmt::Print(_, _, a) => print(set, a, st),
    }
}

// A statement, in a box.
#[cycle(statements)]
fn boxed(
    set: &Setting,
    inside: bool,
    tree: &Stmt,
    st: &mut State,
) -> Result<Boxed<ax_prog::Stmt>, Stop>
    requires measured { set.now.cells.now ≡ measured st.old.structs }
    ensures made { IsMade (stmt_by_rules set.now.defs.now set.now.returns.now inside tree.now st.old) result st.new }
    ensures structs { OnOk result (st.new.structs ≡ st.old.structs) }
{
    let made = stmt(set, inside, tree, st)?;
    Ok(Boxed::new(set.alloc, made)?)
}

#[cycle(statements)]
fn lone_if(
    set: &Setting,
    inside: bool,
    a: &Stmt,
    c: &Expr,
    st: &mut State,
) -> Result<ax_prog::Stmt, Stop>
    requires measured { set.now.cells.now ≡ measured st.old.structs }
    ensures made { IsMade (if_by_rules c.now (stmt_by_rules set.now.defs.now set.now.returns.now inside a.now) st.old) result st.new }
{
    let id = slot_of(set.alloc, st, c)?;
    let body = boxed(set, inside, a, st)?;
    Ok(ax_prog::Stmt::If(id, body, None))
}

#[cycle(statements)]
fn while_of(set: &Setting, a: &Stmt, c: &Expr, st: &mut State) -> Result<ax_prog::Stmt, Stop>
    requires measured { set.now.cells.now ≡ measured st.old.structs }
    ensures made { IsMade (while_by_rules c.now (stmt_by_rules set.now.defs.now set.now.returns.now true a.now) st.old) result st.new }
{
    let id = slot_of(set.alloc, st, c)?;
    let body = boxed(set, true, a, st)?;
    Ok(ax_prog::Stmt::While(id, body))
}

#[cycle(statements)]
fn do_of(set: &Setting, a: &Stmt, c: &Expr, st: &mut State) -> Result<ax_prog::Stmt, Stop>
    requires measured { set.now.cells.now ≡ measured st.old.structs }
    ensures made { IsMade (do_by_rules c.now (stmt_by_rules set.now.defs.now set.now.returns.now true a.now) st.old) result st.new }
{
    let body = boxed(set, true, a, st)?;
    let id = slot_of(set.alloc, st, c)?;
    Ok(ax_prog::Stmt::Do(body, id))
}

// The names that the head of a `for` declares end with it (C11 6.8.5p5).
#[cycle(statements)]
fn for_of(
    set: &Setting,
    o: &Opening,
    c: &Option<Expr>,
    x: &Option<Simple>,
    a: &Stmt,
    st: &mut State,
) -> Result<ax_prog::Stmt, Stop>
    requires measured { set.now.cells.now ≡ measured st.old.structs }
    ensures made { IsMade (for_by_rules set.now.defs.now o.now c.now x.now (stmt_by_rules set.now.defs.now set.now.returns.now true a.now) st.old) result st.new }
{
    let depth = st.names.len();
    let (opening, (test, step)) = header(set.alloc, set.defs, set.cells, o, c, x, st)?;
    let body = boxed(set, true, a, st)?;
    leave(st, depth);
    Ok(ax_prog::Stmt::For(opening, test, step, body))
}

// A block ends the scopes of the names that it declares (C11 6.2.1p4).
#[cycle(statements)]
fn block(set: &Setting, inside: bool, items: &[Stmt], st: &mut State) -> Result<ax_prog::Stmt, Stop>
    requires measured { set.now.cells.now ≡ measured st.old.structs }
    ensures made { IsMade (block_by_rules (items_by_rules set.now.defs.now set.now.returns.now inside (depth_of st.old) items.now) st.old) result st.new }
{
    let depth = st.names.len();
    let made = all_of(set, inside, depth, items, st)?;
    leave(st, depth);
    Ok(ax_prog::Stmt::Block(made))
}

// What an item of a block becomes goes behind what the items before it became. A declaration becomes a statement for each
// declarator.
#[cycle(statements)]
fn item(
    set: &Setting,
    inside: bool,
    floor: usize,
    tree: &Stmt,
    st: &mut State,
    all: &mut Items<ax_prog::Stmt>,
) -> Result<(), Stop>
    requires measured { set.now.cells.now ≡ measured st.old.structs }
    ensures made { IsGrown (prefixed all.old (item_by_rules set.now.defs.now floor tree.now (stmt_by_rules set.now.defs.now set.now.returns.now inside tree.now) st.old)) result all.new st.new }
{
    match tree {
        Stmt::Decl(d) => {
            let made = vars_of(
                set.alloc,
                set.defs,
                set.cells,
                floor,
                &d.base,
                d.items.as_slice(),
                st,
            )?;
            all.append(made)?;
        }
        _ => {
            let made = stmt(set, inside, tree, st)?;
            all.push(made)?;
        }
    }
    Ok(())
}

// The items of a block, in the scope that begins behind so many names.
#[cycle(statements)]
fn all_of(
    set: &Setting,
    inside: bool,
    floor: usize,
    items: &[Stmt],
    st: &mut State,
) -> Result<Items<ax_prog::Stmt>, Stop>
    requires measured { set.now.cells.now ≡ measured st.old.structs }
    ensures made { IsMade (items_by_rules set.now.defs.now set.now.returns.now inside floor items.now st.old) result st.new }
{
    let mut all = Items::new(set.alloc);
    for tree in items {
        item(set, inside, floor, tree, st, &mut all)?;
    }
    Ok(all)
}

/// What the items of a function's body become, in the scope that begins behind so many names, or the first rule that they
/// break (C11 6.8). `defs` are the names of the functions that the file defines, in order, `cells` the numbers of cells of the
/// structs, and `returns` is the type of the function's value.
pub fn items_of(
    alloc: Global,
    defs: &[Items<u8>],
    cells: &[u32],
    returns: &Option<Ty>,
    floor: usize,
    items: &[Stmt],
    st: &mut State,
) -> Result<Items<ax_prog::Stmt>, Stop>
    requires measured { cells.now ≡ measured st.old.structs }
    ensures made { IsMade (items_by_rules defs.now returns.now false floor items.now st.old) result st.new }
    ensures structs { OnOk result (st.new.structs ≡ st.old.structs) }
{
    let set = Setting {
        alloc,
        defs,
        cells,
        returns,
    };
    all_of(&set, false, floor, items, st)
}
