//! Heads of functions (C11 6.7.6.3, 6.9.1): what they say here, and what a source has said behind them.
ghost use Rattle.std.specs.Prelude.{◌≡◌, not, slice_get, IfOk, OnOk};
ghost use Rattle.ax_names_types.specs.declared.TypeKind.TheVariants.{Redeclared};
ghost use Rattle.ax_names_types.specs.Faults.{fault};
ghost use Rattle.ax_names_types.specs.Scopes.{same_text, innermost as innermost_of};
ghost use Rattle.ax_names_types.specs.Verdicts.{both};
ghost use Rattle.ax_names_declared.specs.Firsts.{closed};
ghost use Rattle.ax_names_rules.specs.States.{with_head};
ghost use Rattle.ax_names_rules.specs.ValueWalk.{entity_of};
ghost use Rattle.ax_names_rules.specs.FileWalk.{same_result as alike, same_head as same_heads, says_the_same as says_what_stands, introduced_by, is_undefined as no_function, once, name_for, named_by, signature_at as signature_by_rules, head_in as head_by_rules};
ghost use Rattle.ax_names_given.specs.Made.{IsFound, IsMade};
ghost use Rattle.ax_names.specs.Answers.{IsDone};

use ax_names_declared::{same_types, signature_of};
use ax_names_given::Stop;
use ax_names_given::states::number;
use ax_names_rules::{Signature, State};
use ax_names_types::faults::sooner;
use ax_names_types::scopes::innermost;
use ax_names_types::types::same_ty;
use ax_names_types::{Entity, Entry, TypeFault, TypeKind};
use ax_parse_grammar::tree::{Head, Name};
use ax_prog::copy::{copy_result, copy_ty};
use ax_prog::{Fun, Span, Ty};
use sqlite_items::{Items, at};
use std::alloc::{AllocError, Global};

fn redeclared(at: Span) -> TypeFault
    ensures { result ≡ fault Redeclared at }
{
    TypeFault {
        kind: TypeKind::Redeclared,
        span: at,
    }
}

// ---- the name

fn is_other(f: &Fun, name: &[u8]) -> bool
    ensures { result ≡ not (same_text f.now.name name.now) }
{
    f.name.as_slice() != name
}

fn is_undefined(st: &State, name: &[u8]) -> bool
    ensures { result ≡ no_function st.now name.now }
{
    st.funs.as_slice().iter().all(|f| is_other(f, name))
}

// The fault of a second definition (C11 6.9p5).
fn second_fault(st: &State, defined: bool, name: &Name) -> Option<TypeFault>
    ensures { once defined st.now name.now ≡ closed result name.now.text }
{
    if defined && !is_undefined(st, name.text.as_slice()) {
        Some(redeclared(name.span))
    } else {
        None
    }
}

// The fault of a function's name, which is no variable's.
fn name_fault(st: &State, defined: bool, name: &Name) -> Option<TypeFault>
    ensures { name_for (entity_of (innermost_of name.now.text st.now.names)) defined st.now name.now ≡ closed result name.now.text }
{
    match innermost(name.text.as_slice(), st.names.as_slice()) {
        None => second_fault(st, defined, name),
        Some(entry) => match &entry.entity {
            Entity::Variable(_, _) => Some(redeclared(name.span)),
            Entity::Function(_) => second_fault(st, defined, name),
        },
    }
}

// ---- what a head says

// The signature with its name, or the sooner of the faults of the two.
fn named(
    alloc: Global,
    name: &Name,
    again: Option<TypeFault>,
    said: Result<ax_names_declared::Signature, TypeFault>,
) -> Result<Signature, Stop>
    ensures { IsFound (both named_by (closed again name.now.text) said) result }
{
    match said {
        Ok(said) => match again {
            None => Ok(Signature {
                name: Items::from_slice(alloc, name.text.as_slice())?,
                result: said.result,
                params: said.params,
            }),
            Some(again) => Err(Stop::Fault(again)),
        },
        Err(fault) => match again {
            None => Err(Stop::Fault(fault)),
            Some(again) => Err(Stop::Fault(sooner(again, fault))),
        },
    }
}

fn signature_at(alloc: Global, st: &State, defined: bool, head: &Head) -> Result<Signature, Stop>
    ensures { IsFound (signature_by_rules st.now defined head.now) result }
{
    let again = name_fault(st, defined, &head.name);
    let said = signature_of(alloc, st.structs.as_slice(), head, defined)?;
    named(alloc, &head.name, again, said)
}

// ---- heads of one name

fn same_result(a: &Option<Ty>, b: &Option<Ty>) -> bool
    ensures { result ≡ alike a.now b.now }
{
    match a {
        None => match b {
            None => true,
            Some(_) => false,
        },
        Some(a) => match b {
            None => false,
            Some(b) => same_ty(a, b),
        },
    }
}

fn same_head(a: &Signature, b: &Signature) -> bool
    ensures { result ≡ same_heads a.now b.now }
{
    a.name.as_slice() == b.name.as_slice()
        && same_result(&a.result, &b.result)
        && same_types(a.params.as_slice(), b.params.as_slice())
}

// Whether the head of this place says the same.
fn says_the_same(heads: &[Signature], place: usize, said: &Signature) -> bool
    ensures { result ≡ says_what_stands (slice_get heads.now place) said.now }
{
    match at(heads, place) {
        None => false,
        Some(head) => same_head(head, said),
    }
}

// ---- what stands behind a head

fn copy_types(alloc: Global, types: &[Ty]) -> Result<Items<Ty>, AllocError>
    ensures { IfOk result (λ it. it ≡ types.now) }
{
    let mut all = Items::new(alloc);
    for ty in types {
        all.push(copy_ty(alloc, ty)?)?;
    }
    Ok(all)
}

fn copy_signature(alloc: Global, said: &Signature) -> Result<Signature, AllocError>
    ensures { IfOk result (λ it. it ≡ said.now) }
{
    let name = Items::from_slice(alloc, said.name.as_slice())?;
    let result = copy_result(alloc, &said.result)?;
    let params = copy_types(alloc, said.params.as_slice())?;
    Ok(Signature {
        name,
        result,
        params,
    })
}

// Enters a function whose name is new.
fn push_head(alloc: Global, st: &mut State, said: &Signature) -> Result<(), AllocError>
    ensures { OnOk result (st.new ≡ with_head st.old said.now) }
{
    let id = number(st.heads.len())?;
    let name = Items::from_slice(alloc, said.name.as_slice())?;
    let head = copy_signature(alloc, said)?;
    st.heads.push(head)?;
    st.names.push(Entry {
        name,
        entity: Entity::Function(id),
    })
}

// Enters a function where its name is new (C11 6.7p3, 6.7p4). Another head of its name says the same.
fn introduce(alloc: Global, st: &mut State, name: &Name, said: &Signature) -> Result<(), Stop>
    ensures done { IsDone (introduced_by (entity_of (innermost_of name.now.text st.old.names)) name.now.span st.old said.now) result st.new }
    ensures structs { OnOk result (st.new.structs ≡ st.old.structs) }
{
    match innermost(name.text.as_slice(), st.names.as_slice()) {
        None => Ok(push_head(alloc, st, said)?),
        Some(entry) => match &entry.entity {
            Entity::Variable(_, _) => Err(Stop::Fault(redeclared(name.span))),
            Entity::Function(id) => {
                if says_the_same(st.heads.as_slice(), *id as usize, said) {
                    Ok(())
                } else {
                    Err(Stop::Fault(redeclared(name.span)))
                }
            }
        },
    }
}

/// What a head says here, of a definition or of a prototype, which a source has said behind it.
pub fn head_in(alloc: Global, st: &mut State, defined: bool, head: &Head) -> Result<Signature, Stop>
    ensures made { IsMade (head_by_rules st.old defined head.now) result st.new }
    ensures structs { OnOk result (st.new.structs ≡ st.old.structs) }
{
    let said = signature_at(alloc, st, defined, head)?;
    introduce(alloc, st, &head.name, &said)?;
    Ok(said)
}
