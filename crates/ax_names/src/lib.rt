//! Resolving: the program of a tree, or the first rule on names and types that it breaks.
//!
//! Each private contract is an equation with the walk of `ax_names_rules`, whose laws say what the walk has to do with the rules.
#![tactic(auto)]

ghost use Rattle.std.specs.Prelude.{◌≡◌, ◌++◌, IfOk, OnOk, codes, slice_get};
ghost use Rattle.ax_names_types.specs.declared.TypeKind.TheVariants.{NoMain};
ghost use Rattle.ax_names_types.specs.Faults.{fault};
ghost use Rattle.ax_names_declared.specs.Firsts.{Exact};
ghost use Rattle.ax_names_rules.specs.States.{is_int as is_int_type};
ghost use Rattle.ax_names_rules.specs.Values.{function_at as function_in};
ghost use Rattle.ax_names_rules.specs.Programs.{defined_by, definitions_of as names_defined, start as nothing_said, program_with as program_from, IsProgramOf};
ghost use Rattle.ax_names_rules.specs.FileFaults.{BreaksSource};
ghost use Rattle.ax_names_rules.specs.FileWalk.{is_number as is_number_type, is_main as is_main_function, main_at as main_by_rules, program_of as program_by_rules};
ghost use Rattle.ax_names_given.specs.Made.{IsFound};

mod beside;
mod declarations;
mod globals;
mod initials;
mod simples;
mod statements;

pub use declarations::vars_of;
pub use globals::globals_of;
pub use statements::items_of;

mod heads;
mod parts;

use ax_names_given::Stop;
use ax_names_given::states::{function_at, number};
use ax_names_rules::State;
use ax_names_types::{TypeFault, TypeKind};
use ax_parse_grammar::tree::{Part, Tree};
use ax_prog::{Fun, FunId, Program, Span, Ty};
use parts::parts_of;
use sqlite_items::{Items, at};
use std::alloc::{AllocError, Global};

// Puts the name of the function that a part defines behind these.
fn push_definition(
    alloc: Global,
    part: &Part,
    names: &mut Items<Items<u8>>,
) -> Result<(), AllocError>
    ensures { OnOk result (names.new ≡ names.old ++ defined_by part.now) }
{
    match part {
        Part::Function(_, head, _) => {
            names.push(Items::from_slice(alloc, head.name.text.as_slice())?)
        }
        Part::Struct(_, _, _) => Ok(()),
        Part::Decl(_) => Ok(()),
        Part::Prototype(_, _) => Ok(()),
    }
}

// The names of the functions that these parts define, in order.
fn definitions_of(alloc: Global, parts: &[Part]) -> Result<Items<Items<u8>>, AllocError>
    ensures { IfOk result (λ names. names ≡ names_defined parts.now) }
{
    let mut names = Items::new(alloc);
    for part in parts {
        push_definition(alloc, part, &mut names)?;
    }
    Ok(names)
}

fn is_int(ty: &Ty) -> bool
    ensures { result ≡ is_int_type ty.now }
{
    match ty {
        Ty::Int => true,
        Ty::Ptr(_) => false,
        Ty::Array(_, _) => false,
        Ty::Struct(_) => false,
    }
}

fn is_number(ty: &Option<Ty>) -> bool
    ensures { result ≡ is_number_type ty.now }
{
    match ty {
        None => false,
        Some(ty) => is_int(ty),
    }
}

// Whether the function of this place is `int main()` (C11 5.1.2.2.1), its name aside.
fn is_main(funs: &[Fun], place: usize) -> bool
    ensures { result ≡ is_main_function (slice_get funs.now place) }
{
    match at(funs, place) {
        None => false,
        Some(f) => f.params.is_empty() && is_number(&f.result),
    }
}

fn program_with(st: State, main: usize) -> Result<Program, AllocError>
    ensures { IfOk result (λ p. p ≡ program_from st main) }
{
    let main = FunId(number(main)?);
    Ok(Program {
        structs: st.structs,
        vars: st.vars,
        globals: st.globals,
        funs: st.funs,
        main,
        slots: st.slots,
    })
}

fn no_main(at: Span) -> TypeFault
    ensures { result ≡ fault NoMain at }
{
    TypeFault {
        kind: TypeKind::NoMain,
        span: at,
    }
}

// The program whose `main` is the function of this place, where it has one.
fn main_at(place: Option<usize>, end: Span, st: State) -> Result<Program, Stop>
    ensures { IsFound (main_by_rules place end st) result }
{
    match place {
        None => Err(Stop::Fault(no_main(end))),
        Some(main) => {
            if is_main(st.funs.as_slice(), main) {
                Ok(program_with(st, main)?)
            } else {
                Err(Stop::Fault(no_main(end)))
            }
        }
    }
}

// A source has said nothing yet.
fn start(alloc: Global) -> State
    ensures { result ≡ nothing_said }
{
    State {
        names: Items::new(alloc),
        structs: Items::new(alloc),
        vars: Items::new(alloc),
        slots: Items::new(alloc),
        heads: Items::new(alloc),
        globals: Items::new(alloc),
        funs: Items::new(alloc),
    }
}

// The place of `main` among the functions that are defined.
fn main_in(defs: &[Items<u8>]) -> Option<usize>
    ensures { result ≡ function_in defs.now (codes "main") }
{
    function_at(defs, b"main".as_slice())
}

fn program_of(alloc: Global, tree: &Tree) -> Result<Program, Stop>
    ensures { IsFound (program_by_rules tree.now) result }
{
    let parts = tree.parts.as_slice();
    let defs = definitions_of(alloc, parts)?;
    let mut st = start(alloc);
    parts_of(alloc, defs.as_slice(), parts, &mut st)?;
    let end = Span {
        from: tree.span.to,
        to: tree.span.to,
    };
    main_at(main_in(defs.as_slice()), end, st)
}

/// The program of a tree where it breaks no rule on names and types (C11 6.2.1, 6.5 to 6.9), and else the first rule that it
/// breaks: the one with the least start, at one start the first in the list of kinds.
pub fn resolve(alloc: Global, tree: &Tree) -> Result<Result<Program, TypeFault>, AllocError>
    ensures exact { IfOk result (λ v. Exact (IsProgramOf tree.now) (BreaksSource tree.now) v) }
{
    match program_of(alloc, tree) {
        Ok(program) => Ok(Ok(program)),
        Err(Stop::Fault(fault)) => Ok(Err(fault)),
        Err(Stop::Memory) => Err(AllocError),
    }
}
