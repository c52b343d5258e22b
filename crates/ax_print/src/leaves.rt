//! What atoms and operators are written as.
ghost use Rattle.std.specs.Prelude.{◌≡◌};
ghost use Rattle.ax_print.specs.Text.{un_text, bin_text, first_span, bytes_at, name_of, atom_text, atoms_in};
ghost use Rattle.ax_prog.specs.Candidates.{slot_at};

use ax_prog::same::same_atom;
use ax_prog::{Atom, Bin, Lval, Program, SlotId, Span, Un, VarId};

/// Where a text is to stand: the source, its program, and the atoms of the slot.
#[derive(Drop)]
pub struct Site<'a> {
    pub source: &'a [u8],
    pub program: &'a Program,
    pub atoms: &'a [(Atom, Span)],
}

pub fn un_sign(op: Un) -> &'static str
    ensures { result.now ≡ un_text op }
{
    match op {
        Un::Neg => "-",
        Un::Not => "!",
        Un::BitNot => "~",
    }
}

pub fn bin_sign(op: Bin) -> &'static str
    ensures { result.now ≡ bin_text op }
{
    match op {
        Bin::Eq => "==",
        Bin::Ne => "!=",
        Bin::Lt => "<",
        Bin::Le => "<=",
        Bin::Gt => ">",
        Bin::Ge => ">=",
        Bin::And => "&&",
        Bin::Or => "||",
        Bin::Add => "+",
        Bin::Sub => "-",
        Bin::Mul => "*",
        Bin::Div => "/",
        Bin::Rem => "%",
        Bin::BitAnd => "&",
        Bin::BitOr => "|",
        Bin::BitXor => "^",
        Bin::Shl => "<<",
        Bin::Shr => ">>",
    }
}

/// The atoms of the slot of that number.
pub fn slot_atoms(program: &Program, slot: SlotId) -> &[(Atom, Span)]
    ensures { result.now ≡ atoms_in (slot_at program.now slot) }
{
    match program.slots.get(slot.0 as usize) {
        None => &[],
        Some(slot) => slot.atoms.as_slice(),
    }
}

/// What an atom is written as: a variable's name, or the bytes of the atom in the source.
pub fn atom_bytes<'a>(site: &Site<'a>, atom: &Atom) -> &'a [u8]
    ensures { result.now ≡ atom_text site.now.source.now site.now.program.now site.now.atoms.now atom.now }
{
    match atom {
        Atom::Read(Lval::Var(id)) => variable_name(site.program, *id),
        Atom::Read(_) | Atom::Same(_, _) | Atom::Differ(_, _) => source_bytes(
            site.source,
            span_of(atom, site.atoms),
        ),
    }
}

fn variable_name(program: &Program, id: VarId) -> &[u8]
    ensures { result.now ≡ name_of program.now id }
{
    match program.vars.get(id.0 as usize) {
        None => &[],
        Some(var) => var.name.as_slice(),
    }
}

fn span_of(atom: &Atom, atoms: &[(Atom, Span)]) -> Option<Span>
    ensures { result ≡ first_span atom.now atoms.now }
{
    for part in atoms {
        if same_atom(&part.0, atom) {
            return Some(part.1);
        }
    }
    None
}

fn source_bytes(source: &[u8], span: Option<Span>) -> &[u8]
    ensures { result.now ≡ bytes_at source.now span }
{
    match span {
        None => &[],
        Some(span) => {
            let from = (span.from as usize).min(source.len());
            let rest = &source[from..];
            let count = (span.to as usize)
                .saturating_sub(span.from as usize)
                .min(rest.len());
            &rest[..count]
        }
    }
}
