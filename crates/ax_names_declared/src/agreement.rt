//! Heads of one name in a source.
ghost use Rattle.std.specs.Prelude.{◌≡◌, ◌↔◌, IsTrue};
ghost use Rattle.ax_names_types.specs.Scopes.{same_text as same_text_of};
ghost use Rattle.ax_names_declared.specs.Agreement.{Agrees};
ghost use Rattle.ax_names_declared.specs.Alike.{same_types as alike, same_result as alike_results, same_signature as alike_signatures, agrees_with as one_agrees, agrees as every_agrees};

use crate::bases::same_text;
use crate::heads::Signature;
use ax_names_types::types::same_ty;
use ax_prog::Ty;
use sqlite_items::Items;

/// A head that stands before: the name of its function, its signature, and whether it begins a definition.
#[derive(Drop)]
pub struct Known {
    pub name: Items<u8>,
    pub signature: Signature,
    pub defined: bool,
}

/// Whether two lists have the same types in the same order.
#[tactic(auto, using(crate::proofs::Agreeing::types_step))]
pub fn same_types(a: &[Ty], b: &[Ty]) -> bool
    ensures { result ≡ alike a.now b.now }
{
    if a.len() != b.len() {
        return false;
    }
    let mut at = 0;
    while at < a.len() {
        if !same_ty(&a[at], &b[at]) {
            return false;
        }
        at += 1;
    }
    true
}

fn same_result(a: &Option<Ty>, b: &Option<Ty>) -> bool
    ensures { result ≡ alike_results a.now b.now }
{
    match a {
        None => match b {
            None => true,
            Some(_) => false,
        },
        Some(a) => match b {
            None => false,
            Some(b) => same_ty(a, b),
        },
    }
}

fn same_signature(a: &Signature, b: &Signature) -> bool
    ensures { result ≡ alike_signatures a.now b.now }
{
    same_result(&a.result, &b.result) && same_types(a.params.as_slice(), b.params.as_slice())
}

fn agrees_with(known: &Known, name: &[u8], signature: &Signature, defined: bool) -> bool
    ensures { result ≡ one_agrees known.now name.now signature.now defined }
{
    if same_text(known.name.as_slice(), name) {
        same_signature(&known.signature, signature) && !(known.defined && defined)
    } else {
        true
    }
}

fn all_agree(heads: &[Known], name: &[u8], signature: &Signature, defined: bool) -> bool
    ensures { result ≡ every_agrees name.now signature.now defined heads.now }
{
    heads
        .iter()
        .all(|known| agrees_with(known, name, signature, defined))
}

/// Whether a head of this name agrees with the heads before it: those of its name have its signature, and at most one
/// begins a definition. A head that doesn't agree declares its name again.
pub fn agrees(heads: &[Known], name: &[u8], signature: &Signature, defined: bool) -> bool
    ensures { IsTrue result ↔ Agrees heads.now name.now signature.now defined }
{
    all_agree(heads, name, signature, defined)
}
