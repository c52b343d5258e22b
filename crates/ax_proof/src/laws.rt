//! Laws of unit propagation and of lines.

ghost use Rattle.ax_proof.specs.Laws.{ForcedHolds, LawfulHolds, ProofRefutes, NewIsNotEmpty, NewHasNoSubset, RightIsLawful, OwnVariablesDecide, NamesDoNotCount};

/// Does nothing. Its contract states the laws.
pub fn laws()
    ensures forced_holds { ForcedHolds }
    ensures lawful_holds { LawfulHolds }
    ensures proof_refutes { ProofRefutes }
    ensures new_is_not_empty { NewIsNotEmpty }
    ensures new_has_no_subset { NewHasNoSubset }
    ensures right_is_lawful { RightIsLawful }
    ensures own_variables_decide { OwnVariablesDecide }
    ensures names_do_not_count { NamesDoNotCount }
{}
