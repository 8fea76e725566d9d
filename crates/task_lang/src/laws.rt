//! A law of the canonical texts. It is the contract of an empty function.
ghost use Rattle.task_lang.specs.Laws.{CanonicalIsPrinted};

/// Of the texts that are read as a command, the printed one alone is canonical.
#[tactic(auto, using(crate::proofs::CanonicalLemmas::canonical_printed))]
pub fn canonical_is_printed()
    ensures { CanonicalIsPrinted }
{}
