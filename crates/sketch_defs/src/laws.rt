//! Laws of the answers, for all packets and every key value. Each is the contract of an empty
//! function.
ghost use Rattle.sketch_defs.specs.Laws.{CountMinIsAbove, SumaxSumIsAbove, SumaxMaxIsAbove, BloomMissesNone, FlagOrHasAll, FlagAndHasNoOther};

/// Count-Min answers no less than the sum of the weights, or the greatest number of a cell.
#[tactic(auto, using(crate::proofs::AnswerLemmas::count_min_is_above))]
pub fn count_min_is_above()
    ensures { CountMinIsAbove }
{}

/// SuMax that adds answers no less than the sum of the weights, or the greatest number of a cell.
#[tactic(auto, using(crate::proofs::ChainLemmas::sumax_sum_is_above))]
pub fn sumax_sum_is_above()
    ensures { SumaxSumIsAbove }
{}

/// SuMax that keeps the greatest weight answers no less than the greatest weight.
#[tactic(auto, using(crate::proofs::AnswerLemmas::sumax_max_is_above))]
pub fn sumax_max_is_above()
    ensures { SumaxMaxIsAbove }
{}

/// A Bloom filter answers yes for each key value that came.
#[tactic(auto, using(crate::proofs::AnswerLemmas::bloom_misses_none))]
pub fn bloom_misses_none()
    ensures { BloomMissesNone }
{}

/// The flags that some packet set are all among those answered.
#[tactic(auto, using(crate::proofs::AnswerLemmas::flag_or_has_all))]
pub fn flag_or_has_all()
    ensures { FlagOrHasAll }
{}

/// Each flag answered is one that every packet set.
#[tactic(auto, using(crate::proofs::AnswerLemmas::flag_and_has_no_other))]
pub fn flag_and_has_no_other()
    ensures { FlagAndHasNoOther }
{}
