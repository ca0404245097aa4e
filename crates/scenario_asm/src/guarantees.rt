//! What is true of all texts.
ghost use Rattle.scenario_asm.specs.OneAnswer.{TextsHaveOneAnswer};
ghost use Rattle.scenario_asm.specs.CanonicalText.{CanonicalTextsMeanTheirScenarios};

/// Each text has a meaning or a first fault, not both, and but one of either.
#[tactic(auto, using(crate::proofs::OneAnswer::one_answer))]
pub fn texts_have_one_answer()
    ensures { TextsHaveOneAnswer }
{}

/// The canonical text of each scenario means that scenario.
#[tactic(auto, using(crate::proofs::CanonicalMeaning::canonical_meaning))]
pub fn canonical_texts_mean_their_scenarios()
    ensures { CanonicalTextsMeanTheirScenarios }
{}
