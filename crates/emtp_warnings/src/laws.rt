//! Columns that a ruler doesn't mark don't matter. The functions do nothing: their clauses are proved.

ghost use Rattle.emtp_netcards.specs.OutputCard.{output_card};
ghost use Rattle.emtp_netcards.specs.RunCards.{first_card, second_card, tolerance_card};
ghost use Rattle.emtp_netcards.specs.SourceCard.{source_card};
ghost use Rattle.emtp_netcards.specs.SwitchCard.{switch_card};
ghost use Rattle.emtp_taccards.specs.BlockCard.{block_card};
ghost use Rattle.emtp_taccards.specs.ExtraCard.{extra_card};
ghost use Rattle.emtp_taccards.specs.TacsOutputCard.{tacs_output_card};
ghost use Rattle.emtp_taccards.specs.TacsSourceCard.{tacs_source_card};
ghost use Rattle.emtp_warnings.specs.Law.{AreBranchesReadUnder, ArePointsReadUnder, ArePolynomialsReadUnder, IsReadUnder, IsReadUnderUnlessEnd, output_card_ruler, source_card_ruler, switch_card_ruler, tacs_source_card_ruler};
ghost use Rattle.emtp_warnings.specs.Marked.{extra_ruler};
ghost use Rattle.emtp_warnings.specs.declared.rulers.TheConstants.{BLOCK, FIRST_RUN, NAMES, SECOND_RUN, TOLERANCE};

/// Two lines without a faulty byte that agree in all columns that the ruler of one of them marks give the same card of the
/// network, or the same fault: what stands in other columns doesn't matter. Of the miscellaneous cards neither line ends a
/// section.
pub fn unmarked_columns_of_the_network_dont_matter()
    ensures tolerance { IsReadUnder (λ number line. TOLERANCE.now) tolerance_card }
    ensures first { IsReadUnderUnlessEnd FIRST_RUN.now first_card }
    ensures second { IsReadUnderUnlessEnd SECOND_RUN.now second_card }
    ensures branch { AreBranchesReadUnder }
    ensures switch { IsReadUnder switch_card_ruler switch_card }
    ensures source { IsReadUnder source_card_ruler source_card }
    ensures point { ArePointsReadUnder }
    ensures output { IsReadUnder output_card_ruler output_card }
{}

/// The same of blocks, their polynomials, sources, supplemental cards and outputs of the control.
pub fn unmarked_columns_of_the_control_dont_matter()
    ensures block { IsReadUnder (λ number line. BLOCK.now) block_card }
    ensures polynomial { ArePolynomialsReadUnder }
    ensures source { IsReadUnder tacs_source_card_ruler tacs_source_card }
    ensures extra { IsReadUnder (λ number line. extra_ruler line) extra_card }
    ensures output { IsReadUnder (λ number line. NAMES.now) tacs_output_card }
{}
