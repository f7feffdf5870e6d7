//! Laws of this crate's definitions. Each is the contract of an empty function.
ghost use Rattle.gk_gherkin.specs.Lines.{lines_of};
ghost use Rattle.gk_steps.specs.DefaultFile.{default_entries, default_text};
ghost use Rattle.gk_steps.specs.Finding.{FindsWhatIsFound};
ghost use Rattle.gk_steps.specs.LibraryFault.{LibraryFaultIsUnique};
ghost use Rattle.gk_steps.specs.LibraryFile.{LibraryReadingIsUnique, ReadsLibrary};
ghost use Rattle.gk_steps.specs.Matching.{MatchesAreDetermined};
ghost use Rattle.gk_steps.specs.Pattern.{SpellingIsUnique};
ghost use Rattle.gk_steps.specs.PatternReading.{SpellingIsComputed};

/// States that a text spells at most one pattern.
#[tactic(auto, using(crate::proofs::SpellingLemmas::spelling))]
pub fn spelling_is_unique()
    ensures { SpellingIsUnique }
{}

/// States that the definitions compute the pieces that a text spells.
pub fn spelling_is_computed()
    ensures { SpellingIsComputed }
{}

/// States that a pattern has at most one preferred match of a text, and that the definitions compute what it finds.
#[tactic(auto, using(crate::proofs::MatchingLemmas::one_best, crate::proofs::MatchingLemmas::one_result, crate::proofs::BestMatchLemmas::match_of_is))]
pub fn matches_are_determined()
    ensures { MatchesAreDetermined }
{}

/// States that no list of lines spells two libraries.
#[tactic(auto, using(crate::proofs::LibraryFileLemmas::one_reading))]
pub fn library_reading_is_unique()
    ensures { LibraryReadingIsUnique }
{}

/// States that no bytes have two faults as a library file, neither of two kinds nor on two lines. Refused memory is no
/// fault of the bytes.
#[tactic(auto, using(crate::proofs::OneLibraryFault::one_fault))]
pub fn library_fault_is_unique()
    ensures { LibraryFaultIsUnique }
{}

/// States that the default library's text reads as its entries, however much memory there is.
#[tactic(auto, using(crate::proofs::DefaultFileLemmas::default_reads))]
pub fn default_text_reads_as_its_entries()
    ensures { ReadsLibrary (lines_of default_text) default_entries }
{}

/// States that the definitions compute what a text finds, that there is no other result, and that what it finds fits
/// the library.
#[tactic(auto, using(crate::proofs::FindingLemmas::finds))]
pub fn finding_is_determined()
    ensures { FindsWhatIsFound }
{}
