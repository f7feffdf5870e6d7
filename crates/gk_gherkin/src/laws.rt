//! Laws of this crate's definitions. Each is the contract of an empty function.
ghost use Rattle.std.specs.Prelude.{ℕ, ◌<◌, ◌^◌, List, length, Some};
ghost use Rattle.gk_gherkin.specs.Lines.{lines_of, IsText};
ghost use Rattle.gk_gherkin.specs.Feature.{FeatureValue};
ghost use Rattle.gk_gherkin.specs.Grammar.{Reads, HasOneReading, IsConcatenation, IsFeature, IsRule, IsScenario, IsBackground, IsStep, AreExamples, IsTable, IsDocString};
ghost use Rattle.gk_gherkin.specs.HooksGrammar.{IsHook, HaveOneHooksReading};
ghost use Rattle.gk_gherkin.specs.DocStrings.{ReadsOneWay};
ghost use Rattle.gk_gherkin.specs.declared.class.Fence.{Fence};
ghost use Rattle.gk_gherkin.specs.ReadFault.{FeatureFault, HooksFault, HaveOneFault};

/// States that reading a part is concatenation: a part leads from some lines to a rest exactly if
/// these are the part's own lines followed by that rest. Such parts are steps, tables, doc strings,
/// backgrounds, examples, scenarios, rules, features and hooks. (the grammar of this project's
/// profile)
pub fn parts_are_concatenations()
    ensures steps { IsConcatenation IsStep }
    ensures backgrounds { IsConcatenation IsBackground }
    ensures scenarios { IsConcatenation IsScenario }
    ensures examples { IsConcatenation AreExamples }
    ensures tables { IsConcatenation IsTable }
    ensures doc_strings { IsConcatenation IsDocString }
    ensures rules { IsConcatenation IsRule }
    ensures features { IsConcatenation IsFeature }
    ensures hooks { IsConcatenation IsHook }
{}

/// States that no list of lines has two readings as a feature file. (the grammar of this project's
/// profile)
#[tactic(auto, using(crate::proofs::FeatureReaderComplete::one_reading))]
pub fn reading_is_unique()
    ensures { HasOneReading }
{}

/// States that no list of lines has two readings as a hooks file. (the grammar of this project's
/// profile)
pub fn hooks_reading_is_unique()
    ensures { HaveOneHooksReading }
{}

/// States that a feature returned by `read_feature` has fewer than 2^32 rules, because each rule
/// has its own line. (this project's profile)
#[tactic(auto, using(crate::proofs::RuleCounts::rules_counted))]
pub fn rules_are_counted()
    ensures { (bytes : List ℕ) (f : FeatureValue) → IsText bytes → Reads (lines_of bytes) (Some f)
        → length f.rules < 2 ^ 32 }
{}

/// States that no bytes have two faults as a feature file, and none have two as a hooks file:
/// neither of two classes nor on two lines. Refused memory is no fault of the bytes. (the faults of
/// this project's profile)
#[tactic(auto, using(crate::proofs::OneFeatureFault::one_feature_fault, crate::proofs::OneHooksFault::one_hooks_fault, crate::proofs::OneFaultOfBytes::one_fault))]
pub fn fault_is_unique()
    ensures features { HaveOneFault FeatureFault }
    ensures hooks { HaveOneFault HooksFault }
{}

/// States that the escaped fences of a text have one reading, which the definitions compute.
/// (Cucumber's Gherkin reference: doc strings)
pub fn escaped_fences_are_read()
    ensures { (fence : Fence) (text : List ℕ) → ReadsOneWay fence text }
{}
