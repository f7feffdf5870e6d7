//! The check that words spell an expression.
ghost use Rattle.std.specs.Prelude.{◌≡◌, ◌⊎◌, ◌<◌, ◌≤◌, ℕ, Err, length, map, max, IfOk, IfErr};
ghost use Rattle.gk_select.specs.declared.select_fault.SelectFault.TheVariants.{BadTagText, Memory};
ghost use Rattle.gk_select.specs.SelectFault.{AnswersOrLacksMemory};
ghost use Rattle.gk_select.specs.TagGrammar.{Expression, depth, depth_limit, spelling};
ghost use Rattle.gk_select.specs.TagMeasures as spec;
ghost use Rattle.gk_select.specs.TagMeasures.{built_value, measure_before};
ghost use Rattle.gk_select.specs.TagWords.{word_value};

use crate::select_fault::SelectFault;
use crate::tag_words::Word;
use std::alloc::Global;

// The maximum depth of nested `not` and `(`, counted together.
const DEPTH_LIMIT: usize = 100;

/// The depths of what the words read so far have built. Words are read from the last to the first.
#[derive(Debug, Drop)]
struct Built {
    /// The depth of the factor just read, if any.
    factor: Option<usize>,
    /// The depth of what comes after that factor in its group.
    behind: usize,
    /// The depths of the parts of the enclosing groups, the innermost last.
    outer: Vec<usize>,
}

fn deeper(depth: usize) -> usize
    ensures { result ≡ spec.deeper depth }
{
    if depth <= DEPTH_LIMIT {
        depth + 1
    } else {
        depth
    }
}

impl Built {
    // Returns what is built once the word before those read so far is read too.
    fn before(self, word: &Word) -> Result<Built, SelectFault>
        ensures { AnswersOrLacksMemory built_value result
            (measure_before (word_value word.now) self.factor self.behind self.outer.items) }
    {
        let mut outer = self.outer;
        let behind = self.behind;
        match self.factor {
            None => match word {
                Word::Close => {
                    outer.push(behind)?;
                    Ok(Built {
                        factor: None,
                        behind: 0,
                        outer,
                    })
                }
                Word::Tag(_) => Ok(Built {
                    factor: Some(0),
                    behind,
                    outer,
                }),
                Word::Open | Word::Not | Word::And | Word::Or => Err(SelectFault::BadTagText),
            },
            Some(factor) => match word {
                Word::Open => {
                    let groups = outer.len();
                    if groups == 0 {
                        return Err(SelectFault::BadTagText);
                    }
                    let next = outer[groups - 1];
                    outer.truncate(groups - 1);
                    Ok(Built {
                        factor: Some(deeper(factor.max(behind))),
                        behind: next,
                        outer,
                    })
                }
                Word::Not => Ok(Built {
                    factor: Some(deeper(factor)),
                    behind,
                    outer,
                }),
                Word::And | Word::Or => Ok(Built {
                    factor: None,
                    behind: factor.max(behind),
                    outer,
                }),
                Word::Close | Word::Tag(_) => Err(SelectFault::BadTagText),
            },
        }
    }
}

/// Checks that words spell an expression in which at most 100 `not` and `(` are nested.
pub fn check_words(alloc: Global, words: &[Word]) -> Result<(), SelectFault>
    // If no fault is returned, the words spell one.
    ensures found { IfOk result (λ _. (e : Expression) ×
        (spelling e ≡ map word_value words.now) × (depth e ≤ depth_limit)) }
    // Memory runs out only if there are words.
    ensures memory { result ≡ Err Memory → 0 < length words.now }
    // The fault is `Memory` or, only for words that spell none, `BadTagText`.
    ensures fault { IfErr result (λ e. (e ≡ Memory) ⊎ ((e ≡ BadTagText) × ((e : Expression) →
        spelling e ≡ map word_value words.now → depth e ≤ depth_limit → ⊥))) }
{
    let mut built = Built {
        factor: None,
        behind: 0,
        outer: Vec::new(alloc),
    };
    let mut at = words.len();
    while at > 0 {
        at -= 1;
        built = built.before(&words[at])?;
    }
    match built.factor {
        None => Err(SelectFault::BadTagText),
        Some(factor) => {
            if built.outer.len() == 0 && factor.max(built.behind) <= DEPTH_LIMIT {
                return Ok(());
            }
            Err(SelectFault::BadTagText)
        }
    }
}
