//! The reader of a hooks file: the hooks so far, and the effect of each line.
ghost use Rattle.std.specs.Prelude.{List, option_map, Ok, IfOk, IfErr, ◌≡◌};
ghost use Rattle.std.specs.String.{string_bytes};
ghost use Rattle.gk_gherkin.specs.Lines.{borrowed_value, lines_of, IsText};
ghost use Rattle.gk_gherkin.specs.Class as words;
ghost use Rattle.gk_gherkin.specs.Hooks.{HookValue, hooks_value};
ghost use Rattle.gk_gherkin.specs.HookHeadings.{heading_value, hooks_class};
ghost use Rattle.gk_gherkin.specs.HooksGrammar.{ReadsHooks};
ghost use Rattle.gk_gherkin.specs.ReadFault.{AnswersOrLacksMemory, FaultSays, HooksFault};
ghost use Rattle.gk_gherkin.specs.Results.{Agrees};
ghost use Rattle.gk_gherkin.specs.HooksReader as spec;
ghost use Rattle.gk_gherkin.specs.HooksSoFar.{so_far_value};
ghost use Rattle.gk_gherkin.specs.declared.hook_headings.HooksClass.TheVariants.{HookLine, Plain};
ghost use Rattle.gk_gherkin.specs.declared.read_fault.ReadFault.TheVariants.{BadHook, Memory};

use crate::class::Class;
use crate::hook_headings::{HookHeading, HooksClass, hook_heading, hooks_class};
use crate::hooks::{Hook, HookFile};
use crate::hooks_so_far::HooksSoFar;
use crate::lines::BorrowedLine;
use crate::read_fault::ReadFault;
use crate::reading::{FileReader, read};
use std::alloc::Global;

fn tag_of(alloc: Global, heading: &HookHeading<'_>) -> Result<Option<String>, ReadFault>
    ensures { Agrees (λ o. option_map string_bytes o) result (Ok (heading_value heading.now).tag) }
{
    match heading.tag {
        Some(tag) => Ok(Some(String::from_str(alloc, tag)?)),
        None => Ok(None),
    }
}

fn bad_hook(line: &BorrowedLine<'_>) -> ReadFault
    ensures { result ≡ BadHook line.now.place.line }
{
    ReadFault::BadHook {
        line: line.place.line,
    }
}

#[inline(never)]
#[tactic(auto, unfolding(crate::specs::HooksReader::on_hook))]
fn on_hook(alloc: Global, hooks: &mut HooksSoFar, line: &BorrowedLine<'_>) -> Result<(), ReadFault>
    ensures says { Agrees (λ _. so_far_value hooks.new) result
        (spec.on_hook (so_far_value hooks.old) (borrowed_value line.now)) }
    ensures memory { IfErr result (λ e. e ≡ Memory →
        spec.Needs (so_far_value hooks.old) (borrowed_value line.now) HookLine) }
{
    match hook_heading(line) {
        None => Err(bad_hook(line)),
        Some(heading) => {
            if hooks.has(heading.kind, heading.tag) {
                return Err(bad_hook(line));
            }
            let tag = tag_of(alloc, &heading)?;
            hooks.push(Hook {
                kind: heading.kind,
                tag,
                line: line.place.line,
                steps: Vec::new(alloc),
            })?;
            Ok(())
        }
    }
}

// Takes a line of this class that isn't part of a doc string.
#[tactic(auto, using(crate::proofs::HookClasses::plain_class), unfolding(crate::specs::HooksReader::on))]
fn take(
    alloc: Global,
    hooks: &mut HooksSoFar,
    line: &BorrowedLine<'_>,
    class: HooksClass,
) -> Result<(), ReadFault>
    requires { class ≡ hooks_class (borrowed_value line.now) }
    ensures says { let said = borrowed_value line.now in
        Agrees (λ _. so_far_value hooks.new) result (spec.on (so_far_value hooks.old) said class) }
    ensures memory { IfErr result (λ e. e ≡ Memory →
        spec.Needs (so_far_value hooks.old) (borrowed_value line.now) class) }
{
    match class {
        HooksClass::HookLine => on_hook(alloc, hooks, line),
        HooksClass::Plain(Class::Blank | Class::Comment) => Ok(()),
        HooksClass::Plain(class) => hooks.on_line(alloc, line, class),
    }
}

impl FileReader for HooksSoFar {
    type Answer = HookFile;

    ghost Value = { List HookValue };

    ghost AnswerValue = { List HookValue };

    ghost value = { so_far_value };

    ghost answer_value = { hooks_value };

    ghost readers = { spec.hooks_readers };

    fn first(alloc: Global) -> HooksSoFar {
        HooksSoFar::new(alloc)
    }

    fn takes_text(&self) -> bool {
        self.last_takes_text()
    }

    fn put_text(&mut self, text: String) {
        self.put_text_below(text);
    }

    fn take(
        &mut self,
        alloc: Global,
        line: &BorrowedLine<'_>,
        class: Class,
    ) -> Result<(), ReadFault> {
        take(alloc, self, line, hooks_class(line, class))
    }

    fn answer(self) -> Result<HookFile, ReadFault> {
        Ok(self.into_file())
    }
}

/// Reads the hooks that the bytes spell, in order. A file of only blank lines and comments has
/// none.
///
/// A hook is a heading and the steps under it. Each step may have a table or a doc string, as in a
/// feature file. Its heading begins with `before_` or `after_`. After that comes `all:`,
/// `feature:`, `rule:` or `scenario:`, or `tag`, at least one space or tab, a tag without spaces
/// and tabs, and `:`. (behave's documentation: environment file functions; this project's profile)
///
/// `TooLong` and `NotUtf8` are those of `read_lines`, and come before any fault of a line. Of the
/// faults of lines, the first line's is returned:
///
/// - `Unexpected`: no line of its class is allowed there, such as a step before the first hook.
/// - `BadHook`: a line that begins with `before_` or `after_` and isn't a heading, or that repeats
///   an earlier heading, with the same tag if it has one.
/// - `BadRow`: a row that isn't between two unescaped bars.
/// - `CellCount`: a row whose number of cells differs from that of the first row of its table.
/// - `UnclosedText`, at the line of its opening fence: the file ends in a doc string.
///
/// `Memory` comes only if a growth was refused. No growth is requested before the first heading. A
/// fault returns nothing of what was read before it.
pub fn read_hooks(alloc: Global, bytes: &[u8]) -> Result<HookFile, ReadFault>
    // What is returned is what the lines say.
    ensures found { IfOk result (λ file.
        IsText bytes.now × ReadsHooks (lines_of bytes.now) (hooks_value file)) }
    // What the lines say is returned, unless memory runs out.
    ensures only { (hooks : List HookValue) → IsText bytes.now
        → ReadsHooks (lines_of bytes.now) hooks → AnswersOrLacksMemory hooks_value result hooks }
    // Which fault is returned.
    ensures fault { IfErr result (λ e. FaultSays HooksFault e bytes.now) }
{
    read::<HooksSoFar>(alloc, bytes)
}
