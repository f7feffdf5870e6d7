use crate::checks::{equal, holds, same};
use gk_gherkin::text::{begins, begins_word, contains, is_blank, split_word, trim};
use gk_gherkin::{
    Class, Fence, HookKind, LONGEST_FILE, Place, ReadFault, borrowed_line, class_of_line, closes,
    read_hooks, text_of,
};
use gk_select::SelectFault;
use gk_steps::LibraryFault;
use std::test::Fail;

#[test]
fn blanks_are_trimmed(rt: HostRuntime) {
    holds(&rt, is_blank(b' ') && is_blank(b'\t'));
    holds(&rt, !is_blank(b'\r') && !is_blank(b'\n') && !is_blank(b'a'));
    same(&rt, trim(" \ta b\t "), "a b");
    same(&rt, trim("a\r"), "a\r");
    same(&rt, trim(" \t"), "");
}

#[test]
fn words_are_split(rt: HostRuntime) {
    equal(&rt, &split_word("given a b"), &("given", "a b"));
    equal(&rt, &split_word("given\t a"), &("given", " a"));
    equal(&rt, &split_word(" a"), &("", "a"));
    equal(&rt, &split_word("given"), &("given", ""));
}

#[test]
fn texts_are_looked_for(rt: HostRuntime) {
    holds(
        &rt,
        begins("Given a", "Given") && begins("a", "") && begins("", ""),
    );
    holds(&rt, !begins("Give", "Given") && !begins("given a", "Given"));
    holds(
        &rt,
        begins_word("Given\ta", "Given") && !begins_word("Givena", "Given"),
    );
    holds(
        &rt,
        contains("abcd", "bc") && contains("a", "") && contains("", ""),
    );
    holds(&rt, !contains("abc", "ca") && !contains("ab", "abc"));
}

#[test]
fn lines_have_their_places(rt: HostRuntime) {
    let line = borrowed_line(7, " \tb");
    equal(&rt, &line.place, &Place { line: 7, column: 3 });
    same(&rt, line.text, " \tb");
    equal(
        &rt,
        &borrowed_line(1, "").place,
        &Place { line: 1, column: 1 },
    );
    equal(
        &rt,
        &borrowed_line(2, "  ").place,
        &Place { line: 2, column: 3 },
    );
}

#[test]
fn lines_have_classes(rt: HostRuntime) {
    let rule = borrowed_line(1, "\tRule: a");
    holds(&rt, matches!(class_of_line(&rule), Class::RuleHeading));
    let fence = borrowed_line(2, " \"\"\" ");
    holds(
        &rt,
        matches!(class_of_line(&fence), Class::FenceLine(Fence::Quotes)),
    );
    holds(
        &rt,
        closes(Fence::Quotes, &fence) && !closes(Fence::Backticks, &fence),
    );
}

#[test]
fn bytes_are_texts(rt: HostRuntime) -> Result<(), Fail> {
    equal(&rt, &text_of(b"a\r\nb"), &Ok("a\r\nb"));
    equal(&rt, &text_of(b"\xEF\xBB\xBFa"), &Ok("a"));
    equal(
        &rt,
        &text_of(b"a\n\xFF\n"),
        &Err(ReadFault::NotUtf8 { line: 2 }),
    );
    let bytes = vec![in rt.alloc(); b'a'; LONGEST_FILE + 1]?;
    equal(&rt, &text_of(&bytes), &Err(ReadFault::TooLong));
    Ok(())
}

#[test]
fn hooks_are_for_a_kind_and_a_tag(rt: HostRuntime) -> Result<(), Fail> {
    let file = read_hooks(rt.alloc(), b"before_tag @a:\nafter_all:\n")?;
    let [tagged, untagged] = file.hooks.as_slice() else {
        return Err("other hooks".into());
    };
    holds(&rt, tagged.is_for(HookKind::BeforeTag, Some("@a")));
    holds(&rt, !tagged.is_for(HookKind::BeforeTag, Some("@b")));
    holds(&rt, !tagged.is_for(HookKind::AfterTag, Some("@a")));
    holds(&rt, !tagged.is_for(HookKind::BeforeTag, None));
    holds(&rt, untagged.is_for(HookKind::AfterAll, None));
    holds(&rt, !untagged.is_for(HookKind::AfterAll, Some("@a")));
    Ok(())
}

// Faults, and the lines that they name.
const LINES: [(ReadFault, Option<u32>); 11] = [
    (ReadFault::NotUtf8 { line: 1 }, Some(1)),
    (ReadFault::Unexpected { line: 2 }, Some(2)),
    (ReadFault::BadTag { line: 3 }, Some(3)),
    (ReadFault::CellCount { line: 4 }, Some(4)),
    (ReadFault::UnclosedText { line: 5 }, Some(5)),
    (ReadFault::TagsAtEnd { line: 6 }, Some(6)),
    (ReadFault::Language { line: 7 }, Some(7)),
    (ReadFault::TooLong, None),
    (ReadFault::Memory, None),
    (ReadFault::BadHook { line: 8 }, Some(8)),
    (ReadFault::BadRow { line: 9 }, Some(9)),
];

#[test]
fn faults_name_their_lines(rt: HostRuntime) {
    for (fault, line) in LINES {
        equal(&rt, &ReadFault::line(&fault), &line);
    }
}

#[test]
fn faults_have_their_texts(rt: HostRuntime) -> Result<(), Fail> {
    let row = format!(in rt.alloc(); "{}", ReadFault::BadRow { line: 9 })?;
    same(&rt, row.as_str(), "row without closing bar");
    let tags = format!(in rt.alloc(); "{}", SelectFault::BadTagText)?;
    same(&rt, tags.as_str(), "bad tag expression");
    let library = format!(in rt.alloc(); "{}", LibraryFault::TooLong)?;
    same(&rt, library.as_str(), "longer than 16777216 bytes");
    Ok(())
}
