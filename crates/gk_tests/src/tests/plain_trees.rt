//! The parser beside the plain program of the grammar.
use gk_plain::{PlainFault, fault, has_document};
use gk_tree::{ParseFault, parse};
use std::alloc::Global;
use std::test::Fail;

/// One line of each sort that a short text can distinguish.
const LINES: [&str; 12] = [
    "Feature: f",
    "Rule: r",
    "Background:",
    "Scenario: s",
    "Examples:",
    "Given x",
    "| a |",
    "\"\"\"",
    "@t",
    "# c",
    "# language: en",
    "text",
];

/// Other lines, and some of those again, to come after the front of a text. Some have an indent.
const OTHER_LINES: [&str; 12] = [
    "  | b | c |",
    "```",
    " @a @é @b c",
    "\t# language: fr",
    "",
    "| a |",
    "\"\"\"",
    "Examples:",
    "Scenario: s",
    "Given x",
    "@t",
    "   Background:",
];

/// The parser's fault.
fn fault_of(alloc: Global, text: &str) -> Option<ParseFault> {
    match parse(alloc, text) {
        Ok(document) => {
            drop(document);
            None
        }
        Err(fault) => Some(fault),
    }
}

/// Whether the parser's fault and the plain program's are of one kind, at one line and column.
fn is_same(fault: ParseFault, plain: PlainFault) -> bool {
    fault.kind == plain.kind && fault.line == plain.line && fault.column == plain.column
}

/// Whether the parser and the plain program say the same of the text: whether it has a document, and else which fault, and
/// where.
fn agree(alloc: Global, text: &str) -> Result<bool, Fail> {
    if text.len() > 1_000 {
        return Err(Fail::from("a long text"));
    }
    let has_document = has_document(alloc, text)?;
    match (fault_of(alloc, text), fault(alloc, text)?) {
        (None, None) => Ok(has_document),
        (Some(found), Some(plain)) => Ok(!has_document && is_same(found, plain)),
        (None, Some(_)) | (Some(_), None) => Ok(false),
    }
}

/// The lines after the head whose numbers are the digits of the number in base 12, the lowest first.
fn text_at(
    alloc: Global,
    head: &str,
    lines: &[&str; 12],
    number: usize,
    count: u32,
) -> Result<String, Fail> {
    let mut text = String::new(alloc);
    text.push_str(head)?;
    let mut rest = number;
    for _ in 0..count {
        text.push_str(lines[rest % 12])?;
        text.push('\n')?;
        rest /= 12;
    }
    Ok(text)
}

/// Whether they agree on the head and so many of the lines after it, at all numbers below the bound.
fn agree_below(
    alloc: Global,
    head: &str,
    lines: &[&str; 12],
    bound: usize,
    count: u32,
) -> Result<bool, Fail> {
    for number in 0..bound {
        let text = text_at(alloc, head, lines, number, count)?;
        if !agree(alloc, text.as_str())? {
            return Ok(false);
        }
    }
    Ok(true)
}

/// Whether they agree on each of these lines with any three after it.
fn agree_after(alloc: Global, firsts: &[&str]) -> Result<bool, Fail> {
    for first in firsts {
        let mut head = String::new(alloc);
        head.push_str(first)?;
        head.push('\n')?;
        if !agree_below(alloc, head.as_str(), &LINES, 1_728, 3)? {
            return Ok(false);
        }
    }
    Ok(true)
}

#[test]
fn all_texts_of_up_to_three_lines(rt: HostRuntime) -> Result<(), Fail> {
    let a = rt.alloc();
    assert!(rt; agree_below(a, "", &LINES, 1, 0)?);
    assert!(rt; agree_below(a, "", &LINES, 12, 1)?);
    assert!(rt; agree_below(a, "", &LINES, 144, 2)?);
    assert!(rt; agree_below(a, "", &LINES, 1_728, 3)?);
    Ok(())
}

#[test]
fn all_texts_of_four_lines(rt: HostRuntime) -> Result<(), Fail> {
    assert!(rt; agree_after(rt.alloc(), &LINES[..6])?);
    Ok(())
}

#[test]
fn all_other_texts_of_four_lines(rt: HostRuntime) -> Result<(), Fail> {
    assert!(rt; agree_after(rt.alloc(), &LINES[6..])?);
    Ok(())
}

#[test]
fn texts_of_other_lines(rt: HostRuntime) -> Result<(), Fail> {
    let a = rt.alloc();
    assert!(rt; agree_below(a, "", &OTHER_LINES, 1_728, 3)?);
    assert!(rt; agree_below(a, "@t\n", &OTHER_LINES, 144, 2)?);
    assert!(rt; agree_below(a, "# language: en\n", &OTHER_LINES, 144, 2)?);
    Ok(())
}

const HEADS: &str = "Feature: f
Scenario: s
Given x
---
Feature: f
Scenario: s
Given x
| a |
---
Feature: f
Scenario: s
Given x
\"\"\"
---
Feature: f
Scenario: s
Examples:
| a |
---
Feature: f
Rule: r
Background:
Given x
";

#[test]
fn lines_after_steps_and_tables(rt: HostRuntime) -> Result<(), Fail> {
    for head in HEADS.split("---\n") {
        assert!(rt; agree_below(rt.alloc(), head, &OTHER_LINES, 144, 2)?);
    }
    Ok(())
}
