//! Feature files by the command `parse`.
use crate::tests::running::expect_told;
use ck_commands::run;
use devices::{Failing, Pieces, Repeating, Store};
use seeds::fixed_seed;
use std::alloc::Global;
use std::process::Abort;
use std::test::Fail;

// What is reported is one line.
fn expect_parse(
    rt: &impl Abort,
    alloc: Global,
    bytes: &[u8],
    told: &str,
    status: u8,
) -> Result<(), Fail> {
    let line = format!(in alloc; "{told}\n")?;
    expect_told(
        rt,
        alloc,
        "parse",
        Pieces::whole(bytes),
        line.as_str(),
        status,
    );
    Ok(())
}

// What is reported of a feature file, and its lines with a slash between two of them.
const FEATURES: &str = r#"ok nodes=0 comments=0;
refused 1:1 4 UnsupportedLanguage;# language: fr/Feature: x
ok nodes=0 comments=1;Feature: x/# language: fr
refused 2:1 5 UnexpectedEnd;# language: en
ok nodes=0 comments=0;# language: en/Feature: f
refused 1:1 1 Unexpected;Given x/Feature: f
refused 8:1 5 UnexpectedEnd;Feature: f/  Scenario: s/    Given d/    """/  x/    y \"\"\" z/      w
refused 4:1 5 UnexpectedEnd;Feature: f/  Scenario: s/@t
refused 1:3 2 TagSpace;  @a b/Feature: f
refused 5:7 3 CellCount;Feature: f/  Scenario: s/    Given t/      | a | b |/      | a | b | c |
ok nodes=12 comments=0;@f/Feature: f/  Rule: r/    Background:/      Given b/    @s @s/    Scenario Outline: <n> o/      And c/      @e/      Examples:/        | n |/        | 1 |
ok nodes=1 comments=0;Feature: f/  Scenario: s/  Background:
refused 4:3 1 Unexpected;Feature: f/  Scenario: s/    Given a/  Background:
refused 5:5 1 Unexpected;Feature: f/  Scenario: s/    Given a/    | x |/    """
ok nodes=1 comments=1;@t/# language: fr/Feature: f"#;

#[test]
fn features_and_their_faults(rt: HostRuntime) -> Result<(), Fail> {
    for case in FEATURES.lines() {
        let (told, lines) = case.split_once(';').ok_or("no lines")?;
        let status = if told.starts_with("ok") { 0 } else { 1 };
        let text = lines.replace(rt.alloc(), "/", "\n")?;
        expect_parse(&rt, rt.alloc(), text.as_bytes(), told, status)?;
    }
    Ok(())
}

#[test]
fn bytes_that_are_no_text(rt: HostRuntime) -> Result<(), Fail> {
    expect_parse(&rt, rt.alloc(), b"\xff", "trouble NotUtf8", 3)?;
    expect_parse(&rt, rt.alloc(), b"Feature: \xc3", "trouble NotUtf8", 3)
}

#[test]
fn a_told_text_whose_flush_fails(rt: HostRuntime) {
    let seed = fixed_seed().expect(&rt, "a seed");
    let mut source = Pieces::whole(b"Feature: f");
    let mut sink = Store::new(rt.alloc(), 3).failing_flushes(Failing::EverSince(1));
    assert_eq!(rt;
        run(rt.alloc(), seed, &["parse"], &mut source, &mut sink),
        3
    );
    assert_eq!(rt; sink.failed_calls(), 1);
}

// The text is refused once 65,536 bytes beyond the limit were read.
#[test]
fn a_text_without_end(rt: HostRuntime) {
    let seed = fixed_seed().expect(&rt, "a seed");
    let mut source = Repeating::new(b'\xff');
    let mut sink = Store::new(rt.alloc(), 7);
    assert_eq!(rt;
        run(rt.alloc(), seed, &["parse"], &mut source, &mut sink),
        1
    );
    assert_eq!(rt; sink.bytes(), "refused 0:0 6 TooLong\n".as_bytes());
    assert_eq!(rt; source.reads(), 257);
}
