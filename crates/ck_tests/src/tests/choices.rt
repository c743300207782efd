//! What words ask for, without a run.
use ck_command_line::{Choice, Refusal, choose};
use cm_attempt::{Policy, Settings};
use std::test::Fail;

#[test]
fn words_that_ask_for_something(rt: HostRuntime) -> Result<(), Fail> {
    let alloc = rt.alloc();
    let parse = choose(alloc, &["cukecheck", "parse"]);
    assert!(rt; matches!(parse, Ok(Choice::Parse)));
    let compile = choose(alloc, &["cukecheck", "compile", "--uri", "a.feature"]);
    assert!(rt; matches!(compile, Ok(Choice::Compile("a.feature"))));
    let audit = choose(alloc, &["cukecheck", "audit", "--pending-passes"]);
    assert!(rt;
        matches!(
            audit,
            Ok(Choice::Audit(Settings {
                policy: Policy::PendingPasses,
                first_attempt: 0,
                allows_redeclared: false,
            }))
        )
    );
    Ok(())
}

#[test]
fn words_that_ask_for_nothing(rt: HostRuntime) -> Result<(), Fail> {
    let alloc = rt.alloc();
    let mistake = choose(alloc, &["cukecheck", "sing"]);
    assert!(rt; matches!(mistake, Err(Refusal::Usage(_))));
    let help = choose(alloc, &["cukecheck", "help"]);
    assert!(rt; matches!(help, Err(Refusal::Help(_))));
    Ok(())
}
