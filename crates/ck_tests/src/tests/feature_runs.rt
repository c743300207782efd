//! The gate over feature files, and runs that are parts.
use crate::tests::memory_files::{A_RUN, BAD_RUN, EMPTY_RUN, expect_gate};
use ck_commands::run;
use devices::{Pieces, Store};
use seeds::fixed_seed;
use std::test::Fail;

#[test]
fn each_scenario_ran_in_one_of_the_runs(rt: HostRuntime) -> Result<(), Fail> {
    let text = "a: good sources=1 pickles=1 cases=1 attempts=1
b: good sources=1 pickles=1 cases=1 attempts=1
release files=2 scenarios=2 retried=0 skipped=0 unrun=0
";
    let paths = [
        "gate",
        "--features",
        "b.feature",
        "--features",
        "a.feature",
        "a",
        "b",
    ];
    expect_gate(&rt, rt.alloc(), &paths, BAD_RUN, text, 0)?;
    let below = "a: good sources=1 pickles=1 cases=1 attempts=1
b: good sources=1 pickles=1 cases=1 attempts=1
release files=3 scenarios=2 retried=0 skipped=0 unrun=0
";
    let folder = ["gate", "a", "--features", "f", "b"];
    expect_gate(&rt, rt.alloc(), &folder, BAD_RUN, below, 0)
}

// A path, and what of its feature files the run `a` lacks.
const LACKS: [(&str, &str); 4] = [
    ("f", "MISSING f/b.feature:3 t"),
    ("older.feature", "MISSING older.feature:3 s"),
    ("tagged.feature", "MISSING tagged.feature:4 s"),
    ("x\n\u{202e}.feature", r"MISSING x\n\u202e.feature:3 t"),
];

// A part is lost, a text is older, a tag isn't allowed, and a path would break the line.
#[test]
fn what_no_run_has_is_missing(rt: HostRuntime) -> Result<(), Fail> {
    let alloc = rt.alloc();
    for (path, missing) in LACKS {
        let text = format!(in alloc;
            "a: good sources=1 pickles=1 cases=1 attempts=1\nstop Missing\n{missing}\n"
        )?;
        let words = ["gate", "--features", path, "a"];
        expect_gate(&rt, alloc, &words, BAD_RUN, text.as_str(), 5)?;
    }
    Ok(())
}

#[test]
fn a_row_that_no_part_ran_is_missing(rt: HostRuntime) -> Result<(), Fail> {
    let text = "rows: good sources=1 pickles=3 cases=2 attempts=2 unrun=1
stop Missing
MISSING outline.feature:6 s
";
    let words = ["gate", "--features", "outline.feature", "rows"];
    expect_gate(&rt, rt.alloc(), &words, BAD_RUN, text, 5)
}

#[test]
fn standard_input_is_the_run_where_none_is_named(rt: HostRuntime) -> Result<(), Fail> {
    let text = "good sources=1 pickles=1 cases=1 attempts=1
release files=1 scenarios=1 retried=0 skipped=0 unrun=0
";
    let words = ["gate", "--features", "a.feature"];
    expect_gate(&rt, rt.alloc(), &words, A_RUN, text, 0)?;
    let named = "-: good sources=1 pickles=1 cases=1 attempts=1
release files=1 scenarios=1 retried=0 skipped=0 unrun=0
";
    let words = ["gate", "--features", "a.feature", "-"];
    expect_gate(&rt, rt.alloc(), &words, A_RUN, named, 0)
}

#[test]
fn counts_are_added_over_the_runs(rt: HostRuntime) -> Result<(), Fail> {
    let text = "retried: good sources=1 pickles=1 cases=1 attempts=2
retried: good sources=1 pickles=1 cases=1 attempts=2
release files=1 scenarios=1 retried=2 skipped=0 unrun=0
";
    let words = ["gate", "--features", "a.feature", "retried", "retried"];
    expect_gate(&rt, rt.alloc(), &words, BAD_RUN, text, 0)
}

#[test]
fn a_refused_file_is_told(rt: HostRuntime) -> Result<(), Fail> {
    let text = "a: good sources=1 pickles=1 cases=1 attempts=1
stop Missing
REFUSED refused.feature:1:1 1 Unexpected
";
    let words = [
        "gate",
        "--features",
        "a.feature",
        "--features",
        "refused.feature",
        "a",
    ];
    expect_gate(&rt, rt.alloc(), &words, BAD_RUN, text, 5)
}

#[test]
fn a_scenario_with_an_allowed_tag_may_be_left_out(rt: HostRuntime) -> Result<(), Fail> {
    let text = "a: good sources=1 pickles=1 cases=1 attempts=1
release files=1 scenarios=1 retried=0 skipped=0 unrun=1
";
    let words = [
        "gate",
        "--features",
        "tagged.feature",
        "--allow-unrun-tagged",
        "@slow",
        "a",
    ];
    expect_gate(&rt, rt.alloc(), &words, BAD_RUN, text, 0)
}

#[test]
fn a_held_run_keeps_the_release_back(rt: HostRuntime) -> Result<(), Fail> {
    let text = "a: good sources=1 pickles=1 cases=1 attempts=1
failed: good sources=1 pickles=1 cases=1 attempts=1
failed: stop NotSuccessful
failed: FAILED a.feature:3 s step a.feature:4 a
missing: trouble ReadFailed
";
    let words = ["gate", "--features", "a.feature", "a", "failed", "missing"];
    expect_gate(&rt, rt.alloc(), &words, BAD_RUN, text, 5)?;
    let strict = "rows: good sources=1 pickles=3 cases=2 attempts=2 unrun=1
rows: stop Skipped
rows: SKIPPED o.feature:8 s
";
    let words = ["gate", "--strict", "--features", "outline.feature", "rows"];
    expect_gate(&rt, rt.alloc(), &words, BAD_RUN, strict, 5)
}

#[test]
fn a_text_is_asked_once(rt: HostRuntime) -> Result<(), Fail> {
    let text = "stop Missing
MISSING f/g/a.feature:3 s
";
    let words = [
        "gate",
        "--features",
        "f/g/a.feature",
        "--features",
        "a.feature",
        "--features",
        "f/g/a.feature",
    ];
    let mut whole = String::from_str(rt.alloc(), "good sources=0 pickles=0 cases=0 attempts=0\n")?;
    whole.push_str(text)?;
    expect_gate(&rt, rt.alloc(), &words, EMPTY_RUN, whole.as_str(), 5)
}

#[test]
fn no_run_at_all_is_empty(rt: HostRuntime) -> Result<(), Fail> {
    let text = "good sources=0 pickles=0 cases=0 attempts=0
stop Empty
";
    let words = [
        "gate",
        "--features",
        "tagged.feature",
        "--allow-unrun-tagged",
        "@wip",
    ];
    expect_gate(&rt, rt.alloc(), &words, EMPTY_RUN, text, 5)
}

#[test]
fn a_path_with_trouble_is_told_before_any_run(rt: HostRuntime) -> Result<(), Fail> {
    let rows = [
        ("nowhere", "trouble ReadFailed nowhere\n"),
        ("none.feature", "trouble ReadFailed none.feature\n"),
        ("empty", "trouble NoFeatures empty\n"),
        ("linked", "trouble LinkedFolder linked/away\n"),
        ("broken", "trouble NotUtf8 broken\n"),
        ("broken.feature", "trouble NotUtf8 broken.feature\n"),
        ("a\n\u{202e}", "trouble ReadFailed a\\n\\u202e\n"),
    ];
    for (path, text) in rows {
        let words = ["gate", "--features", "a.feature", "--features", path, "a"];
        expect_gate(&rt, rt.alloc(), &words, BAD_RUN, text, 3)?;
    }
    Ok(())
}

#[test]
fn without_files_no_feature_can_be_read(rt: HostRuntime) -> Result<(), Fail> {
    let seed = fixed_seed().expect(&rt, "a seed");
    let mut source = Pieces::whole(b"");
    let mut sink = Store::new(rt.alloc(), 7);
    let words = ["gate", "--features", "a.feature"];
    let code = run(rt.alloc(), seed, &words, &mut source, &mut sink);
    assert_eq!(rt; sink.bytes(), b"trouble ReadFailed a.feature\n".as_slice());
    assert_eq!(rt; code, 3);
    Ok(())
}
