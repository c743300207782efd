//! More reasons of a kind than a hundred: after the hundredth line stands how many more there are, and then the next kind.
use crate::tests::lines::{repeated, stream_of};
use crate::tests::running::expect_words;
use devices::Pieces;
use std::alloc::Global;
use std::process::Abort;
use std::test::Fail;

// The words of so many test cases of one pickle, each with an attempt that starts where the cases are open.
fn cases_of(alloc: Global, count: u32, are_open: bool) -> Result<String, Fail> {
    let mut words = String::from_str(alloc, "source document pickle hook run")?;
    for number in 0..count {
        words.push_str(format!(in alloc; " case:c{number}:t{number}")?.as_str())?;
    }
    if are_open {
        for number in 0..count {
            words.push_str(format!(in alloc; " start:a{number}:c{number}:0")?.as_str())?;
        }
    }
    Ok(words)
}

// What the gate says of a stream, with this status.
fn expect_gate(rt: &impl Abort, alloc: Global, stream: &str, text: &str, status: u8) {
    let source = Pieces::whole(stream.as_bytes());
    expect_words(rt, alloc, &["gate"], source, text, status);
}

#[test]
fn a_hundred_open_cases_and_more(rt: HostRuntime) -> Result<(), Fail> {
    let alloc = rt.alloc();
    let lines = repeated(alloc, "case a.feature:3 s\n", 100)?;
    let lines = lines.as_str();
    for (count, line, more) in [
        (100u32, 206u32, ""),
        (101, 208, "and 1 more\n"),
        (123, 252, "and 23 more\n"),
    ] {
        let cases = cases_of(alloc, count, true)?;
        let cases = cases.as_str();
        let words = format!(in alloc; "{cases} well")?;
        let stream = stream_of(alloc, words.as_str())?;
        let text = format!(in alloc; "bad line {line}: 19 AttemptOpen\n{lines}{more}")?;
        expect_gate(&rt, alloc, stream.as_str(), text.as_str(), 1);
    }
    Ok(())
}

// After the hundredth case and how many more there are stands the next kind of cause.
#[test]
fn a_hundred_causes_and_more(rt: HostRuntime) -> Result<(), Fail> {
    let alloc = rt.alloc();
    let lines = repeated(alloc, "NONE a.feature:3 s\n", 100)?;
    let lines = lines.as_str();
    let cases = cases_of(alloc, 102, false)?;
    let cases = cases.as_str();
    let words = format!(in alloc; "{cases} hook_start hook_failed unwell")?;
    let stream = stream_of(alloc, words.as_str())?;
    let text = format!(in alloc;
        "good sources=1 pickles=1 cases=102 attempts=0\nstop NotSuccessful\n{lines}and 2 more\nRUNHOOK FAILED hook h\n"
    )?;
    expect_gate(&rt, alloc, stream.as_str(), text.as_str(), 5);
    Ok(())
}

// The lines of a run in which one hook starts so many times.
fn hook_starts(alloc: Global, count: u32) -> Result<String, Fail> {
    let mut stream = stream_of(alloc, "hook run")?;
    for number in 0..count {
        let line = format!(in alloc;
            "{{\"testRunHookStarted\":{{\"id\":\"r{number}\",\"hookId\":\"h\"}}}}\n"
        )?;
        stream.push_str(line.as_str())?;
    }
    Ok(stream)
}

#[test]
fn a_hundred_open_run_hooks_and_more(rt: HostRuntime) -> Result<(), Fail> {
    let alloc = rt.alloc();
    let mut stream = hook_starts(alloc, 102)?;
    stream.push_str(stream_of(alloc, "well")?.as_str())?;
    let lines = repeated(alloc, "hook h\n", 100)?;
    let lines = lines.as_str();
    let text = format!(in alloc; "bad line 105: 23 RunHookOpen\n{lines}and 2 more\n")?;
    expect_gate(&rt, alloc, stream.as_str(), text.as_str(), 1);
    Ok(())
}

// The lines of so many sources that are refused, each with its uri.
fn refused_sources(alloc: Global, count: u32) -> Result<String, Fail> {
    let mut stream = String::new(alloc);
    for number in 0..count {
        let line = format!(in alloc;
            "{{\"source\":{{\"data\":\"Given x\",\"mediaType\":\"text/x.cucumber.gherkin+plain\",\"uri\":\"r{number}.feature\"}}}}\n"
        )?;
        stream.push_str(line.as_str())?;
    }
    Ok(stream)
}

// What is told of the first hundred.
fn refused_lines(alloc: Global) -> Result<String, Fail> {
    let mut text = String::new(alloc);
    for number in 0..100u32 {
        let line = format!(in alloc; "refused r{number}.feature:1:1 1 Unexpected\n")?;
        text.push_str(line.as_str())?;
    }
    Ok(text)
}

// The next kinds are the exception of a run that ends, and the open test case of one that doesn't.
#[test]
fn a_hundred_refused_sources_and_more(rt: HostRuntime) -> Result<(), Fail> {
    let alloc = rt.alloc();
    let lines = refused_lines(alloc)?;
    let lines = lines.as_str();
    let mut stream = refused_sources(alloc, 101)?;
    stream.push_str(stream_of(alloc, "run unwell_exception")?.as_str())?;
    let text = format!(in alloc;
        "good sources=101 pickles=0 cases=0 attempts=0\nstop NotSuccessful\n{lines}and 1 more\nexception\n"
    )?;
    expect_gate(&rt, alloc, stream.as_str(), text.as_str(), 5);
    let mut stream = refused_sources(alloc, 103)?;
    let words = "source document pickle run case:c1:t1 start:a1:c1:0";
    stream.push_str(stream_of(alloc, words)?.as_str())?;
    let text = format!(in alloc;
        "bad line 110: 22 NoRunFinished\n{lines}and 3 more\ncase a.feature:3 s\n"
    )?;
    expect_gate(&rt, alloc, stream.as_str(), text.as_str(), 1);
    Ok(())
}

// The document of an outline with so many rows, from line 6 on.
fn rows_of(alloc: Global, count: u32) -> Result<String, Fail> {
    let mut rows = String::new(alloc);
    for number in 0..count {
        let line = number.saturating_add(6);
        let comma = if number == 0 { "" } else { "," };
        let row = format!(in alloc;
            "{comma}{{\"cells\":[{{\"location\":{{\"column\":9,\"line\":{line}}},\"value\":\"x\"}}],\"id\":\"r{number}\",\"location\":{{\"column\":7,\"line\":{line}}}}}"
        )?;
        rows.push_str(row.as_str())?;
    }
    Ok(rows)
}

// The source and the document of this outline, and a run.
fn outline_of(alloc: Global, count: u32) -> Result<String, Fail> {
    let (cells, rows) = (
        repeated(alloc, "      | x |\\n", count)?,
        rows_of(alloc, count)?,
    );
    let (cells, rows) = (cells.as_str(), rows.as_str());
    let run = stream_of(alloc, "run well")?;
    let run = run.as_str();
    Ok(format!(in alloc;
        "{{\"source\":{{\"data\":\"Feature: f\\n  Scenario: s\\n    Given <a>\\n    Examples:\\n      | a |\\n{cells}\",\"mediaType\":\"text/x.cucumber.gherkin+plain\",\"uri\":\"o.feature\"}}}}
{{\"gherkinDocument\":{{\"comments\":[],\"feature\":{{\"children\":[{{\"scenario\":{{\"description\":\"\",\"examples\":[{{\"description\":\"\",\"id\":\"e\",\"keyword\":\"Examples\",\"location\":{{\"column\":5,\"line\":4}},\"name\":\"\",\"tableBody\":[{rows}],\"tableHeader\":{{\"cells\":[{{\"location\":{{\"column\":9,\"line\":5}},\"value\":\"a\"}}],\"id\":\"h\",\"location\":{{\"column\":7,\"line\":5}}}},\"tags\":[]}}],\"id\":\"s\",\"keyword\":\"Scenario\",\"location\":{{\"column\":3,\"line\":2}},\"name\":\"s\",\"steps\":[{{\"id\":\"t\",\"keyword\":\"Given \",\"keywordType\":\"Context\",\"location\":{{\"column\":5,\"line\":3}},\"text\":\"<a>\"}}],\"tags\":[]}}}}],\"description\":\"\",\"keyword\":\"Feature\",\"language\":\"en\",\"location\":{{\"column\":1,\"line\":1}},\"name\":\"f\",\"tags\":[]}},\"uri\":\"o.feature\"}}}}
{run}"
    )?)
}

#[test]
fn a_hundred_missing_pickles_and_more(rt: HostRuntime) -> Result<(), Fail> {
    let alloc = rt.alloc();
    let stream = outline_of(alloc, 102)?;
    let mut text = String::from_str(alloc, "bad line 4: 20 SourceIncomplete\nuri o.feature\n")?;
    for line in 6..106u32 {
        text.push_str(format!(in alloc; "missing o.feature:{line} s\n")?.as_str())?;
    }
    text.push_str("and 2 more\n")?;
    expect_gate(&rt, alloc, stream.as_str(), text.as_str(), 1);
    Ok(())
}
