//! Rows come again as they were added.
use std::alloc::Global;
use std::process::Abort;
use std::test::Fail;
use text_rows::{TextRows, Texts};

// Each line is a row, and its texts are parted by bars; and the same with a bar after each, and an empty row.
const ADDED: &str = "id|uri|é|日本\n\n|\nlast||text";

const WANTED: &str = "id|uri|é|日本|\n|\n||\nlast||text|\n\n";

fn row_of(alloc: Global, line: &str) -> Result<Texts, Fail> {
    let mut row = Texts::new(alloc);
    for text in line.split('|') {
        row.add(text)?;
    }
    Ok(row)
}

fn rows_of(alloc: Global) -> Result<TextRows, Fail> {
    let mut rows = TextRows::new(alloc);
    for line in ADDED.split('\n') {
        rows.push(&row_of(alloc, line)?)?;
    }
    rows.push(&Texts::new(alloc))?;
    Ok(rows)
}

#[test]
fn rows_come_as_they_were_added(rt: HostRuntime) -> Result<(), Fail> {
    let rows = rows_of(rt.alloc())?;
    let mut text = String::new(rt.alloc());
    for row in rows.iter() {
        for field in row {
            text.push_str(field)?;
            text.push('|')?;
        }
        text.push('\n')?;
    }
    assert_eq!(rt; text.as_str(), WANTED);
    assert!(rt; rows.find("last").is_some() && rows.find("text").is_none());
    Ok(())
}
