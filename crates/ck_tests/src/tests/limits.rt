//! Streams without end: a line has at most 67,108,864 bytes without its line feed, a stream at most 1,073,741,824 bytes with all
//! line feeds, and no byte beyond is asked for. Their sources make up the bytes, so that no stream is held.
use ck_commands::run;
use devices::{Repeating, Store};
use seeds::fixed_seed;
use std::alloc::Global;
use std::process::Abort;

fn expect_trouble(rt: &impl Abort, alloc: Global, source: Repeating, told: &str) {
    let seed = fixed_seed().expect(rt, "a seed");
    let mut source = source;
    let mut sink = Store::new(alloc, 7);
    assert_eq!(rt; run(alloc, seed, &["audit"], &mut source, &mut sink), 3);
    assert_eq!(rt; sink.bytes(), told.as_bytes());
}

#[test]
fn a_line_without_end(rt: HostRuntime) {
    let spaces = Repeating::new(b' ');
    expect_trouble(&rt, rt.alloc(), spaces, "trouble LineTooLong\n");
}

#[test]
fn a_stream_without_end(rt: HostRuntime) {
    let blanks = Repeating::new(b' ').in_lines_of(65_536);
    expect_trouble(&rt, rt.alloc(), blanks, "trouble StreamTooLong\n");
}
