//! How a command ends: its exit status, and the report that it writes last.
ghost use Rattle.std.specs.Prelude.{◌≡◌, IfOk, List, string_bytes, ◌≤◌, ◌++◌, ℕ};
ghost use Rattle.cm_envelope.specs.Device.{Writes, greatest_count};
ghost use Rattle.ck_commands.specs.Output.{code_of, Delivers, DeliversWritten, report_made, trouble_name, trouble_report};
ghost use Rattle.ck_commands.specs.Output.{write_failed_text};
ghost use Rattle.ck_commands.specs.Statuses.{reported_word};

use cm_attempt::Status;
use cm_envelope::{ByteSink, DeviceFailed, Trouble, write_all};
use cm_reasons::status_word;
use std::alloc::{AllocError, Global};

/// How a run of the program ends.
#[derive(Clone, Copy, Debug, PartialEq, Eq)]
pub enum ExitStatus {
    /// It did what it was asked: a stream is good, a run may be released, a feature file or help is printed.
    Done,
    /// A line of the stream is bad, or the feature file is refused.
    Refused,
    /// The arguments ask for no command.
    Usage,
    /// A read or a write failed, memory was refused, or the input is beyond a limit or no text.
    Trouble,
    /// The stream is not judged.
    Unsupported,
    /// The stream is good, and its run isn't to be released.
    Held,
}

impl ExitStatus {
    /// The number that the program exits with.
    pub fn code(self) -> u8
        ensures { result ≡ code_of self }
    {
        match self {
            ExitStatus::Done => 0,
            ExitStatus::Refused => 1,
            ExitStatus::Usage => 2,
            ExitStatus::Trouble => 3,
            ExitStatus::Unsupported => 4,
            ExitStatus::Held => 5,
        }
    }
}

/// What a command prints, and its status.
#[derive(Drop)]
pub(crate) struct Report {
    pub text: String,
    pub status: ExitStatus,
}

/// The name of a trouble.
fn trouble_name(trouble: Trouble) -> &'static str
    ensures { result.now ≡ trouble_name trouble }
{
    match trouble {
        Trouble::ReadFailed => "ReadFailed",
        Trouble::LineTooLong => "LineTooLong",
        Trouble::StreamTooLong => "StreamTooLong",
        Trouble::Memory => "Memory",
    }
}

/// The text that says why no further line could be read.
pub(crate) fn trouble_text(alloc: Global, reason: Trouble) -> Result<String, AllocError>
    ensures { IfOk result (λ text. string_bytes text ≡ (trouble_report reason).text) }
{
    let name = trouble_name(reason);
    let text = format!(in alloc; "trouble {name}\n")?;
    Ok(text)
}

/// Tries to write `trouble WriteFailed`, as far as the sink takes it.
pub(crate) fn write_trouble<W: ByteSink>(sink: &mut W) -> u8
    ensures status { result ≡ code_of ExitStatus.Trouble }
    ensures front { (told : List ℕ) × (untold : List ℕ) × (write_failed_text ≡ told ++ untold)
        × Writes (W.output sink.old) (W.output sink.new) told }
    ensures counted { (W.output sink.old).failed_calls ≤ greatest_count
        → (W.output sink.old).failed_calls ≤ (W.output sink.new).failed_calls }
{
    if write_all(sink, b"trouble WriteFailed\n").is_ok() {
        let _ = sink.flush().is_ok();
    }
    ExitStatus::Trouble.code()
}

/// Flushes a text that was written, and gives the status's code, or that of trouble where the flush failed.
pub(crate) fn flush_text<W: ByteSink>(sink: &mut W, status: ExitStatus) -> u8
    ensures { DeliversWritten status result (W.output sink.old) (W.output sink.new) }
{
    match sink.flush() {
        Ok(()) => status.code(),
        Err(DeviceFailed) => ExitStatus::Trouble.code(),
    }
}

/// Writes the text and flushes it, and gives the status's code, or that of trouble where a write or the flush failed. After a
/// failed write it tries to write `trouble WriteFailed`, as far as the sink takes it.
pub(crate) fn write_text<W: ByteSink>(sink: &mut W, text: &str, status: ExitStatus) -> u8
    ensures { Delivers (record { text = text.now; status = status }) result (W.output sink.old)
        (W.output sink.new) }
{
    match write_all(sink, text.as_bytes()) {
        Ok(()) => flush_text(sink, status),
        Err(DeviceFailed) => write_trouble(sink),
    }
}

/// Writes that there was no memory.
pub(crate) fn write_no_memory<W: ByteSink>(sink: &mut W) -> u8
    ensures { Delivers (trouble_report Trouble.Memory) result (W.output sink.old)
        (W.output sink.new) }
{
    write_text(sink, "trouble Memory\n", ExitStatus::Trouble)
}

/// Writes the report, or that there was no memory for one.
pub(crate) fn write_report<W: ByteSink>(sink: &mut W, report: Result<Report, AllocError>) -> u8
    ensures { Delivers (report_made report) result (W.output sink.old) (W.output sink.new) }
{
    match report {
        Ok(report) => write_text(sink, report.text.as_str(), report.status),
        Err(AllocError) => write_no_memory(sink),
    }
}

/// The word of a status, as the Cucumber Messages have it, and `NONE` where there is none.
pub(crate) fn reported_status(status: Option<Status>) -> &'static str
    ensures { result.now ≡ reported_word status }
{
    match status {
        Some(status) => status_word(status),
        None => "NONE",
    }
}
