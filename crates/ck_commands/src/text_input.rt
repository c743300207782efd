//! A text, read whole from a source.
ghost use Rattle.std.specs.Prelude.{◌≡◌, ◌+◌, ◌≤◌, ℕ, List, [], true, length, string_bytes, IfOk, IfErr, OnOk};
ghost use Rattle.cm_envelope.specs.Device.{CountsFailure, Hears, OfInput, OfWhole};
ghost use Rattle.cm_envelope.specs.Lines.{max_piece_bytes};
ghost use Rattle.gk_grammar.specs.Documents.{max_bytes};
ghost use Rattle.ck_commands.specs.TextInput.{HasBytesFault, HasTextFault, IsTextOf, is_failed_text_read};

use cm_envelope::{ByteSource, DeviceFailed, PIECE_LIMIT};
use gk_line::FEATURE_LIMIT;
use std::alloc::{AllocError, Global};
use thiserror::Error;

/// Why a source gives no text.
#[derive(Clone, Copy, PartialEq, Eq, Debug, Error)]
pub enum TextFault {
    /// A read failed.
    #[error("a read failed")]
    ReadFailed,
    /// There are more bytes than the limit.
    #[error("the text is too long")]
    TooLong,
    /// The bytes are no UTF-8.
    #[error("the bytes are no UTF-8")]
    NotUtf8,
    /// There is no memory for the text.
    #[error("out of memory")]
    Memory,
}

impl From<DeviceFailed> for TextFault {
    ghost use Rattle.ck_commands.specs.declared.text_input.TextFault.TheVariants.{ReadFailed};

    ghost from_gives = { λ _ fault. fault ≡ ReadFailed };

    fn from(_failed: DeviceFailed) -> TextFault {
        TextFault::ReadFailed
    }
}

impl From<AllocError> for TextFault {
    ghost use Rattle.ck_commands.specs.declared.text_input.TextFault.TheVariants.{Memory};

    ghost from_gives = { λ _ fault. fault ≡ Memory };

    fn from(_refused: AllocError) -> TextFault {
        TextFault::Memory
    }
}

/// Puts all bytes of the source into `bytes`, at most the limit. A read takes at most the length of `piece`, and there is room for
/// what it takes before it is made.
fn gather<R: ByteSource>(
    source: &mut R,
    piece: &mut [u8],
    bytes: &mut Vec<u8>,
) -> Result<(), TextFault>
    requires room { length piece.old ≡ max_piece_bytes }
    requires none { bytes.old.items ≡ [] }
    ensures few { (read : List ℕ) × Hears (R.input source.old) (R.input source.new) read
        × (length read ≤ max_bytes + max_piece_bytes) }
    ensures ok { OnOk result ((length bytes.new.items ≤ max_bytes)
        × Hears (R.input source.old) (R.input source.new) bytes.new.items
        × ((R.input source.new).is_over ≡ true)) }
    ensures err { IfErr result (λ fault. OfInput (R.input source.old) (R.input source.new)
        (λ all. HasBytesFault all fault)) }
    ensures failures { CountsFailure (is_failed_text_read result)
        (R.input source.old).failed_calls (R.input source.new).failed_calls }
{
    'pieces: while bytes.len() <= FEATURE_LIMIT {
        bytes.reserve(PIECE_LIMIT)?;
        let count = source.read_some(piece)?;
        if count == 0 {
            return Ok(());
        }
        bytes.extend_from_slice(&piece[..count])?;
    }
    Err(TextFault::TooLong)
}

/// All bytes of the source, at most the limit.
fn read_bytes<R: ByteSource>(alloc: Global, source: &mut R) -> Result<Vec<u8>, TextFault>
    ensures few { (read : List ℕ) × Hears (R.input source.old) (R.input source.new) read
        × (length read ≤ max_bytes + max_piece_bytes) }
    ensures ok { IfOk result (λ bytes. (length bytes.items ≤ max_bytes)
        × Hears (R.input source.old) (R.input source.new) bytes.items
        × ((R.input source.new).is_over ≡ true)) }
    ensures err { IfErr result (λ fault. OfInput (R.input source.old) (R.input source.new)
        (λ all. HasBytesFault all fault)) }
    ensures failures { CountsFailure (is_failed_text_read result)
        (R.input source.old).failed_calls (R.input source.new).failed_calls }
{
    let mut piece = Vec::new(alloc);
    piece.resize(PIECE_LIMIT, 0)?;
    let mut bytes = Vec::new(alloc);
    gather(source, piece.as_mut_slice(), &mut bytes)?;
    Ok(bytes)
}

/// Reads a source to its end, as UTF-8. It reads at most 65,536 bytes at a time and as many past the limit, and repeats
/// no read.
///
/// # Errors
/// A read failed; or there are more than 16,777,216 bytes, else they aren't UTF-8; or memory was refused.
pub fn read_text<R: ByteSource>(alloc: Global, source: &mut R) -> Result<String, TextFault>
    ensures ok { IfOk result (λ text. OfWhole (R.input source.old) (R.input source.new)
        (λ bytes. IsTextOf bytes (string_bytes text))) }
    ensures fault { IfErr result (λ fault. OfInput (R.input source.old) (R.input source.new)
        (λ bytes. HasTextFault bytes fault)) }
    ensures few { (read : List ℕ) × Hears (R.input source.old) (R.input source.new) read
        × (length read ≤ max_bytes + max_piece_bytes) }
    ensures failures { CountsFailure (is_failed_text_read result)
        (R.input source.old).failed_calls (R.input source.new).failed_calls }
{
    let bytes = read_bytes(alloc, source)?;
    match String::from_utf8(bytes) {
        Ok(text) => Ok(text),
        Err(_) => Err(TextFault::NotUtf8),
    }
}
