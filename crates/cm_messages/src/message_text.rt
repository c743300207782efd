//! The texts of messages.
ghost use Rattle.std.specs.Prelude.{◌≡◌, ◌+◌, ◌<◌, ◌^◌, length, IfOk};
ghost use Rattle.serde_json.specs.Written.{compact_text};
ghost use Rattle.cm_messages.specs.SourceLayout.{source_data};
ghost use Rattle.cm_messages.specs.DocumentLayout.{document_data};
ghost use Rattle.cm_messages.specs.PickleLayout.{pickle_data};

use crate::document_message::DocumentMessage;
use crate::pickle_message::PickleMessage;
use crate::send::{MessageLayout, SendJson, json_text, send_str};
use gk_document::Document;
use gk_pickle::Pickle;
use serde::Serializer;
use std::alloc::{AllocError, Global};

/// The envelope of a source as compact JSON, with the text as given. Its members are those of Cucumber Messages'
/// `Source.json`, in the byte order of their names.
///
/// # Errors
/// Where there is no memory for it, as `serde_json` says.
pub fn source_text(alloc: Global, uri: &str, text: &str) -> Result<Vec<u8>, AllocError>
    ensures { IfOk result (λ bytes. bytes.items ≡ compact_text (source_data uri.now text.now)) }
{
    let bytes = json_text(alloc, &SourceMessage { uri, text })?;
    Ok(bytes)
}

/// The envelope of a document as compact JSON. Its nodes have their numbers as ids. Its members are those of Cucumber
/// Messages' `GherkinDocument.json`, in the byte order of their names. `feature`, `tableHeader`, `dataTable`,
/// `docString` and `mediaType` are absent where there is none.
///
/// # Errors
/// Where there is no memory for it, as `serde_json` says.
pub fn document_text(alloc: Global, uri: &str, document: &Document) -> Result<Vec<u8>, AllocError>
    ensures { IfOk result
        (λ bytes. bytes.items ≡ compact_text (document_data uri.now document.now)) }
{
    let bytes = json_text(alloc, &DocumentMessage { uri, document })?;
    Ok(bytes)
}

/// The envelope of a pickle as compact JSON. Its steps take the ids from `first_id` on, in order, and the pickle the
/// one after them. Its members are those of Cucumber Messages' `Pickle.json`, in the byte order of their names.
/// `argument` and a doc string's `mediaType` are absent where there is none.
///
/// # Errors
/// Where there is no memory for it, as `serde_json` says.
pub fn pickle_text(
    alloc: Global,
    uri: &str,
    pickle: &Pickle,
    first_id: u64,
) -> Result<Vec<u8>, AllocError>
    requires { first_id + length pickle.now.steps < 2 ^ 64 }
    ensures { IfOk result
        (λ bytes. bytes.items ≡ compact_text (pickle_data uri.now first_id pickle.now)) }
{
    let message = PickleMessage {
        uri,
        pickle,
        first_id,
    };
    let bytes = json_text(alloc, &message)?;
    Ok(bytes)
}

/// A source, written as its envelope: its members are those of Cucumber Messages' `Source.json`, in the byte order of their
/// names.
#[derive(Clone, Copy)]
pub(crate) struct SourceMessage<'a> {
    pub(crate) uri: &'a str,
    pub(crate) text: &'a str,
}

impl SendJson<MessageLayout> for SourceMessage<'_> {
    ghost json = { λ m. source_data m.uri.now m.text.now };

    fn send<S: Serializer>(&self, out: &mut S) -> Result<(), S::Error> {
        out.begin_map(Some(1))?;
        out.key("source")?;
        out.begin_map(Some(3))?;
        send_str("data", self.text, out)?;
        send_str("mediaType", "text/x.cucumber.gherkin+plain", out)?;
        send_str("uri", self.uri, out)?;
        out.end_map()?;
        out.end_map()
    }
}
