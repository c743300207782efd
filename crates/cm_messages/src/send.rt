//! Values sent to a serializer as JSON, with no value in between.
ghost use Rattle.std.specs.Prelude.{◌≡◌, ◌≤◌, [], ◌∷◌, map, codes, OnOk, option_map, IfOk, false, ◌<◌};
ghost use Rattle.serde.specs.Event.{WritesEach};
ghost use Rattle.serde_json.specs.Data.{Data, number, string, unsigned, array};
ghost use Rattle.serde_json.specs.Events.{SendsValue};
ghost use Rattle.cm_messages.specs.Layout.{object_of, id_data, list_data, media_data};
ghost use Rattle.cm_messages.specs.Sending.{SendsMember, SendsOptional, option_count};
ghost use Rattle.serde_json.specs.Written.{compact_text, has_float};
ghost use Rattle.cm_messages.specs.PickleLayout.{pickle_cell_data, pickle_row_data};

use gk_document::{Sequence, Text};
use itoa::Buffer;
use serde::{Described, Serialize, Serializer};
use serde_json::to_vec;
use std::alloc::{AllocError, Global};
use std::marker::PhantomData;

/// A value that is sent to a serializer as JSON in a layout: which members it has, and what they hold.
pub trait SendJson<Layout> {
    // the value in that layout
    ghost json: { Self → Data };

    /// Sends the value.
    ///
    /// # Errors
    /// Those of the serializer.
    fn send<S: Serializer>(&self, out: &mut S) -> Result<(), S::Error>
        ensures { OnOk result
            (SendsValue (json self.now) (S.written out.old) (S.written out.new)) };
}

/// The layout of Cucumber Messages.
#[derive(Clone, Copy)]
pub struct MessageLayout;

/// An id, as the text of its number.
fn send_id<S: Serializer>(id: u64, out: &mut S) -> Result<(), S::Error>
    ensures { OnOk result (SendsValue (id_data id) (S.written out.old) (S.written out.new)) }
{
    let mut digits = Buffer::new();
    out.str(digits.format(id))
}

/// An id.
impl SendJson<MessageLayout> for u64 {
    ghost json = { id_data };

    fn send<S: Serializer>(&self, out: &mut S) -> Result<(), S::Error> {
        send_id(*self, out)
    }
}

/// Sends the values, one after the other.
fn send_each<Layout, T: SendJson<Layout>, S: Serializer>(
    items: &[T],
    out: &mut S,
) -> Result<(), S::Error>
    ensures { OnOk result (WritesEach SendsValue (map T.json items.now)
        (S.written out.old) (S.written out.new)) }
{
    'items: for item in items {
        item.send(out)?;
    }
    Ok(())
}

/// Sends the values as an array.
///
/// # Errors
/// Those of the serializer.
pub fn send_list<Layout, T: SendJson<Layout>, S: Serializer>(
    items: &[T],
    out: &mut S,
) -> Result<(), S::Error>
    ensures { OnOk result
        (SendsValue (list_data T.json items.now) (S.written out.old) (S.written out.new)) }
{
    let count = items.len();
    out.begin_seq(Some(count))?;
    send_each(items, out)?;
    out.end_seq()
}

/// Sends a member that holds a value.
///
/// # Errors
/// Those of the serializer.
pub fn send_member<Layout, T: SendJson<Layout>, S: Serializer>(
    name: &str,
    value: &T,
    out: &mut S,
) -> Result<(), S::Error>
    ensures { OnOk result
        (SendsMember name.now (T.json value.now) (S.written out.old) (S.written out.new)) }
{
    out.key(name)?;
    value.send(out)
}

/// Sends a member that holds characters.
///
/// # Errors
/// Those of the serializer.
pub fn send_str<S: Serializer>(name: &str, text: &str, out: &mut S) -> Result<(), S::Error>
    ensures { OnOk result
        (SendsMember name.now (string text.now) (S.written out.old) (S.written out.new)) }
{
    out.key(name)?;
    out.str(text)
}

/// Sends a member that holds a text.
///
/// # Errors
/// Those of the serializer.
pub fn send_text<S: Serializer>(name: &str, text: &Text, out: &mut S) -> Result<(), S::Error>
    ensures { OnOk result
        (SendsMember name.now (string text.now) (S.written out.old) (S.written out.new)) }
{
    send_str(name, text.as_str(), out)
}

/// Sends a member that holds a number.
///
/// # Errors
/// Those of the serializer.
pub fn send_number<S: Serializer>(name: &str, value: u32, out: &mut S) -> Result<(), S::Error>
    ensures { OnOk result (SendsMember name.now (number (unsigned value))
        (S.written out.old) (S.written out.new)) }
{
    out.key(name)?;
    out.u64(u64::from(value))
}

/// Sends a member that holds a list.
///
/// # Errors
/// Those of the serializer.
pub fn send_list_member<Layout, T: SendJson<Layout>, S: Serializer>(
    name: &str,
    items: &Sequence<T>,
    out: &mut S,
) -> Result<(), S::Error>
    ensures { OnOk result (SendsMember name.now (list_data T.json items.now)
        (S.written out.old) (S.written out.new)) }
{
    out.key(name)?;
    send_list(items.as_slice(), out)
}

/// 1 where there is a value, and else 0: how many members it comes to.
pub fn one_if<T>(value: &Option<T>) -> usize
    ensures is { result ≡ option_count value.now }
    ensures few { result ≤ 1 }
{
    match value {
        Some(_) => 1,
        None => 0,
    }
}

/// Sends a member, where there is a value for it.
///
/// # Errors
/// Those of the serializer.
pub fn send_optional<Layout, T: SendJson<Layout>, S: Serializer>(
    name: &str,
    value: &Option<T>,
    out: &mut S,
) -> Result<(), S::Error>
    ensures { OnOk result (SendsOptional name.now (option_map T.json value.now)
        (S.written out.old) (S.written out.new)) }
{
    match value {
        Some(value) => send_member(name, value, out),
        None => Ok(()),
    }
}

/// The media type of a doc string that has one.
pub(crate) fn media_of(media: &Option<Text>) -> Option<&str>
    ensures { option_map (λ m. string m.now) result ≡ media_data media.now }
{
    match media {
        Some(media) if !media.is_empty() => Some(media.as_str()),
        _ => None,
    }
}

/// Sends the member `mediaType`, where there is a media type.
pub(crate) fn send_media<S: Serializer>(media: &Option<Text>, out: &mut S) -> Result<(), S::Error>
    ensures { OnOk result (SendsOptional (codes "mediaType") (media_data media.now)
        (S.written out.old) (S.written out.new)) }
{
    match media_of(media) {
        Some(media) => send_str("mediaType", media, out),
        None => Ok(()),
    }
}

/// Sends an object of one member.
///
/// # Errors
/// Those of the serializer.
pub fn send_only<Layout, T: SendJson<Layout>, S: Serializer>(
    name: &str,
    value: &T,
    out: &mut S,
) -> Result<(), S::Error>
    ensures { OnOk result (SendsValue (object_of ((name.now, T.json value.now) ∷ []))
        (S.written out.old) (S.written out.new)) }
{
    out.begin_map(Some(1))?;
    send_member(name, value, out)?;
    out.end_map()
}

/// Sends an object of one member, which holds a list.
///
/// # Errors
/// Those of the serializer.
pub fn send_only_list<Layout, T: SendJson<Layout>, S: Serializer>(
    name: &str,
    items: &Sequence<T>,
    out: &mut S,
) -> Result<(), S::Error>
    ensures { OnOk result (SendsValue (object_of ((name.now, list_data T.json items.now) ∷ []))
        (S.written out.old) (S.written out.new)) }
{
    out.begin_map(Some(1))?;
    send_list_member(name, items, out)?;
    out.end_map()
}

/// Sends objects of one member each, one after the other.
pub(crate) fn send_each_only<Layout, T: SendJson<Layout>, S: Serializer>(
    name: &str,
    items: &[T],
    out: &mut S,
) -> Result<(), S::Error>
    ensures { OnOk result
        (WritesEach SendsValue (map (λ x. object_of ((name.now, T.json x) ∷ [])) items.now)
        (S.written out.old) (S.written out.new)) }
{
    'items: for item in items {
        send_only(name, item, out)?;
    }
    Ok(())
}

/// A value in a layout, as `serde` takes it.
#[derive(Drop)]
struct Sent<'a, Layout, T> {
    value: &'a T,
    layout: PhantomData<Layout>,
}

impl<Layout, T: SendJson<Layout>> Described for Sent<'_, Layout, T> {
    ghost writes = { λ s. SendsValue (T.json s.value.now) };
}

impl<Layout, T: SendJson<Layout>> Serialize for Sent<'_, Layout, T> {
    fn serialize<S: Serializer>(&self, out: &mut S) -> Result<(), S::Error> {
        self.value.send(out)
    }
}

/// The value as compact JSON. Each error of the serializer is given as want of memory: no part of a value is one
/// that it refuses otherwise.
///
/// # Errors
/// Where there is no memory for it, as `serde_json` says.
pub fn json_text<Layout, T: SendJson<Layout>>(
    alloc: Global,
    value: &T,
) -> Result<Vec<u8>, AllocError>
    ensures { IfOk result (λ bytes. has_float (T.json value.now) ≡ false
        → bytes.items ≡ compact_text (T.json value.now)) }
{
    let sent = Sent {
        value,
        layout: PhantomData,
    };
    match to_vec(alloc, &sent) {
        Ok(bytes) => Ok(bytes),
        Err(_) => Err(AllocError),
    }
}

/// A cell of a table.
impl SendJson<MessageLayout> for Text {
    ghost json = { pickle_cell_data };

    fn send<S: Serializer>(&self, out: &mut S) -> Result<(), S::Error> {
        out.begin_map(Some(1))?;
        send_text("value", self, out)?;
        out.end_map()
    }
}

/// A row of a table.
impl SendJson<MessageLayout> for Sequence<Text> {
    ghost json = { pickle_row_data };

    fn send<S: Serializer>(&self, out: &mut S) -> Result<(), S::Error> {
        send_only_list("cells", self, out)
    }
}
