//! Members of a JSON object, by name, and lists of objects. Null is absence.
ghost use Rattle.std.specs.Prelude.{◌≡◌, map, None, is_some, option_map, option_and_then, Result, List, ℕ};
ghost use Rattle.serde_json.specs.Find.{as_str, as_bool};
ghost use Rattle.serde_json.specs.View.{view, items_view};
ghost use Rattle.cm_envelope.specs.Member.{present_member, member_of, required_in, optional_in, optional_or_in};
ghost use Rattle.cm_reading.specs.Giving.{GivesMember};
ghost use Rattle.cm_envelope.specs.Member.{as_whole_number, media_type_in, items_in, values_in, each, good, nested_in};
ghost use Rattle.cm_reading.specs.Giving.{GivesMemberOf};
ghost use Rattle.cm_envelope.specs.Member.{optional_nested_in, list_in, object_in, has_one_of as has_one_member, all_items};
ghost use Rattle.cm_reading.specs.Members.{value_of, as_named, with_value, AreFound};
ghost use Rattle.gk_document.specs.MediaType.{unless_empty};
ghost use Rattle.serde_json.specs.Data.{Data};
ghost use Rattle.cm_envelope.specs.Documents.{NodeRead, Ids, node_in, optional_node_in, each_node, nodes_in, node_number};
ghost use Rattle.cm_reading.specs.Giving.{GivesNode};

use crate::fault::MemberFault;
use cm_envelope::NodeId;
use gk_document::{Sequence, Text};
use serde_json::Value;
use std::alloc::Global;

/// A member of an object: its name, and its value once that is found. One that is absent or null has none.
#[derive(Clone, Copy, Drop)]
pub(crate) struct Member<'v> {
    pub(crate) name: &'static str,
    pub(crate) value: Option<&'v Value>,
}

/// The member of this name, which isn't looked for yet.
fn member_named<'v>(name: &'static str) -> Member<'v>
    ensures { as_named result ≡ (name.now, None) }
{
    Member { name, value: None }
}

/// Looks for the members by one walk over those of the object.
fn find<'v>(object: &'v Value, members: &mut [Member<'v>])
    ensures { AreFound (view object.now) members.new 0 members.old }
{
    if let Some(entries) = object.as_object() {
        for (name, value) in entries.iter() {
            if !value.is_null() {
                note_member(members, name.as_str(), value);
            }
        }
    }
}

/// Keeps the value in the members of this name.
fn note_member<'v>(members: &mut [Member<'v>], name: &str, value: &'v Value)
    ensures { map as_named members.new
        ≡ map (with_value name.now (view value.now)) (map as_named members.old) }
{
    for i in 0..members.len() {
        if members[i].name == name {
            members[i].value = Some(value);
        }
    }
}

/// The members of these two names, by one walk over those of the object.
pub(crate) fn two_members<'v>(
    object: &'v Value,
    first: &'static str,
    second: &'static str,
) -> (Member<'v>, Member<'v>)
    ensures first { as_named result.0 ≡ member_of first.now (view object.now) }
    ensures second { as_named result.1 ≡ member_of second.now (view object.now) }
{
    let mut members = [member_named(first), member_named(second)];
    find(object, &mut members);
    let [first, second] = members;
    (first, second)
}

/// The members of these three names, by one walk over those of the object.
pub(crate) fn three_members<'v>(
    object: &'v Value,
    first: &'static str,
    second: &'static str,
    third: &'static str,
) -> (Member<'v>, Member<'v>, Member<'v>)
    ensures first { as_named result.0 ≡ member_of first.now (view object.now) }
    ensures second { as_named result.1 ≡ member_of second.now (view object.now) }
    ensures third { as_named result.2 ≡ member_of third.now (view object.now) }
{
    let mut members = [
        member_named(first),
        member_named(second),
        member_named(third),
    ];
    find(object, &mut members);
    let [first, second, third] = members;
    (first, second, third)
}

/// The members of these four names, by one walk over those of the object.
pub(crate) fn four_members<'v>(
    object: &'v Value,
    first: &'static str,
    second: &'static str,
    third: &'static str,
    fourth: &'static str,
) -> (Member<'v>, Member<'v>, Member<'v>, Member<'v>)
    ensures first { as_named result.0 ≡ member_of first.now (view object.now) }
    ensures second { as_named result.1 ≡ member_of second.now (view object.now) }
    ensures third { as_named result.2 ≡ member_of third.now (view object.now) }
    ensures fourth { as_named result.3 ≡ member_of fourth.now (view object.now) }
{
    let mut members = [
        member_named(first),
        member_named(second),
        member_named(third),
        member_named(fourth),
    ];
    find(object, &mut members);
    let [first, second, third, fourth] = members;
    (first, second, third, fourth)
}

/// The member of this name, by a look-up.
pub(crate) fn look_up<'v>(object: &'v Value, name: &'static str) -> Member<'v>
    ensures { as_named result ≡ member_of name.now (view object.now) }
{
    Member {
        name,
        value: present(object, name),
    }
}

/// The value of the member of this name, unless there is none or it is null.
pub(crate) fn present<'v>(object: &'v Value, name: &str) -> Option<&'v Value>
    ensures { option_map (λ v. view v.now) result ≡ present_member name.now (view object.now) }
{
    match object.get(name) {
        Some(value) if !value.is_null() => Some(value),
        _ => None,
    }
}

impl<'v> Member<'v> {
    /// Whether the member is there and isn't null.
    pub(crate) fn is_present(self) -> bool
        ensures { result ≡ is_some (value_of self.entry) }
    {
        self.value.is_some()
    }

    /// The text that the member has to be.
    pub(crate) fn text(self, alloc: Global) -> Result<Text, MemberFault>
        ensures { GivesMember result
            (required_in as_str self.entry.name.now (value_of self.entry)) }
    {
        match self.value.and_then(Value::as_str) {
            Some(found) => Ok(Text::copy_of(alloc, found)?),
            None => Err(MemberFault::Bad(self.name)),
        }
    }

    /// The text that the member has to be where it is present.
    pub(crate) fn optional_text(self, alloc: Global) -> Result<Option<Text>, MemberFault>
        ensures { GivesMember result
            (optional_in as_str self.entry.name.now (value_of self.entry)) }
    {
        let Some(value) = self.value else {
            return Ok(None);
        };
        match value.as_str() {
            Some(found) => Ok(Some(Text::copy_of(alloc, found)?)),
            None => Err(MemberFault::Bad(self.name)),
        }
    }

    /// The whole number from 0 that the member has to be, and `absent` where there is none.
    pub(crate) fn whole_number_or(self, absent: u64) -> Result<u64, MemberFault>
        ensures { GivesMember result
            (optional_or_in absent as_whole_number self.entry.name.now (value_of self.entry)) }
    {
        match self.value {
            Some(value) => value.as_u64().ok_or(MemberFault::Bad(self.name)),
            None => Ok(absent),
        }
    }

    /// The boolean that the member has to be.
    pub(crate) fn flag(self) -> Result<bool, MemberFault>
        ensures { GivesMember result
            (required_in as_bool self.entry.name.now (value_of self.entry)) }
    {
        match self.value.and_then(Value::as_bool) {
            Some(flag) => Ok(flag),
            None => Err(MemberFault::Bad(self.name)),
        }
    }

    /// The boolean that the member has to be, and `absent` where there is none.
    pub(crate) fn flag_or(self, absent: bool) -> Result<bool, MemberFault>
        ensures { GivesMember result
            (optional_or_in absent as_bool self.entry.name.now (value_of self.entry)) }
    {
        match self.value {
            Some(value) => value.as_bool().ok_or(MemberFault::Bad(self.name)),
            None => Ok(absent),
        }
    }

    /// The media type of a doc string, which is none where it is empty.
    pub(crate) fn media_type(self, alloc: Global) -> Result<Option<Text>, MemberFault>
        ensures { GivesMember result
            (media_type_in self.entry.name.now (value_of self.entry)) }
    {
        let media = self.optional_text(alloc)?;
        Ok(member_unless_empty(media))
    }

    /// The items of a list. An absent list is empty.
    pub(crate) fn items(self) -> Result<&'v [Value], MemberFault>
        ensures { GivesMemberOf (λ values. items_view values.now) result
            (items_in self.entry.name.now (value_of self.entry)) }
    {
        let Some(value) = self.value else {
            return Ok(&[]);
        };
        match value.as_array() {
            Some(values) => Ok(values),
            None => Err(MemberFault::Bad(self.name)),
        }
    }

    /// The texts of a list. An absent list is empty.
    pub(crate) fn texts(self, alloc: Global) -> Result<Sequence<Text>, MemberFault>
        ensures { GivesMember result
            (values_in as_str self.entry.name.now (value_of self.entry)) }
    {
        let Some(value) = self.value else {
            return Ok(Sequence::from(Vec::new(alloc)));
        };
        match value.as_array() {
            Some(values) => each_text(alloc, values, self.name),
            None => Err(MemberFault::Bad(self.name)),
        }
    }
}

/// The text, unless it is empty.
fn member_unless_empty(text: Option<Text>) -> Option<Text>
    ensures { result ≡ option_and_then unless_empty text }
{
    match text {
        Some(text) => gk_document::media_type(text),
        None => None,
    }
}

/// The text that an item of the list of this name has to be.
fn text_item(alloc: Global, value: &Value, name: &'static str) -> Result<Text, MemberFault>
    ensures { GivesMember result (good name.now (as_str (view value.now))) }
{
    match value.as_str() {
        Some(text) => Ok(Text::copy_of(alloc, text)?),
        None => Err(MemberFault::Bad(name)),
    }
}

/// The texts that the items of the list of this name have to be.
fn each_text(
    alloc: Global,
    values: &[Value],
    name: &'static str,
) -> Result<Sequence<Text>, MemberFault>
    ensures { GivesMember result (each (λ e. good name.now (as_str e)) (items_view values.now)) }
{
    let mut texts = Vec::new(alloc);
    for value in values {
        let text = text_item(alloc, value, name)?;
        texts.push(text)?;
    }
    Ok(Sequence::from(texts))
}

/// What is read from an object's members.
pub(crate) trait ReadObject: Sized {
    ghost reads: { Data → Result Self (List ℕ) };

    /// Reads the members that are judged, in the order in which a fault is told.
    fn read(alloc: Global, object: &Value) -> Result<Self, MemberFault>
        ensures { GivesMember result (reads (view object.now)) };
}

/// What is read from an object, which the value of the member of this name has to be.
fn object_in_member<T: ReadObject>(
    alloc: Global,
    value: &Value,
    name: &'static str,
) -> Result<T, MemberFault>
    ensures { GivesMember result (object_in name.now T.reads (view value.now)) }
{
    if !value.is_object() {
        return Err(MemberFault::Bad(name));
    }
    T::read(alloc, value)
}

impl Member<'_> {
    /// What is read from the object that the member has to be.
    pub(crate) fn nested<T: ReadObject>(self, alloc: Global) -> Result<T, MemberFault>
        ensures { GivesMember result
            (nested_in T.reads self.entry.name.now (value_of self.entry)) }
    {
        match self.value {
            Some(value) => object_in_member(alloc, value, self.name),
            None => Err(MemberFault::Bad(self.name)),
        }
    }

    /// What is read from the object that the member has to be where it is present.
    pub(crate) fn optional_nested<T: ReadObject>(
        self,
        alloc: Global,
    ) -> Result<Option<T>, MemberFault>
        ensures { GivesMember result
            (optional_nested_in T.reads self.entry.name.now (value_of self.entry)) }
    {
        match self.value {
            Some(value) => Ok(Some(object_in_member(alloc, value, self.name)?)),
            None => Ok(None),
        }
    }

    /// What is read from each object of a list. An absent list is empty.
    pub(crate) fn list_of<T: ReadObject + Drop>(
        self,
        alloc: Global,
    ) -> Result<Sequence<T>, MemberFault>
        ensures { GivesMember result
            (list_in T.reads self.entry.name.now (value_of self.entry)) }
    {
        let Some(value) = self.value else {
            return Ok(Sequence::from(Vec::new(alloc)));
        };
        match value.as_array() {
            Some(values) => objects(alloc, values, self.name),
            None => Err(MemberFault::Bad(self.name)),
        }
    }
}

/// What is read from the objects that the items of the list of this name have to be.
fn objects<T: ReadObject + Drop>(
    alloc: Global,
    values: &[Value],
    name: &'static str,
) -> Result<Sequence<T>, MemberFault>
    ensures { GivesMember result (each (object_in name.now T.reads) (items_view values.now)) }
{
    let mut objects = Vec::new(alloc);
    for value in values {
        let object = object_in_member(alloc, value, name)?;
        objects.push(object)?;
    }
    Ok(Sequence::from(objects))
}

/// What is read from a node's members; the ids of the nodes are kept in the order of the nodes.
pub(crate) trait ReadNode: Sized {
    ghost reads: { Ids → Data → NodeRead Self };

    /// Reads the members that are judged, and appends the ids of the nodes that are met.
    fn read(alloc: Global, object: &Value, ids: &mut Sequence<NodeId>) -> Result<Self, MemberFault>
        ensures { GivesNode result ids.new (reads ids.old (view object.now)) };
}

/// The node that is read from an object, which the value of the member of this name has to be.
pub(crate) fn node_in_member<T: ReadNode>(
    alloc: Global,
    value: &Value,
    name: &'static str,
    ids: &mut Sequence<NodeId>,
) -> Result<T, MemberFault>
    ensures { GivesNode result ids.new (node_in name.now T.reads ids.old (view value.now)) }
{
    if !value.is_object() {
        return Err(MemberFault::Bad(name));
    }
    T::read(alloc, value, ids)
}

/// The nodes that are read from the objects that the items of the list of this name have to be.
pub(crate) fn member_nodes<T: ReadNode + Drop>(
    alloc: Global,
    values: &[Value],
    name: &'static str,
    ids: &mut Sequence<NodeId>,
) -> Result<Sequence<T>, MemberFault>
    ensures { GivesNode result ids.new
        (each_node (node_in name.now T.reads) ids.old (items_view values.now)) }
{
    let mut nodes = Sequence::new(alloc);
    for value in values {
        let node = node_in_member(alloc, value, name, ids)?;
        nodes.push(node)?;
    }
    Ok(nodes)
}

impl Member<'_> {
    /// The node that is read from the object that the member has to be where it is present.
    pub(crate) fn optional_node<T: ReadNode>(
        self,
        alloc: Global,
        ids: &mut Sequence<NodeId>,
    ) -> Result<Option<T>, MemberFault>
        ensures { GivesNode result ids.new
            (optional_node_in T.reads self.entry.name.now ids.old (value_of self.entry)) }
    {
        match self.value {
            Some(value) => Ok(Some(node_in_member(alloc, value, self.name, ids)?)),
            None => Ok(None),
        }
    }

    /// The nodes that are read from the objects of a list. An absent list is empty.
    pub(crate) fn nodes_of<T: ReadNode + Drop>(
        self,
        alloc: Global,
        ids: &mut Sequence<NodeId>,
    ) -> Result<Sequence<T>, MemberFault>
        ensures { GivesNode result ids.new
            (nodes_in T.reads self.entry.name.now ids.old (value_of self.entry)) }
    {
        member_nodes(alloc, self.items()?, self.name, ids)
    }

    /// The text that the member has to be, as a node's id.
    pub(crate) fn node_id(self, alloc: Global) -> Result<NodeId, MemberFault>
        ensures { GivesMember result
            (required_in as_str self.entry.name.now (value_of self.entry)) }
    {
        match self.value.and_then(Value::as_str) {
            Some(found) => Ok(NodeId::copy_of(alloc, found)?),
            None => Err(MemberFault::Bad(self.name)),
        }
    }
}

/// The number of the node that has this id; the id is kept.
pub(crate) fn member_node_number(id: NodeId, ids: &mut Sequence<NodeId>) -> Result<u64, MemberFault>
    ensures { GivesNode result ids.new (node_number id ids.old) }
{
    let node = ids.len() as u64;
    ids.push(id)?;
    Ok(node)
}

/// Whether an object has exactly one of two members.
fn has_one_of(object: &Value, first: &'static str, second: &'static str) -> bool
    ensures { result ≡ has_one_member first.now second.now (view object.now) }
{
    let (first, second) = two_members(object, first, second);
    first.is_present() != second.is_present()
}

/// Whether each object has exactly one of two members.
pub(crate) fn all_have_one_of(objects: &[Value], first: &'static str, second: &'static str) -> bool
    ensures { result ≡ all_items (has_one_member first.now second.now) (items_view objects.now) }
{
    for object in objects {
        if !has_one_of(object, first, second) {
            return false;
        }
    }
    true
}
