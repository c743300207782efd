//! Bad members of the tags and of the steps of pickles.
use crate::tests::envelopes::refuses_each;
use std::test::Fail;

const TAG: &str = r#"{"pickle":{"id":"3","uri":"u","name":"s","language":"en","tags":[{"#;

// Each line: the field at fault, and the members that have the fault.
const TAGS: &str = r#"name "astNodeId":"1"
name "name":null,"astNodeId":1
name "name":1,"astNodeId":"1"
astNodeId "name":"@t"
astNodeId "name":"@t","astNodeId":null
astNodeId "name":"@t","astNodeId":1
tags "name":"@t","astNodeId":"1"},{"name":"@u","astNodeId":"2"},["@v"],{"name":"@w""#;

#[test]
fn bad_members_of_a_tag(rt: HostRuntime) -> Result<(), Fail> {
    refuses_each(&rt, rt.alloc(), "pickle", TAG, TAGS, "}]}}")
}

const STEP: &str =
    r#"{"pickle":{"id":"3","uri":"u","name":"s","language":"en","steps":[{"id":"2","text":"a","#;

const STEPS: &str = r#"type "type":"Conjunction"
type "type":1
astNodeIds "astNodeIds":[null]
argument "argument":5
dataTable "argument":{"dataTable":[]}
rows "argument":{"dataTable":{"rows":[1]}}
cells "argument":{"dataTable":{"rows":[{"cells":[null]}]}}
value "argument":{"dataTable":{"rows":[{"cells":[{}]},5]}}
content "argument":{"docString":{}}
mediaType "argument":{"docString":{"content":"","mediaType":1}}
docString "argument":{"docString":{"content":""},"dataTable":{}}
rows "argument":{"docString":5,"dataTable":{"rows":5}}"#;

#[test]
fn bad_members_of_a_step(rt: HostRuntime) -> Result<(), Fail> {
    refuses_each(&rt, rt.alloc(), "pickle", STEP, STEPS, "}]}}")
}
