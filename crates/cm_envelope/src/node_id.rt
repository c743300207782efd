//! The ids of a document's nodes.
ghost use Rattle.std.specs.Prelude.{◌≡◌, [], IfOk, slice_get, unwrap_or, bytes_eq};
ghost use Rattle.std.specs.Cmp.{partial_equiv_from_equiv};
ghost use Rattle.std.specs.Cmp.Lexicographic.{nat_list_eq_equiv};

use kept_texts::KeptText;
use std::alloc::{AllocError, Global};
use std::marker::Model;

/// The id of a node, which contracts see as the list of its UTF-8 bytes. One of up to 36 bytes takes no piece of memory of its
/// own, since the ids of a document's nodes stay while its pickles are judged.
#[derive(Drop)]
pub struct NodeId {
    id: KeptText,
}

impl Model for NodeId {
    ghost use Rattle.std.specs.Prelude.{ℕ, List};
    ghost use Rattle.kept_texts.specs.Kept.{bytes_of};

    ghost Value = { List ℕ };

    ghost view = { λ n. bytes_of n.id };
}

impl NodeId {
    /// An id of its own with these characters.
    ///
    /// # Errors
    /// Only where there is no memory for the copy.
    pub fn copy_of(alloc: Global, id: &str) -> Result<NodeId, AllocError>
        ensures { IfOk result (λ n. n ≡ id.now) }
    {
        Ok(NodeId {
            id: KeptText::copy_of(alloc, id)?,
        })
    }

    /// The characters.
    pub fn as_str(&self) -> &str
        ensures { result.now ≡ self.now }
    {
        self.id.as_str()
    }
}

impl PartialEq for NodeId {
    ghost eq = { bytes_eq };

    ghost laws = { partial_equiv_from_equiv nat_list_eq_equiv };

    fn eq(&self, other: &Self) -> bool {
        self.as_str() == other.as_str()
    }
}

impl Eq for NodeId {
    ghost laws = { nat_list_eq_equiv };
}

/// The id of a node, where `ids` are those of a document's nodes by their numbers. It is empty where there is none.
pub fn id_of(ids: &[NodeId], node: u64) -> &str
    ensures { result.now ≡ unwrap_or (slice_get ids.now node) [] }
{
    match ids.get(node as usize) {
        Some(id) => id.as_str(),
        None => "",
    }
}
