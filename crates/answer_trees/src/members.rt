//! Adds members to an object that is being built. The caller keeps the object, so a failed call drops only the tree
//! that it would have added.
ghost use Rattle.std.specs.Prelude.{◌≡◌, OnOk, map};
ghost use Rattle.serde_json.specs.Data.{string, put as with_member};
ghost use Rattle.serde_json.specs.View.{members_view};
ghost use Rattle.answer_trees.specs.Trees.{list};

use crate::tree::{Tree, list};
use serde_json::{Map, Value, put};
use std::alloc::{AllocError, Global};

/// Adds a text under the key.
pub(crate) fn put_text(
    members: &mut Map<String, Value>,
    alloc: Global,
    key: &str,
    text: &str,
) -> Result<(), AllocError>
    ensures { OnOk result (members_view members.new.entries
        ≡ with_member key.now (string text.now) (members_view members.old.entries)) }
{
    put(members, alloc, key, Value::try_from_str(alloc, text)?)
}

/// Adds the items under the key, as one list.
pub(crate) fn put_list<T: Tree>(
    members: &mut Map<String, Value>,
    alloc: Global,
    key: &str,
    items: &[T],
) -> Result<(), AllocError>
    ensures { OnOk result (members_view members.new.entries
        ≡ with_member key.now (list (map T.tree items.now)) (members_view members.old.entries)) }
{
    put(members, alloc, key, list(alloc, items)?)
}
