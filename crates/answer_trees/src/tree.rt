//! Values that have a tree, and lists of them.
ghost use Rattle.std.specs.Prelude.{◌≡◌, IfOk, map, string_bytes};
ghost use Rattle.serde_json.specs.Data.{Data, string};
ghost use Rattle.serde_json.specs.View.{view};
ghost use Rattle.answer_trees.specs.Trees.{list};

use jaeger_model::Text;
use serde_json::Value;
use std::alloc::{AllocError, Global};
use trace_model::Name;

/// A value that an answer shows as one JSON tree.
pub trait Tree {
    ghost tree: { Self → Data };

    /// Returns the tree.
    ///
    /// # Errors
    ///
    /// Out of memory, and nothing else.
    fn to_json(&self, alloc: Global) -> Result<Value, AllocError>
        ensures { IfOk result (λ v. view v ≡ tree self.now) };
}

/// Returns the trees of the items, in order.
pub(crate) fn trees<T: Tree>(alloc: Global, items: &[T]) -> Result<Vec<Value>, AllocError>
    ensures { IfOk result (λ v. map view v.items ≡ map T.tree items.now) }
{
    let mut trees = Vec::new(alloc);
    for item in items {
        trees.push(item.to_json(alloc)?)?;
    }
    Ok(trees)
}

/// Returns the items as one list.
pub(crate) fn list<T: Tree>(alloc: Global, items: &[T]) -> Result<Value, AllocError>
    ensures { IfOk result (λ v. view v ≡ list (map T.tree items.now)) }
{
    Ok(Value::Array(trees(alloc, items)?))
}

impl Tree for Text {
    ghost tree = { λ t. string t };

    fn to_json(&self, alloc: Global) -> Result<Value, AllocError> {
        let text = self.clone()?;
        Ok(Value::String(text.into_string(alloc)?))
    }
}

impl Tree for Name {
    ghost tree = { λ n. string n };

    fn to_json(&self, alloc: Global) -> Result<Value, AllocError> {
        let text = String::from_str(alloc, self.as_str())?;
        Ok(Value::String(text))
    }
}
