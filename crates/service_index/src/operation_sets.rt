//! Services and operations, sorted and without duplicates.

ghost use Rattle.std.specs.Prelude.{◌≡◌, IfOk, map};
ghost use Rattle.jaeger_model.specs.Texts.{text_cmp, sorted_set};
ghost use Rattle.trace_model.specs.declared.answer.Operation.{Operation as OperationValue};
ghost use Rattle.trace_model.specs.Names.{operation_cmp};
ghost use Rattle.service_index.specs.ListedNames.{names_of};

use std::alloc::{AllocError, Global};
use trace_model::{Name, Operation};

/// Sorts the names and removes duplicates. Allocates nothing.
pub fn sorted_names(mut names: Vec<Name>) -> Vec<Name>
    ensures { result.items ≡ sorted_set text_cmp names.items }
{
    names.sort_unstable();
    names.dedup();
    names
}

/// Sorts the operations and removes duplicates. Allocates nothing.
pub fn sorted_operations(mut operations: Vec<Operation>) -> Vec<Operation>
    ensures { result.items ≡ sorted_set operation_cmp operations.items }
{
    operations.sort_unstable();
    operations.dedup();
    operations
}

/// Returns the names of the operations.
fn names_of_operations(alloc: Global, operations: Vec<Operation>) -> Result<Vec<Name>, AllocError>
    ensures { IfOk result (λ v. v.items ≡ map (λ (o : OperationValue). o.name) operations.items) }
{
    let mut names = Vec::with_capacity(alloc, operations.len())?;
    for operation in operations {
        let Operation { name, kind: _ } = operation;
        names.push(name)?;
    }
    Ok(names)
}

/// Returns the names of the operations, sorted and without duplicates.
///
/// # Errors
///
/// Out of memory, and nothing else.
pub fn sorted_operation_names(
    alloc: Global,
    operations: Vec<Operation>,
) -> Result<Vec<Name>, AllocError>
    ensures { IfOk result (λ v. v.items ≡ names_of operations.items) }
{
    let names = names_of_operations(alloc, operations)?;
    Ok(sorted_names(names))
}
