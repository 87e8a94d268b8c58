//! The name of a service or of an operation in an answer.
ghost use Rattle.std.specs.Prelude.{◌≡◌, ◌==◌, refl, Some, IfOk};
ghost use Rattle.std.specs.Arc.{arc_value};
ghost use Rattle.std.specs.Cmp.Lexicographic.{lists_equiv, lists_per, nat_list_cmp_total, pointwise, slice_cmp, texts_po, texts_ties};
ghost use Rattle.std.specs.Cmp.{nat_eq_equiv, partial_equiv_from_equiv};
ghost use Rattle.std.specs.Ordering.{nat_cmp};
ghost use Rattle.trace_model.specs.EntryWork.{service_brought, operation_brought};

use crate::entry::Entry;
use jaeger_model::Text;
use std::alloc::{AllocError, Global};
use std::cmp::Ordering;
use std::marker::Model;
use std::mem::size_of;
use std::sync::Arc;

/// Where the text of a name is.
#[derive(Debug, Drop)]
enum NameForm {
    /// In a text of its own.
    Own(Box<Text>),
    /// In the process of the entry's batch.
    Service(Arc<Entry>),
    /// In the span of the entry's batch at an index, which counts from 0.
    Operation(u32, Arc<Entry>),
}

const _: () = prove!(size_of::<Name>() == 16);

/// The name of a service or of an operation: a text of its own, or a reference to an entry that has it. So the names of
/// an answer are not copied from their entries. Names are compared by their texts. Contracts see the bytes of the
/// text.
#[derive(Debug, Drop)]
pub struct Name {
    form: NameForm,
}

impl Model for Name {
    ghost use Rattle.std.specs.Prelude.{List, ℕ};
    ghost use Rattle.trace_model.specs.LentNames.{name_value};

    ghost Value = { List ℕ };

    ghost view = { λ n. name_value n.form };
}

impl Name {
    /// Makes a name of a text of its own. Only the plain store calls it.
    ///
    /// # Errors
    ///
    /// Out of memory, and nothing else.
    pub fn own(alloc: Global, text: Text) -> Result<Name, AllocError>
        ensures { IfOk result (λ n. n ≡ text) }
    {
        let text = Box::new(alloc, text)?;
        Ok(Name {
            form: NameForm::Own(text),
        })
    }

    /// Refers to the service of the entry's batch; the name is empty if the entry has no batch. The entry is
    /// shared.
    ///
    /// # Errors
    ///
    /// Out of memory, and nothing else.
    pub fn of_service(entry: &Arc<Entry>) -> Result<Name, AllocError>
        ensures { IfOk result (λ n. n ≡ service_brought (arc_value entry.now).work) }
    {
        let entry = Arc::try_clone(entry)?;
        Ok(Name {
            form: NameForm::Service(entry),
        })
    }

    /// Refers to the operation of the entry's span at an index, which counts from 0; the name is empty if the entry
    /// has no such span. The entry is shared.
    ///
    /// # Errors
    ///
    /// Out of memory, and nothing else.
    pub fn of_operation(entry: &Arc<Entry>, index: u32) -> Result<Name, AllocError>
        ensures { IfOk result (λ n. n ≡ operation_brought (arc_value entry.now).work index) }
    {
        let entry = Arc::try_clone(entry)?;
        Ok(Name {
            form: NameForm::Operation(index, entry),
        })
    }

    /// Returns the text.
    pub fn as_str(&self) -> &str
        ensures { result.now ≡ self.now }
    {
        match &self.form {
            NameForm::Own(text) => text.as_str(),
            NameForm::Service(entry) => entry.work.service(),
            NameForm::Operation(index, entry) => entry.work.operation(*index),
        }
    }
}

impl PartialEq for Name {
    ghost eq = { pointwise ◌==◌ };

    ghost laws = { lists_per (partial_equiv_from_equiv nat_eq_equiv) };

    fn eq(&self, other: &Self) -> bool {
        self.as_str() == other.as_str()
    }
}

impl Eq for Name {
    ghost laws = { lists_equiv nat_eq_equiv };
}

impl PartialOrd for Name {
    ghost partial_cmp = { λ x y. Some (slice_cmp nat_cmp x y) };

    ghost laws = { texts_po };

    fn partial_cmp(&self, other: &Self) -> Option<Ordering> {
        Some(self.cmp(other))
    }
}

impl Ord for Name {
    ghost cmp = { slice_cmp nat_cmp };

    ghost total = { nat_list_cmp_total };

    ghost matches_partial_cmp = { λ x y. refl };

    ghost matches_eq = { texts_ties };

    fn cmp(&self, other: &Self) -> Ordering {
        self.as_str().cmp(other.as_str())
    }
}
