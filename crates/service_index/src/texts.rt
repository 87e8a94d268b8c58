//! Access to the names of numbers.

ghost use Rattle.std.specs.Prelude.{◌≡◌, ◌<◌};
ghost use Rattle.service_index.specs.Labels.{IsServiceNumberOf};

use crate::labels::{Label, Labels};

/// Access to the names of numbers: what each number's span reported. Services have numbers of their own,
/// so that no call compares the services of two spans.
pub trait Texts {
    ghost use Rattle.service_index.specs.Labels.{Names, IsNumberedByService};

    /// The number of names, the name of each number, and the number of its service.
    ghost names: { Self → Names };

    /// Returns the service, the operation and the kind of the span with this number; the kind is empty if it has
    /// none. For the prover: only clauses read the service.
    fn name_at(&self, n: u32) -> (&str, &str, &str)
        requires { n < (names self.now).count }
        ensures service { result.0.now ≡ ((names self.now).at n).service }
        ensures operation { result.1.now ≡ ((names self.now).at n).operation.name }
        ensures kind { result.2.now ≡ ((names self.now).at n).operation.kind };

    /// Returns the number of the service of the span with this number.
    fn service_number_at(&self, n: u32) -> u32
        requires { n < (names self.now).count }
        ensures { result ≡ (names self.now).service_number n };

    /// Returns the number of a service, or none if no span has the service.
    fn service_number_of(&self, service: &str) -> Option<u32>
        ensures { IsServiceNumberOf (names self.now) service.now result };

    /// Spans have the same number of a service exactly if they have the same service.
    ghost services_numbered: { (texts : Self) → IsNumberedByService (names texts) };
}

/// The operations of the names with their kinds, each with the number of its service.
#[derive(Drop)]
pub(crate) struct OperationLabels<'a, T> {
    pub(crate) texts: &'a T,
}

impl<'a, T: Texts> Labels for OperationLabels<'a, T> {
    ghost use Rattle.service_index.specs.Labels.{operation_labels};

    ghost labels = { λ s. operation_labels (T.names s.texts.now) };

    fn label_at(&self, n: u32) -> Label<'_> {
        let (_, name, kind) = self.texts.name_at(n);
        Label {
            service_number: self.texts.service_number_at(n),
            name,
            kind,
        }
    }
}

/// The numbers of the services of the names, without an operation.
#[derive(Drop)]
pub(crate) struct ServiceNumberLabels<'a, T> {
    pub(crate) texts: &'a T,
}

impl<'a, T: Texts> Labels for ServiceNumberLabels<'a, T> {
    ghost use Rattle.service_index.specs.Labels.{service_number_labels};

    ghost labels = { λ s. service_number_labels (T.names s.texts.now) };

    fn label_at(&self, n: u32) -> Label<'_> {
        Label {
            service_number: self.texts.service_number_at(n),
            name: "",
            kind: "",
        }
    }
}
