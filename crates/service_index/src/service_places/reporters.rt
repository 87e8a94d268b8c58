ghost use Rattle.std.specs.Prelude.{◌≡◌};
ghost use Rattle.service_index.specs.Labels.{label_value};
ghost use Rattle.service_index.specs.ServicePlaces.{service_label};

use crate::labels::{Label, Labels};
use std::sync::Arc;
use trace_model::Entry;

/// Returns a service as a label: all services are under number 0.
pub(crate) fn service_label(service: &str) -> Label<'_>
    ensures { label_value result ≡ service_label service.now }
{
    Label {
        service_number: 0,
        name: service,
        kind: "",
    }
}

/// The services of entries as labels, each by the number of entries before its own.
#[derive(Drop)]
pub(crate) struct Reporters<'a> {
    pub(crate) entries: &'a [Arc<Entry>],
}

impl<'a> Labels for Reporters<'a> {
    ghost use Rattle.std.specs.Prelude.{map};
    ghost use Rattle.std.specs.Arc.{arc_value};
    ghost use Rattle.service_index.specs.ServicePlaces.{service_labels};

    ghost labels = { λ r. service_labels (map arc_value r.entries.now) };

    fn label_at(&self, n: u32) -> Label<'_> {
        let entry = &self.entries[n as usize];
        service_label(entry.work.service())
    }
}
