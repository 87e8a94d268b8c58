//! Labels, and access to the labels of numbers.

ghost use Rattle.std.specs.Prelude.{◌≡◌, ◌<◌};
ghost use Rattle.jaeger_model.specs.Texts.{same_text};
ghost use Rattle.service_index.specs.Labels.{label_value, same_label};

/// A name and a kind, with the number of a service. A table has labels of one form: those of operations have the number of
/// their service; those of services have either their name and number 0 (`ServicePlaces`), or their number and no name
/// (`ServiceIndex`).
#[derive(Clone, Copy)]
pub struct Label<'a> {
    pub service_number: u32,
    pub name: &'a str,
    pub kind: &'a str,
}

/// Access to the labels of numbers.
pub trait Labels {
    ghost use Rattle.service_index.specs.Labels.{Labelling};

    /// The number of labels, and the label of each number.
    ghost labels: { Self → Labelling };

    /// Returns the label of a number.
    fn label_at(&self, n: u32) -> Label<'_>
        requires { n < (labels self.now).count }
        ensures { label_value result ≡ (labels self.now).at n };
}

/// Returns whether two texts are equal, as bytes: `==` of `str` reads whole words, which is slower for short names.
fn is_same(one: &str, other: &str) -> bool
    ensures { result ≡ same_text one.now other.now }
{
    one.as_bytes() == other.as_bytes()
}

/// Returns whether the number has this label.
pub(crate) fn is_label<L: Labels>(labels: &L, n: u32, label: Label<'_>) -> bool
    requires { n < (L.labels labels.now).count }
    ensures { result ≡ same_label ((L.labels labels.now).at n) (label_value label.entry) }
{
    let found = labels.label_at(n);
    found.service_number == label.service_number
        && is_same(found.name, label.name)
        && is_same(found.kind, label.kind)
}
