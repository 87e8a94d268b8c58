ghost use Rattle.std.specs.Prelude.{◌≡◌};
ghost use Rattle.std.specs.Cmp.{decided, partial_equiv_from_equiv};
ghost use Rattle.jaeger_model.specs.Sameness.{same_value};
ghost use Rattle.jaeger_model.specs.SameLaws.{same_value-decides};
ghost use Rattle.jaeger_model.specs.StoredValues.{stored_value, borrowed_value};

use crate::seq::Seq;
use crate::short_text::ShortText;
use crate::tag::Value;
use crate::text::Bytes;
use std::alloc::AllocError;
use std::marker::Model;
use std::mem::size_of;

/// A value in the form in which a tag stores it: a short text is stored inline, beside the variant's
/// discriminant.
#[derive(Debug, Drop)]
pub(crate) enum StoredValue {
    Inline(ShortText),
    Heap(String),
    Double([u8; 8]),
    Bool(bool),
    Long(i64),
    Bytes(Seq<u8>),
}

const _: () = prove!(size_of::<TagValue>() == 32);

/// A tag's value in 32 bytes; a [`Value`] takes 40. Contracts see the `Value`.
#[derive(Debug, Drop)]
pub struct TagValue {
    held: StoredValue,
}

/// A borrowed [`Value`].
#[derive(Clone, Copy, Debug)]
pub enum ValueRef<'a> {
    Text(&'a str),
    Double(&'a [u8; 8]),
    Bool(bool),
    Long(i64),
    Bytes(&'a [u8]),
}

impl Model for TagValue {
    ghost use Rattle.jaeger_model.specs.declared.tag.Value.{Value as PlainValue};
    ghost use Rattle.jaeger_model.specs.StoredValues.{stored_value};

    ghost Value = { PlainValue };

    ghost view = { λ v. stored_value v.held };
}

impl TagValue {
    /// Stores the value. It doesn't allocate.
    pub fn new(value: Value) -> Self
        ensures { result ≡ value }
    {
        let held = match value {
            Value::Text(text) => match text.into_bytes() {
                Bytes::Inline(text) => StoredValue::Inline(text),
                Bytes::Heap(text) => StoredValue::Heap(text),
            },
            Value::Double(bytes) => StoredValue::Double(bytes),
            Value::Bool(flag) => StoredValue::Bool(flag),
            Value::Long(number) => StoredValue::Long(number),
            Value::Bytes(bytes) => StoredValue::Bytes(bytes),
        };
        TagValue { held }
    }

    /// Borrows the value.
    pub fn get(&self) -> ValueRef<'_>
        ensures { borrowed_value result ≡ self.now }
    {
        match &self.held {
            StoredValue::Inline(text) => ValueRef::Text(text.as_str()),
            StoredValue::Heap(text) => ValueRef::Text(text.as_str()),
            StoredValue::Double(bytes) => ValueRef::Double(bytes),
            StoredValue::Bool(flag) => ValueRef::Bool(*flag),
            StoredValue::Long(number) => ValueRef::Long(*number),
            StoredValue::Bytes(bytes) => ValueRef::Bytes(bytes.as_slice()),
        }
    }
}

impl Clone for TagValue {
    ghost is_clone = { λ s t. t ≡ s };

    fn clone(&self) -> Result<Self, AllocError> {
        let held = match &self.held {
            StoredValue::Inline(text) => StoredValue::Inline(text.copy()),
            StoredValue::Heap(text) => StoredValue::Heap(text.clone()?),
            StoredValue::Double(bytes) => StoredValue::Double(*bytes),
            StoredValue::Bool(flag) => StoredValue::Bool(*flag),
            StoredValue::Long(number) => StoredValue::Long(*number),
            StoredValue::Bytes(bytes) => StoredValue::Bytes(bytes.clone()?),
        };
        Ok(TagValue { held })
    }
}

impl PartialEq for TagValue {
    ghost eq = { same_value };

    ghost laws = { partial_equiv_from_equiv (decided same_value same_value-decides) };

    fn eq(&self, other: &TagValue) -> bool {
        match (self.get(), other.get()) {
            (ValueRef::Text(x), ValueRef::Text(y)) => x == y,
            (ValueRef::Double(x), ValueRef::Double(y)) => x == y,
            (ValueRef::Bool(x), ValueRef::Bool(y)) => x == y,
            (ValueRef::Long(x), ValueRef::Long(y)) => x == y,
            (ValueRef::Bytes(x), ValueRef::Bytes(y)) => x == y,
            _ => false,
        }
    }
}

impl Eq for TagValue {
    ghost laws = { decided same_value same_value-decides };
}
