//! Values of `jaeger.thrift` whose bytes arrive in pieces.
//!
//! A [`Partial`] has what has arrived of a value. It is a reading of the bytes that are still to come: continued with a
//! piece, it reads the same as from the bytes that are joined (`specs/ContinuedCalls.antt`), with the same fault. Its
//! memory grows only with bytes that have arrived, never by a size that they claim.
//!
//! - `partial`: partially received values, those of lists, and slots for values.
//! - `values`, `texts`, `enums`, `skipped`: single values.
#![tactic(auto)]

mod enums;
mod partial;
mod skipped;
mod texts;
mod values;

pub use enums::{PartialRefKind, PartialTagType};
pub use partial::{Arrival, Item, Partial, Slot, fault_of, place};
pub use skipped::PartialSkipped;
pub use texts::{PartialBinary, PartialText};
pub use values::{
    Fixed, PartialBool, PartialDouble, PartialFixed, PartialI32, PartialI64, PartialId,
};
