//! Facts about the definitions. Each function has an empty body; its contract states the fact.

ghost use Rattle.batch_codec.specs.Cuts.{FaultsHavePlaces, TrailingHasAPlace, TruncatedBeginsTruncated, BatchesEnd};
ghost use Rattle.batch_codec.specs.EncodableBatches.{CanonSpells, CanonDecodes};
ghost use Rattle.batch_codec.specs.SpelledBatches.{DecodesWhatIsSpelled};
ghost use Rattle.batch_codec.specs.LastCounts.{TagLast, LogLast, ReferenceLast, ProcessLast, SpanLast, BatchLast};

/// Decoding returns a batch exactly if all of the bytes spell it. Bytes therefore spell at most one batch,
/// and those that spell none are refused.
pub fn decoding_is_spelling()
    ensures same { DecodesWhatIsSpelled }
{}

/// The places of a batch's faults. A fault has one place, which depends on the bytes alone. A batch that
/// arrives in pieces is therefore refused as soon as that place has arrived, and never before, however it
/// is cut.
pub fn cuts_of_batches()
    ensures faults { FaultsHavePlaces }
    ensures trailing { TrailingHasAPlace }
    ensures truncated { TruncatedBeginsTruncated }
    ensures whole { BatchesEnd }
{}

/// Which fields of a struct count. The bytes that spell a struct are exactly those that divide into fields
/// and a stop byte so that each field of a known id and its declared type spells a value of that type, the
/// struct has the value of the last of these, and every other field is a value of its own type. They divide
/// so in one way, with one value.
pub fn last_of_repeated_fields()
    ensures tag { TagLast }
    ensures log { LogLast }
    ensures reference { ReferenceLast }
    ensures process { ProcessLast }
    ensures span { SpanLast }
    ensures batch { BatchLast }
{}

/// Decoding what is encoded returns the batch, for every batch whose texts are UTF-8, whose numbers are in
/// the ranges of their types and whose lengths are at most 2,147,483,647. The contract of
/// [`encode`](crate::encode) says so without these premises: the types of a program's batch ensure the first
/// two, and `encode` checks the lengths.
#[tactic(auto, using(crate::proofs::CanonSpelled::batch_spelled, crate::proofs::CanonSpelled::canon_decodes))]
pub fn one_spelling_decodes()
    ensures spells { CanonSpells }
    ensures decodes { CanonDecodes }
{}
