//! Facts about reading and writing. Each function has an empty body; its contract states the fact.
//!
//! - `cuts_of_..`: a fault other than Truncated has one place: every shorter prefix of the bytes is Truncated, and
//!   whatever follows that place, the fault is the same. A value ends at one place, in the same way. If bytes are
//!   Truncated, so is each prefix of them. Bytes that arrive in pieces are therefore refused as soon as the fault's
//!   place has arrived, and never before, however they are cut. (`proofs/Cuts.antt` and the files beside it prove this
//!   for every reading composed of these: in sequence, under a test, in lists, and in fields up to a stop byte.)
//! - `nothing_left_is_truncated`, `spelled_values_are_read`, `written_values_spell`: how reading, writing and the
//!   protocol's rules for whole texts (`specs/Spelling.antt`) fit together.

ghost use Rattle.std.specs.Prelude.{◌≡◌, ◌<◌, ◌^◌, ℕ, ℤ, List, [], ◌++◌, Bool, true, FitsSigned, length};
ghost use Rattle.std.specs.Int.{w16, w32, w64};
ghost use Rattle.std.specs.List.{AllByRecursion};
ghost use Rattle.thrift_binary.specs.Reading.{bool_at, bytes_at, signed_at, field_at, list_at, string_at, is_code};
ghost use Rattle.thrift_binary.specs.Skipping.{skip_at};
ghost use Rattle.thrift_binary.specs.Cuts.{FaultsHavePlaces, ValuesHaveEnds, ShortStaysShort};
ghost use Rattle.thrift_binary.specs.Spelling.{Field, IsBool, IsI32, IsI64, IsDouble, IsString, IsFieldHead, IsHead, IsFields, IsListHead, IsValue};
ghost use Rattle.thrift_binary.specs.Writing.{bool_text, i32_text, i64_text, string_text, field_text, stop_text, list_head_text, fields_text, HasHead};
ghost use Rattle.thrift_binary.specs.declared.fault.WireError.TheVariants.{Truncated};

/// The cuts of a skipped value of any type.
pub fn cuts_of_skipped_values()
    ensures faults { (c : ℕ) → FaultsHavePlaces Truncated (skip_at c) }
    ensures values { (c : ℕ) → ValuesHaveEnds Truncated (skip_at c) }
    ensures truncated { (c : ℕ) → ShortStaysShort Truncated (skip_at c) }
{}

/// The cuts of a field's head, or of the stop byte.
pub fn cuts_of_fields()
    ensures faults { FaultsHavePlaces Truncated field_at }
    ensures values { ValuesHaveEnds Truncated field_at }
    ensures truncated { ShortStaysShort Truncated field_at }
{}

/// The cuts of a list's head.
pub fn cuts_of_list_heads()
    ensures faults { FaultsHavePlaces Truncated list_at }
    ensures values { ValuesHaveEnds Truncated list_at }
    ensures truncated { ShortStaysShort Truncated list_at }
{}

/// The cuts of a string.
pub fn cuts_of_strings()
    ensures faults { FaultsHavePlaces Truncated string_at }
    ensures values { ValuesHaveEnds Truncated string_at }
    ensures truncated { ShortStaysShort Truncated string_at }
{}

/// Without bytes every reading is Truncated. After an error, which leaves no bytes, every later call therefore is.
pub fn nothing_left_is_truncated()
    ensures bool { bool_at [] ≡ Err Truncated }
    ensures i32 { signed_at w32 4 [] ≡ Err Truncated }
    ensures i64 { signed_at w64 8 [] ≡ Err Truncated }
    ensures double { bytes_at 8 [] ≡ Err Truncated }
    ensures bytes { string_at [] ≡ Err Truncated }
    ensures field { field_at [] ≡ Err Truncated }
    ensures list_head { list_at [] ≡ Err Truncated }
    ensures skipped { (c : ℕ) → skip_at c [] ≡ Err Truncated }
{}

/// Bytes that spell a value are read as that value, whatever follows them, and what follows remains.
pub fn spelled_values_are_read()
    ensures bool { (t r : List ℕ) (b : Bool) → IsBool t b → bool_at (t ++ r) ≡ Ok (b, r) }
    ensures i32 { (t r : List ℕ) (z : ℤ) → IsI32 t z → signed_at w32 4 (t ++ r) ≡ Ok (z, r) }
    ensures i64 { (t r : List ℕ) (z : ℤ) → IsI64 t z → signed_at w64 8 (t ++ r) ≡ Ok (z, r) }
    ensures double { (t r bytes : List ℕ) → IsDouble t bytes → bytes_at 8 (t ++ r) ≡ Ok (bytes, r) }
    ensures bytes { (t r bytes : List ℕ) → IsString t bytes → string_at (t ++ r) ≡ Ok (bytes, r) }
    ensures field { (t r : List ℕ) (c : ℕ) (i : ℤ) → IsFieldHead c i t
        → field_at (t ++ r) ≡ Ok (Some (c, i), r) }
    ensures stop { (r : List ℕ) → field_at (stop_text ++ r) ≡ Ok (None, r) }
    ensures list_head { (c n : ℕ) (t r : List ℕ) → IsListHead c n t → is_code c ≡ true
        → (e : ℕ) × (list_at (t ++ r) ≡ Ok ((e, n), r)) × (0 < n → e ≡ c) }
    ensures skipped { (c : ℕ) (t r : List ℕ) → IsValue 64 c t → skip_at c (t ++ r) ≡ Ok (tt, r) }
{}

/// What [`crate::Out`] writes spells the value that it was given, so it is read back as that value, whatever follows.
pub fn written_values_spell()
    ensures bool { (b : Bool) → IsBool (bool_text b) b }
    ensures i32 { (z : ℤ) → FitsSigned w32 z → IsI32 (i32_text z) z }
    ensures i64 { (z : ℤ) → FitsSigned w64 z → IsI64 (i64_text z) z }
    ensures double { (bytes : List ℕ) → length bytes ≡ 8 → IsDouble bytes bytes }
    ensures bytes { (bytes : List ℕ) → length bytes < 2 ^ 31 → IsString (string_text bytes) bytes }
    ensures field { (f : Field) → HasHead f → IsHead (field_text f.code f.id) f }
    ensures list_head { (c n : ℕ) → n < 2 ^ 31 → IsListHead c n (list_head_text c n) }
    ensures fields { (fs : List Field) → AllByRecursion HasHead fs → IsFields fs (fields_text fs) }
{}
