//! The lines about a store that are printed for the operator, as functions of numbers.

ghost use Rattle.std.specs.Prelude.{◌≡◌};
ghost use Rattle.server_notices.specs.Lines.{advice, level_of, noun, unit_name, unit_noun};

use std::fmt;
use trace_model::Refusal;

/// Returns the noun for a count: the singular for one.
pub(crate) fn noun(count: u64, singular: &'static str, plural: &'static str) -> &'static str
    ensures { result.now ≡ noun count singular.now plural.now }
{
    if count == 1 { singular } else { plural }
}

/// The unit of a store's limit.
#[derive(Clone, Copy, Debug)]
pub enum LimitUnit {
    Batches,
    Spans,
}

impl LimitUnit {
    /// Returns its name, which is also that of the option.
    pub fn name(self) -> &'static str
        ensures { result.now ≡ unit_name self }
    {
        match self {
            LimitUnit::Batches => "batches",
            LimitUnit::Spans => "spans",
        }
    }

    /// Returns its noun for a count: the singular for one.
    pub fn noun(self, count: u32) -> &'static str
        ensures { result.now ≡ unit_noun self count }
    {
        let count = u64::from(count);
        match self {
            LimitUnit::Batches => noun(count, "batch", "batches"),
            LimitUnit::Spans => noun(count, "span", "spans"),
        }
    }

    /// Returns what the operator can do once the limit is reached.
    pub fn advice(self) -> &'static str
        ensures { result.now ≡ advice self }
    {
        match self {
            LimitUnit::Batches =>
                ": what doesn't fit is answered 503; restart with a larger --batches",
            LimitUnit::Spans => ": what doesn't fit is answered 503; restart with a larger --spans",
        }
    }
}

/// Returns the greatest of 90, 75 and 50 percent that is reached, or 0.
pub fn level_of(held: u64, most: u32) -> u8
    ensures { result ≡ level_of held most }
{
    let (held, most) = (u128::from(held), u128::from(most));
    if 90 * most <= 100 * held {
        90
    } else if 75 * most <= 100 * held {
        75
    } else if 50 * most <= 100 * held {
        50
    } else {
        0
    }
}

/// The line that tells which percentage of a limit is used.
#[derive(Clone, Copy, Debug)]
pub struct FullnessLine {
    pub unit: LimitUnit,
    pub level: u8,
    pub held: u64,
    pub most: u32,
}

impl fmt::Display for FullnessLine {
    ghost use Rattle.std.specs.Prelude.{Some};
    ghost use Rattle.server_notices.specs.Lines.{fullness_line};

    ghost output = { λ l. Some (fullness_line l.unit l.level l.held l.most) };

    fn fmt<W: fmt::Write>(&self, f: &mut fmt::Formatter<W>) -> fmt::Result {
        let FullnessLine {
            unit,
            level,
            held,
            most,
        } = *self;
        let (noun, name) = (unit.noun(most), unit.name());
        write!(
            f,
            "at least {level}% full: {held} of {most} {noun} (--{name})"
        )
    }
}

/// How much of a limit is used, such as `400 of 1000 batches`.
#[derive(Clone, Copy, Debug)]
pub struct HeldText {
    pub held: u64,
    pub most: u32,
    pub unit: LimitUnit,
}

impl fmt::Display for HeldText {
    ghost use Rattle.std.specs.Prelude.{Some};
    ghost use Rattle.server_notices.specs.Lines.{held_text};

    ghost output = { λ t. Some (held_text t.held t.most t.unit) };

    fn fmt<W: fmt::Write>(&self, f: &mut fmt::Formatter<W>) -> fmt::Result {
        let HeldText { held, most, unit } = *self;
        let noun = unit.noun(most);
        write!(f, "{held} of {most} {noun}")
    }
}

/// The line for a batch that has more spans than an empty store would take.
#[derive(Clone, Copy, Debug)]
pub struct TooLargeLine {
    pub spans: u64,
    pub most: u32,
}

impl fmt::Display for TooLargeLine {
    ghost use Rattle.std.specs.Prelude.{Some};
    ghost use Rattle.server_notices.specs.Lines.{too_large_line};

    ghost output = { λ l. Some (too_large_line l.spans l.most) };

    fn fmt<W: fmt::Write>(&self, f: &mut fmt::Formatter<W>) -> fmt::Result {
        let TooLargeLine { spans, most } = *self;
        write!(f, "a batch of {spans} spans never fits: --spans {most}")
    }
}

/// The line that tells why a request was answered 500, and how many were.
#[derive(Clone, Copy, Debug)]
pub struct FailureLine {
    pub refusal: Refusal,
    pub failures: u64,
}

impl fmt::Display for FailureLine {
    ghost use Rattle.std.specs.Prelude.{Some};
    ghost use Rattle.server_notices.specs.Lines.{failure_line};

    ghost output = { λ l. Some (failure_line l.refusal l.failures) };

    fn fmt<W: fmt::Write>(&self, f: &mut fmt::Formatter<W>) -> fmt::Result {
        let FailureLine { refusal, failures } = *self;
        write!(
            f,
            "answered 500 for {refusal}; requests that were answered 500 so far: {failures}"
        )
    }
}
