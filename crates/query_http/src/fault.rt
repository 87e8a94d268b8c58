ghost use Rattle.std.specs.Prelude.{◌≡◌};
ghost use Rattle.query_http.specs.Faults.{parameter_name};
ghost use Rattle.query_http.specs.declared.fault.QueryFault.TheVariants.{Bad, NoMemory};

use std::alloc::{AllocError, AllocFailed};

/// A part of a path or a query parameter that can be invalid.
#[derive(Clone, Copy, Debug, PartialEq, Eq)]
pub enum Parameter {
    TraceId,
    Service,
    Start,
    End,
    Limit,
    MinDuration,
    MaxDuration,
    Tag,
    Tags,
    EndTs,
    Lookback,
}

impl Parameter {
    /// Returns its name in a request.
    pub fn name(self) -> &'static str
        ensures { result.now ≡ parameter_name self }
    {
        match self {
            Parameter::TraceId => "traceID",
            Parameter::Service => "service",
            Parameter::Start => "start",
            Parameter::End => "end",
            Parameter::Limit => "limit",
            Parameter::MinDuration => "minDuration",
            Parameter::MaxDuration => "maxDuration",
            Parameter::Tag => "tag",
            Parameter::Tags => "tags",
            Parameter::EndTs => "endTs",
            Parameter::Lookback => "lookback",
        }
    }
}

/// Why a request's target isn't a query. The numbers are those of `docs/using.md` (Refusals); the program prints none of them.
#[derive(Clone, Copy, Debug, PartialEq, Eq)]
pub enum QueryFault {
    /// 41 NoPath: no endpoint has this path.
    NoPath,
    /// 40 BadQuery: the first invalid parameter, in the order of the endpoint's table.
    Bad(Parameter),
    /// 22 NoMemory.
    NoMemory,
}

impl From<Parameter> for QueryFault {
    ghost from_gives = { λ x e. e ≡ Bad x };

    fn from(parameter: Parameter) -> QueryFault {
        QueryFault::Bad(parameter)
    }
}

impl From<AllocError> for QueryFault {
    ghost from_gives = { λ _ e. e ≡ NoMemory };

    fn from(_: AllocError) -> QueryFault {
        QueryFault::NoMemory
    }
}

impl<T: Drop> From<AllocFailed<T>> for QueryFault {
    ghost from_gives = { λ _ e. e ≡ NoMemory };

    fn from(_: AllocFailed<T>) -> QueryFault {
        QueryFault::NoMemory
    }
}
