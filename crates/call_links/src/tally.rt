//! The number of calls between two services.

ghost use Rattle.std.specs.Prelude.{◌≡◌, ◌+◌, IfOk};
ghost use Rattle.call_links.specs.NumberedCalls.{numbered_call, numbers_called};

use crate::calls::Call;
use crate::numbered_span::NumberedSpan;
use std::alloc::AllocError;

/// The number of calls from one service to another one, and a span of each.
#[derive(Drop)]
pub(crate) struct LinkTally<'a> {
    pub(crate) caller: NumberedSpan<'a>,
    pub(crate) callee: NumberedSpan<'a>,
    pub(crate) calls: u64,
}

/// Returns the numbers of the services of a call.
pub(crate) fn numbers_of(call: Call<'_, '_>) -> (u32, u32)
    ensures { result ≡ numbers_called (numbered_call call.entry) }
{
    let (caller, callee) = call;
    (caller.service_number(), callee.service_number())
}

/// Returns the tally of services after a call, by their number of calls before it.
///
/// # Errors
///
/// The number would pass 64 bits: no memory holds the spans of that many calls.
pub(crate) fn link_tally_after<'a>(
    call: Call<'_, 'a>,
    before: u64,
) -> Result<LinkTally<'a>, AllocError>
    ensures { IfOk result (λ t. t ≡ record {
      caller = call.entry.0.now;
      callee = call.entry.1.now;
      calls = before + 1;
    }) }
{
    let Some(calls) = before.checked_add(1) else {
        // Impossible: no memory holds the spans of 2^64 calls.
        return Err(AllocError);
    };
    let (caller, callee) = call;
    Ok(LinkTally {
        caller: caller.duplicate(),
        callee: callee.duplicate(),
        calls,
    })
}
