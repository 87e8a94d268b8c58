//! The lines about a store that no client of the other tests brings about.

use server_notices::{FailureLine, TooLargeLine};
use std::test::*;
use trace_model::Refusal;

#[test]
fn what_was_refused(rt: HostRuntime) -> Result<(), Fail> {
    let line = TooLargeLine {
        spans: 120_000,
        most: 100_000,
    };
    let text = format!(in rt.alloc(); "{line}")?;
    assert_eq!(rt;
        text.as_str(),
        "a batch of 120000 spans never fits: --spans 100000"
    );
    let line = FailureLine {
        refusal: Refusal::NoMemory,
        failures: 10,
    };
    let text = format!(in rt.alloc(); "{line}")?;
    let wanted = "answered 500 for 22 NoMemory; requests that were answered 500 so far: 10";
    assert_eq!(rt; text.as_str(), wanted);
    Ok(())
}
