use std::test::*;
use trace_model::Refusal;

#[test]
fn text_of_a_refusal(rt: HostRuntime) -> Result<(), Fail> {
    let text = Refusal::Stale { last: 7 }.text(rt.alloc())?;
    assert!(rt; text.as_str() == "21 Stale");
    Ok(())
}
