//! Runs of the program over memory.
use crate::tests::machine::Machine;
use commands::run;
use session_devices::Watched;
use std::alloc::Global;
use std::net::{Net, TcpListener, TcpStream};
use std::test::Fail;

/// A batch of service `a` with one span of trace 1, up to and from the end of the operation.
pub(crate) const HEAD: &str =
    "0c00010b00010000000161000f00020c000000010a000100000000000000010a000200000000000000000a000300000000000000020a000400000000000000000b0005000000026f70";

pub(crate) const TAIL: &str = "080007000000010a000800000000000003e80a000900000000000000320000";

pub(crate) const SPAN: &str = "0000000000000001 0000000000000002 1000 50 a op\n";

/// Runs the arguments over the input, and checks the status and the output.
pub(crate) fn check<H: Machine + Net<Stream = TcpStream, Listener = TcpListener>>(
    rt: &H,
    alloc: Global,
    arguments: &[&str],
    input: &[&str],
    status: u8,
    output: &[&str],
) -> Result<(), Fail> {
    let input = input.concat(alloc)?;
    let wanted = output.concat(alloc)?;
    let mut written = Vec::new(alloc);
    let got = run(
        rt,
        alloc,
        arguments,
        &mut Watched::new(input.as_bytes()),
        &mut Watched::new(&mut written),
    );
    assert_eq!(rt; written.as_slice(), wanted.as_bytes());
    assert_eq!(rt; got.code(), status);
    Ok(())
}
