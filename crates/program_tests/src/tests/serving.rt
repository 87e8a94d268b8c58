//! `serve` on an address that can't be used.
use crate::tests::runs::check;
use std::fmt::Write;
use std::net::{Ipv4Addr, SocketAddr, SocketAddrV4, TcpListener};
use std::test::*;

#[test]
fn a_port_in_use(rt: HostRuntime) -> Result<(), Fail> {
    let alloc = rt.alloc();
    let any = SocketAddr::V4(SocketAddrV4::new(Ipv4Addr::LOCALHOST, 0));
    let taken = TcpListener::bind(&rt, any).expect(&rt, "bind");
    let port = taken.local_addr().expect(&rt, "address").port();
    let mut word = String::new(alloc);
    assert!(&rt; write!(word, "--port={port}").is_ok());
    let arguments = ["jaeger_one", "serve", word.as_str()];
    let mut said = String::new(alloc);
    assert!(&rt;
        writeln!(
            said,
            "cannot listen on 127.0.0.1:{port}: Address already in use (os error 98)"
        )
        .is_ok()
    );
    check(&rt, alloc, &arguments, &[], 4, &[said.as_str()])
}
