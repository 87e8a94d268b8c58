//! The addresses that a server may listen on.
ghost use Rattle.std.specs.Prelude.{◌≡◌, IfSome, IsSome};
ghost use Rattle.std.specs.Net.Text.{ip_text};
ghost use Rattle.serve_options.specs.Hosts.{host_text, is_loopback, url_host};
ghost use Rattle.serve_options.specs.declared.host.Host.{Host as HostValue};

use std::net::{IpAddr, Ipv4Addr, Ipv6Addr};

/// The address of this machine that a server listens on.
#[derive(Clone, Copy, Debug)]
pub enum Host {
    /// `127.0.0.1`: this machine alone.
    LoopbackIpv4,
    /// `0.0.0.0`: every IPv4 address.
    AnyIpv4,
    /// `::1`: this machine alone, over IPv6.
    LoopbackIpv6,
    /// `::`: every IPv6 address, and every IPv4 address too if the system allows it.
    AnyIpv6,
}

impl Host {
    /// Parses the text of a host. Returns `None` for any other text. (clap's list of possible values would say which of
    /// them was given by a number that no contract names.)
    pub fn parse(text: &str) -> Option<Host>
        ensures named { IfSome result (λ host. host_text host ≡ text.now) }
        ensures found { (host : HostValue) → host_text host ≡ text.now → IsSome result }
    {
        match text {
            "127.0.0.1" => Some(Host::LoopbackIpv4),
            "0.0.0.0" => Some(Host::AnyIpv4),
            "::1" => Some(Host::LoopbackIpv6),
            "::" => Some(Host::AnyIpv6),
            _ => None,
        }
    }

    /// Returns its text in a URL: an IPv6 address is in brackets.
    pub fn in_url(self) -> &'static str
        ensures { result.now ≡ url_host self }
    {
        match self {
            Host::LoopbackIpv4 => "127.0.0.1",
            Host::AnyIpv4 => "0.0.0.0",
            Host::LoopbackIpv6 => "[::1]",
            Host::AnyIpv6 => "[::]",
        }
    }

    /// Returns its address.
    pub fn address(self) -> IpAddr
        ensures { ip_text result ≡ host_text self }
    {
        match self {
            Host::LoopbackIpv4 => IpAddr::V4(Ipv4Addr::LOCALHOST),
            Host::AnyIpv4 => IpAddr::V4(Ipv4Addr::UNSPECIFIED),
            Host::LoopbackIpv6 => IpAddr::V6(Ipv6Addr::LOCALHOST),
            Host::AnyIpv6 => IpAddr::V6(Ipv6Addr::UNSPECIFIED),
        }
    }

    /// Returns whether only this machine can reach it.
    pub fn is_loopback(self) -> bool
        ensures { result ≡ is_loopback self }
    {
        matches!(self, Host::LoopbackIpv4 | Host::LoopbackIpv6)
    }
}
