//! The clients that a server answers: DDT clients, and if it is a Map-Server, the ITRs that it allows (RFC 8111,
//! section 7; RFC 9301, sections 5, 5.2 and 8.3).

ghost use Rattle.std.specs.Prelude.{◌≡◌};
ghost use Rattle.ddt_foreign.specs.Request.{request_in};
ghost use Rattle.ddt_daemon.specs.ServerTurns.{is_map_server, service_for as service_for_of};

use ddt_config::settings::ServerSettings;
use ddt_foreign::ForeignRequest;
use ddt_path::{Locator, Role};

/// The kind of client whose request a datagram is, or the reason why it is dropped.
#[derive(Clone, Copy, Debug, PartialEq, Eq)]
pub enum Service {
    /// Dropped: it isn't a request.
    NoRequest,
    /// Dropped: it has an AFI that RFC 9301, section 5, calls unrecognized.
    UnrecognizedAfi,
    /// Dropped: it probes an RLOC (RFC 9301, section 5.2).
    Probe,
    /// Dropped: it is an ITR's, and this isn't a Map-Server, or the ITR's address isn't allowed.
    Denied,
    /// A request of a DDT client.
    Client,
    /// A request of an ITR.
    Itr,
}

/// The result of serving a datagram.
#[derive(Clone, Copy, Debug, PartialEq, Eq)]
pub struct ServiceResult {
    pub service: Service,
    /// Whether a reply was sent without a fault.
    pub replied: bool,
}

impl ServiceResult {
    /// A datagram for which nothing was sent.
    pub(crate) fn dropped(service: Service) -> ServiceResult {
        ServiceResult {
            service,
            replied: false,
        }
    }
}

/// Whether servers of a role answer ITRs.
fn is_server_of_itrs(role: Role) -> bool
    ensures { result ≡ is_map_server role }
{
    match role {
        Role::Ms => true,
        Role::Node => false,
    }
}

/// The kind of client of a request from an address, or the reason why it is dropped.
pub(crate) fn service_for(
    role: Role,
    settings: &ServerSettings,
    from: Locator,
    request: &ForeignRequest<'_>,
) -> Service
    ensures { result ≡ service_for_of role settings.now from request.now }
{
    if request.is_probe() {
        return Service::Probe;
    }
    if request.ddt() {
        return Service::Client;
    }
    if is_server_of_itrs(role) && settings.allows(from) {
        Service::Itr
    } else {
        Service::Denied
    }
}
