//! What a reservation permits (Base Specification: Reservation Types).

ghost use Rattle.std.specs.Prelude.{◌≡◌, Some};
ghost use Rattle.nvme_spec.specs.Access.{is_permitted};
ghost use Rattle.nvme_spec.specs.IoRules as policy;

use nvme_ns::Namespace;
use nvme_spec::{Group, Hold, HostId, Role};

/// Whether a reservation permits a command of this group to a host in this role (Base Specification, Reservation
/// Types). Without a reservation everything is permitted.
pub fn permits(hold: Hold, role: Role, group: Group) -> bool
    ensures { result ≡ is_permitted hold role group }
{
    let (Hold::One(rtype, _) | Hold::All(rtype)) = hold else {
        return true;
    };
    match group {
        Group::Read => match rtype {
            1 | 3 | 5 => true,
            2 => role == Role::Holder,
            _ => role != Role::Outsider,
        },
        Group::Write => match rtype {
            1 | 2 => role == Role::Holder,
            _ => role != Role::Outsider,
        },
    }
}

/// Whether the reservation of a namespace permits commands of this group to the host of a controller. A controller that
/// isn't configured has no host.
pub fn permits_host(namespace: &Namespace, host: Option<HostId>, group: Group) -> bool
    ensures { result ≡ policy.permits_group (Some namespace.now) host group }
{
    let reservation = namespace.reservation();
    let role = match host {
        Some(host) => reservation.role(host),
        None => Role::Outsider,
    };
    permits(reservation.hold(), role, group)
}
