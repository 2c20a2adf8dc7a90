//! Marks the fetched commands of hosts that a Preempt and Abort has removed.

ghost use Rattle.std.specs.Prelude.{◌≡◌, ◌==◌, ◌≤◌, length};
ghost use Rattle.std.specs.List.{list_any};
ghost use Rattle.nvme_machine.specs.Bare.{executed_with};
ghost use Rattle.nvme_machine.specs.Subsystems.{is_host_among, marked_from};
ghost use Rattle.nvme_subsys.specs.Marked.{marked_for, marks_after};

use nvme_ctrl::Controller;
use nvme_machine::BareExecuted;
use nvme_ns::Spaces;
use nvme_spec::{HostId, Marks};

/// Whether a host is one of these.
fn is_one_of(hosts: &[HostId], host: HostId) -> bool
    ensures { result ≡ list_any (λ h. h == host) hosts.now }
{
    hosts.iter().any(|h| *h == host)
}

/// Whether a controller's host is one of these.
fn is_among(hosts: &[HostId], host: Option<HostId>) -> bool
    ensures { result ≡ is_host_among hosts.now host }
{
    match host {
        Some(host) => is_one_of(hosts, host),
        None => false,
    }
}

/// Marks controller `cntlid` if its host is among the removed ones.
fn mark_one(controller: &mut Controller, cntlid: u16, spaces: &Spaces, marks: &Marks)
    ensures { controller.new ≡ marked_for spaces.now marks.now cntlid controller.old }
{
    if is_among(marks.hosts.as_slice(), spaces.host_of(cntlid)) {
        controller.mark(marks.nsid);
    }
}

/// Marks the controllers of the removed hosts. Controller k is at index k - 1.
// Not inlined, since few commands remove a host.
#[inline(never)]
fn mark_all(controllers: &mut [Controller], spaces: &Spaces, marks: &Marks)
    requires { length controllers.old ≤ 16 }
    ensures { controllers.new ≡ marked_from spaces.now marks.now 1 controllers.old }
{
    for i in 0..controllers.len() {
        mark_one(&mut controllers[i], i as u16 + 1, spaces, marks);
    }
}

/// Marks the controllers of the removed hosts, if there are any, so that the cost of other commands does not depend on
/// the number of controllers.
#[tactic(auto, using(crate::proofs::Unmarked::nobody_is_marked))]
#[inline(always)]
fn mark_removed(controllers: &mut [Controller], spaces: &Spaces, marks: &Marks)
    requires { length controllers.old ≤ 16 }
    ensures { controllers.new ≡ marked_from spaces.now marks.now 1 controllers.old }
{
    if !marks.hosts.is_empty() {
        mark_all(controllers, spaces, marks);
    }
}

/// Marks the hosts that an execution removed.
#[inline(always)]
pub fn mark_after(
    controllers: &mut [Controller],
    spaces: &Spaces,
    executed: BareExecuted,
    marks: &Marks,
)
    requires { length controllers.old ≤ 16 }
    ensures { controllers.new ≡ marks_after spaces.now (executed_with marks.now executed) controllers.old }
{
    match executed {
        BareExecuted::Posted(_) => mark_removed(controllers, spaces, marks),
        BareExecuted::NoSuch | BareExecuted::CqFull => {}
    }
}
