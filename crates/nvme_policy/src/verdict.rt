//! The rules on access, in order.

ghost use Rattle.std.specs.Prelude.{◌≡◌, ◌+◌, ◌≤◌, Some, IfOk, IfErr};
ghost use Rattle.nvme_wire.specs.Submission as entry;
ghost use Rattle.nvme_spec.specs.World.{namespace_of};
ghost use Rattle.nvme_spec.specs.IoRules as policy;
ghost use Rattle.nvme_spec.specs.declared.verdict.Verdict.TheVariants.{Allowed, Denied};

use crate::planning::plan;
use crate::rules::{
    check_attachment, check_fields, check_form, check_mark, check_nsid, check_opcode,
    check_protection, check_range, check_reservation,
};
use nvme_ns::{Namespace, Spaces};
use nvme_spec::{Denial, Plan, Verdict};
use nvme_wire::Sqe;

/// A command that the rules on access let pass.
#[derive(Clone, Copy)]
pub struct Admitted<'a> {
    /// Its plan.
    pub plan: Plan,
    /// The namespace that it names.
    pub namespace: &'a Namespace,
}

/// Judges an I/O command of a controller by the access state, without its data.
///
/// The rules are tested in order: mark, opcode, form, namespace, attachment, fields, reservation, write protection,
/// range. The first that fails gives its number and status; if none fails, the result is the plan of the command. A
/// Preempt and Abort marks the commands that it aborts.
pub fn judge(spaces: &Spaces, cntlid: u16, sqe: &Sqe, marked: bool) -> Verdict
    ensures judged { result ≡ policy.verdict spaces.now cntlid sqe.now marked }
    ensures in_range { policy.IfAllowed result (policy.FitsNamespace spaces.now (entry.nsid sqe.now)) }
{
    match admit(spaces, cntlid, sqe, marked) {
        Ok(admitted) => Verdict::Allowed(admitted.plan),
        Err(Denial { rule, status }) => Verdict::Denied(rule, status),
    }
}

/// Judges a command as `judge` does, and returns its namespace.
///
/// # Errors
///
/// The first rule that fails.
#[tactic(auto, unfolding(nvme_spec::specs::IoRules::verdict))]
pub fn admit<'a>(
    spaces: &'a Spaces,
    cntlid: u16,
    sqe: &Sqe,
    marked: bool,
) -> Result<Admitted<'a>, Denial>
    ensures allowed { IfOk result (λ a. policy.verdict spaces.now cntlid sqe.now marked ≡ Allowed a.plan) }
    ensures named { IfOk result (λ a. namespace_of spaces.now (entry.nsid sqe.now) ≡ Some a.namespace.now) }
    ensures in_range { IfOk result (λ a. a.plan.first + a.plan.blocks ≤ a.namespace.now.blocks) }
    ensures denied { IfErr result (λ denial. policy.verdict spaces.now cntlid sqe.now marked
        ≡ Denied denial.rule denial.status) }
{
    check_mark(marked)?;
    let command = check_opcode(sqe)?;
    check_form(sqe)?;
    check_nsid(sqe.nsid())?;
    let namespace = check_attachment(spaces, cntlid, sqe.nsid())?;
    check_fields(command, sqe)?;
    check_reservation(command, namespace, spaces.host_of(cntlid))?;
    check_protection(command, namespace)?;
    check_range(command, namespace, sqe)?;
    Ok(Admitted {
        plan: plan(command, sqe),
        namespace,
    })
}
