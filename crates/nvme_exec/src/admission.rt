//! The rules that a command has to pass before it is performed.

ghost use Rattle.std.specs.Prelude.{◌≡◌, ◌+◌, ◌≤◌, length, None, Some, OnOk, IfOk, IfErr, IsSome};
ghost use Rattle.nvme_spec.specs.declared.verdict.Verdict.TheVariants.{Allowed, Denied};
ghost use Rattle.nvme_spec.specs.Commands.{data_length};
ghost use Rattle.nvme_spec.specs.Transfers.{addresses};
ghost use Rattle.nvme_spec.specs.World.{host_of, LiesWithin};
ghost use Rattle.nvme_spec.specs.IoRules as policy;
ghost use Rattle.nvme_spec.specs.DataRules as rules;
ghost use Rattle.nvme_spec.specs.IoData.{io_verdict};
ghost use Rattle.nvme_exec.specs.Admitted.{IsAdmitted};

use nvme_mem::Window;
use nvme_ns::Spaces;
use nvme_policy::Admitted;
use nvme_prp::{Pieces, locate};
use nvme_spec::{Denial, HostId, Plan};
use nvme_wire::Sqe;

/// Contiguous blocks of a medium.
#[derive(Clone, Copy, Debug)]
pub struct Extent {
    pub first: u64,
    pub blocks: u64,
}

/// An admitted command: its plan, its host, its blocks on the medium and its data in host memory.
#[derive(Drop)]
pub struct Admission<'a> {
    pub plan: Plan,
    /// The host of its controller.
    pub host: HostId,
    /// Its blocks on the medium.
    pub extent: Extent,
    /// Its data in host memory: no pieces if it has none.
    pub pieces: &'a Pieces,
}

/// Applies the rules on access, and then the one on the data pointer, whose list it walks completely.
///
/// # Errors
///
/// The first rule that fails.
pub fn admit<'a>(
    spaces: &Spaces,
    medium_blocks: u64,
    window: &Window,
    cntlid: u16,
    sqe: &Sqe,
    marked: bool,
    pieces: &'a mut Pieces,
) -> Result<Admission<'a>, Denial>
    requires configured { IsSome (host_of spaces.now cntlid) }
    requires within { LiesWithin medium_blocks spaces.now.namespaces }
    ensures allowed { IfOk result (λ a. policy.verdict spaces.now cntlid sqe.now marked ≡ Allowed a.plan) }
    ensures sound { IfOk result (λ a. rules.data_fault (data_length a.plan.kind sqe.now) window.now sqe.now ≡ None) }
    ensures admitted { IfOk result (IsAdmitted spaces.now cntlid window.now sqe.now) }
    ensures within { IfOk result (λ a. a.extent.first + a.extent.blocks ≤ medium_blocks) }
    ensures denied { IfErr result (λ d. io_verdict spaces.now cntlid sqe.now marked window.now
        ≡ Denied d.rule d.status) }
{
    let Admitted { plan, namespace } = match nvme_policy::admit(spaces, cntlid, sqe, marked) {
        Ok(admitted) => admitted,
        Err(denial) => return Err(denial),
    };
    locate(window, sqe, plan.bytes, pieces)?;
    Ok(Admission {
        plan,
        host: spaces.host_of(cntlid).unwrap(),
        extent: Extent {
            first: namespace.first_block() + plan.first,
            blocks: u64::from(plan.blocks),
        },
        pieces,
    })
}
