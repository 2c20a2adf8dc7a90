//! The execution of one command over four controllers, two namespaces and one host memory.

ghost use Rattle.std.specs.Prelude.{◌≡◌, IfOk};
ghost use Rattle.nvme_spec.specs.World.{LiesWithin};
ghost use Rattle.nvme_spec.specs.Execution.{HasKnownRegistrants};

use crate::tests::configuration::configuration;
use nvme_exec::execute;
use nvme_medium::Medium;
use nvme_mem::Window;
use nvme_ns::Spaces;
use nvme_wire::{Sqe, Status};
use std::alloc::Global;
use std::test::Fail;

/// The access state, a medium of at least 72 blocks, and the memory of one host.
#[derive(Drop)]
pub struct Bench<M> {
    pub spaces: Spaces,
    pub medium: M,
    pub window: Window,
}

/// Opens the configuration over a medium, with a window of zeros.
pub(crate) fn bench_over<M: Medium + Drop>(alloc: Global, medium: M) -> Result<Bench<M>, Fail>
    ensures within { IfOk result (λ bench. LiesWithin (M.size bench.medium) bench.spaces.namespaces) }
    ensures known { IfOk result (λ bench. HasKnownRegistrants bench.spaces) }
{
    let config = configuration(alloc, 8)?;
    let spaces = Spaces::new(&config, medium.blocks())?;
    let window = Window::new(alloc)?;
    Ok(Bench {
        spaces,
        medium,
        window,
    })
}

/// Executes an entry: its status and the rule, or `None` if the controller isn't configured.
pub(crate) fn run<M: Medium>(
    bench: &mut Bench<M>,
    cntlid: u16,
    entry: &[u8; 64],
) -> Option<(Status, u8)>
    requires within { LiesWithin (M.size bench.old.medium) bench.old.spaces.namespaces }
    requires known { HasKnownRegistrants bench.old.spaces }
    ensures within { LiesWithin (M.size bench.new.medium) bench.new.spaces.namespaces }
    ensures known { HasKnownRegistrants bench.new.spaces }
{
    let _host = bench.spaces.host_of(cntlid)?;
    let outcome = execute(
        &mut bench.spaces,
        &mut bench.medium,
        &mut bench.window,
        cntlid,
        &Sqe::from_bytes(entry),
        false,
    );
    Some((outcome.status, outcome.rule))
}
