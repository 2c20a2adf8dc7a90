//! Events of one controller, and their results.

ghost use Rattle.std.specs.Prelude.{◌≡◌};
ghost use Rattle.nvme_machine.specs.Bare.{seen_of};
ghost use Rattle.nvme_machine.specs.Controllers.{reaction, after_store, wrote, has_read, after_fetch};

use nvme_ctrl::Controller;
use nvme_machine::BareSeen;

/// Its host stores bytes.
#[inline(always)]
pub fn store(controller: &mut Controller, address: u64, bytes: &[u8]) -> BareSeen
    ensures { after_store address bytes.now controller.old ≡ reaction controller.new (seen_of result) }
{
    match controller.store(address, bytes) {
        Ok(()) => BareSeen::Stored,
        Err(_) => BareSeen::Outside,
    }
}

/// Its host writes a register.
#[inline(always)]
pub fn write32(controller: &mut Controller, offset: u64, value: u32) -> BareSeen
    ensures { wrote offset value controller.old ≡ reaction controller.new (seen_of result) }
{
    controller.write32(offset, value);
    BareSeen::Wrote
}

/// Its host reads a register.
#[inline(always)]
pub fn read32(controller: &Controller, offset: u64) -> BareSeen
    ensures { has_read offset controller.now ≡ reaction controller.now (seen_of result) }
{
    BareSeen::Value(controller.read32(offset))
}

/// It fetches a command.
#[inline(always)]
pub fn fetch(controller: &mut Controller, qid: u16) -> BareSeen
    ensures { after_fetch qid controller.old ≡ reaction controller.new (seen_of result) }
{
    BareSeen::Fetched(controller.fetch(qid))
}
