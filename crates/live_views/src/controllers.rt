//! Answers about a controller, and about blocks.

ghost use Rattle.std.specs.Prelude.{◌≡◌, ◌+◌, ◌<◌, ◌++◌};
ghost use Rattle.nvme_spec.specs.Registers.{value_at};
ghost use Rattle.script_text.specs.Pages.{Adds};
ghost use Rattle.live_views.specs.Showing.{
  blocks_text,
  narrow_text,
  queue_registers_text,
  register_text,
  registers_text,
  state_registers_text,
  wide_text,
  window_text,
};

use nvme_ctrl::Controller;
use script_text::{HexText, NoRoom, Page, Spell, put_hex_in, put_labelled};

/// Bytes of a controller's window.
#[derive(Clone, Copy)]
pub struct WindowText<'a> {
    pub cntlid: u16,
    pub address: u64,
    pub bytes: &'a [u8],
}

impl Spell for WindowText<'_> {
    ghost spelled = { λ w. window_text w.cntlid w.address w.bytes.now };

    fn spell<P: Page>(&self, page: &mut P) -> Result<(), NoRoom> {
        put_labelled(page, "window ", u64::from(self.cntlid))?;
        put_labelled(page, " ", self.address)?;
        put_labelled(page, " ", self.bytes.len() as u64)?;
        page.put_str(" ")?;
        HexText(self.bytes).spell(page)
    }
}

/// Blocks of a namespace.
#[derive(Clone, Copy)]
pub struct BlocksText<'a> {
    pub nsid: u32,
    pub slba: u64,
    pub count: u32,
    pub bytes: &'a [u8],
}

impl Spell for BlocksText<'_> {
    ghost spelled = { λ b. blocks_text b.nsid b.slba b.count b.bytes.now };

    fn spell<P: Page>(&self, page: &mut P) -> Result<(), NoRoom> {
        put_labelled(page, "blocks ", u64::from(self.nsid))?;
        put_labelled(page, " ", self.slba)?;
        put_labelled(page, " ", u64::from(self.count))?;
        page.put_str(" ")?;
        HexText(self.bytes).spell(page)
    }
}

/// A register.
#[derive(Clone, Copy)]
pub struct RegisterText {
    pub cntlid: u16,
    pub offset: u64,
    pub value: u32,
}

impl Spell for RegisterText {
    ghost spelled = { λ r. register_text r.cntlid r.offset r.value };

    fn spell<P: Page>(&self, page: &mut P) -> Result<(), NoRoom> {
        put_labelled(page, "register ", u64::from(self.cntlid))?;
        put_labelled(page, " ", self.offset)?;
        page.put_str(" 0x")?;
        put_hex_in(page, 8, u64::from(self.value))
    }
}

/// All registers, by their names.
#[derive(Clone, Copy)]
pub struct RegistersText<'a> {
    pub cntlid: u16,
    pub controller: &'a Controller,
}

impl Spell for RegistersText<'_> {
    ghost spelled = { λ r. registers_text r.cntlid r.controller.now.registers };

    fn spell<P: Page>(&self, page: &mut P) -> Result<(), NoRoom> {
        put_labelled(page, "registers ", u64::from(self.cntlid))?;
        put_state(page, self.controller)?;
        put_places(page, self.controller)
    }
}

/// Puts a register of one double word, at this offset, after its name.
#[tactic(auto, unfolding(crate::specs::Showing::narrow_text))]
fn put_narrow<P: Page>(
    page: &mut P,
    name: &str,
    controller: &Controller,
    offset: u64,
) -> Result<(), NoRoom>
    ensures { Adds P.room result (P.written page.old)
        (name.now ++ narrow_text (value_at controller.now.registers offset)) (P.written page.new) }
{
    page.put_str(name)?;
    page.put_str("0x")?;
    put_hex_in(page, 8, u64::from(controller.read32(offset)))
}

/// Puts a register of two double words, the lower at this offset, after its name.
#[tactic(auto, unfolding(crate::specs::Showing::wide_text))]
fn put_wide<P: Page>(
    page: &mut P,
    name: &str,
    controller: &Controller,
    offset: u64,
) -> Result<(), NoRoom>
    requires { offset < 4096 }
    ensures { Adds P.room result (P.written page.old)
        (name.now
        ++ wide_text (value_at controller.now.registers (offset + 4)) (value_at controller.now.registers offset))
        (P.written page.new) }
{
    page.put_str(name)?;
    page.put_str("0x")?;
    put_hex_in(page, 8, u64::from(controller.read32(offset + 4)))?;
    put_hex_in(page, 8, u64::from(controller.read32(offset)))
}

/// Puts the capabilities, the configuration and the status of a controller.
fn put_state<P: Page>(page: &mut P, controller: &Controller) -> Result<(), NoRoom>
    ensures { Adds P.room result (P.written page.old) (state_registers_text controller.now.registers)
        (P.written page.new) }
{
    put_wide(page, " cap ", controller, 0x00)?;
    put_narrow(page, " vs ", controller, 0x08)?;
    put_narrow(page, " cc ", controller, 0x14)?;
    put_narrow(page, " csts ", controller, 0x1c)
}

/// Puts the addresses and the sizes of a controller's admin queues.
fn put_places<P: Page>(page: &mut P, controller: &Controller) -> Result<(), NoRoom>
    ensures { Adds P.room result (P.written page.old) (queue_registers_text controller.now.registers)
        (P.written page.new) }
{
    put_narrow(page, " aqa ", controller, 0x24)?;
    put_wide(page, " asq ", controller, 0x28)?;
    put_wide(page, " acq ", controller, 0x30)
}
