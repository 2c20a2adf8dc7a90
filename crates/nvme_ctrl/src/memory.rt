//! The memory that a host shares with its controller.

ghost use Rattle.std.specs.Prelude.{◌≡◌, OnOk, OnErr};
ghost use Rattle.std.specs.Borrow.{sem};
ghost use Rattle.nvme_machine.specs.declared.seen.Seen.TheVariants.{Stored, Outside};
ghost use Rattle.nvme_machine.specs.Controllers.{after_store, reaction};
ghost use Rattle.nvme_ctrl.specs.Lending.{LendsWindow};

use crate::controller::Controller;
use nvme_mem::{OutsideWindow, Window};

impl Controller {
    /// The window of host memory.
    pub fn window(&self) -> &Window
        ensures { result.now ≡ self.now.window }
    {
        &self.window
    }

    /// The window of host memory, mutable. Nothing else changes, and it keeps its length.
    pub fn window_mut(&mut self) -> &mut Window
        ensures* writes_back { sem 𝓛 (LendsWindow self.entry result) }
        ensures bytes { result.now ≡ self.old.window }
    {
        &mut self.window
    }

    /// Its host stores bytes.
    ///
    /// # Errors
    ///
    /// `OutsideWindow` if some are outside the window; nothing is stored then.
    #[tactic(auto, unfolding(nvme_machine::specs::Controllers::after_store))]
    pub fn store(&mut self, address: u64, bytes: &[u8]) -> Result<(), OutsideWindow>
        ensures ok { OnOk result (after_store address bytes.now self.old ≡ reaction self.new Stored) }
        ensures err { OnErr result (after_store address bytes.now self.old ≡ reaction self.new Outside) }
    {
        self.window.store(address, bytes)
    }
}
