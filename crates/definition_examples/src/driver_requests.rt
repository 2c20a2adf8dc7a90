//! Requests of a host: the command of each, and which no command can express.

ghost use Rattle.std.specs.Prelude.{◌≡◌, [], ◌∷◌, replicate, true, false};
ghost use Rattle.nvme_spec.specs.declared.command.Command.TheVariants as command;
ghost use Rattle.nvme_spec.specs.declared.command.AdminCommand.TheVariants as admin_command;
ghost use Rattle.nvme_driver.specs.declared.host_command.HostData.TheVariants as host_bytes;
ghost use Rattle.nvme_driver.specs.declared.payload.Payload.TheVariants as payload;
ghost use Rattle.nvme_driver.specs.declared.request.Request.TheVariants as request;
ghost use Rattle.nvme_driver.specs.HostCommands.{received_by, sent_by};
ghost use Rattle.nvme_driver.specs.Payloads.{IsSpelled, bytes_of};
ghost use Rattle.nvme_driver.specs.Requests.{asked_of, bit, is_bad, on_admin, on_blocks, on_reservation, sending};

use nvme_driver::Lane;

/// Commands by their fields: SLBA in double words 10 and 11, NLB, one less, in 12; and the action of a reservation.
fn driver_command_fields()
    ensures blocks { on_blocks command.Read 3 0x100000007 9
        ≡ record { lane = Lane.Io; opcode = 2; nsid = 3; cdw10 = 7; cdw11 = 1; cdw12 = 8 } }
    ensures admin { on_admin admin_command.Identify 5 17 18
        ≡ record { lane = Lane.Admin; opcode = 6; nsid = 5; cdw10 = 17; cdw11 = 18; cdw12 = 0 } }
    ensures reservation { on_reservation command.ReservationRelease 5 1 0x600
        ≡ record { lane = Lane.Io; opcode = 0x15; nsid = 5; cdw10 = 0x601; cdw11 = 0; cdw12 = 0 } }
    ensures sends { sending (on_admin admin_command.Identify 5 17 18) 2 (7 ∷ 8 ∷ []) ≡ record {
      command = on_admin admin_command.Identify 5 17 18;
      moved = 2;
      sent = 7 ∷ 8 ∷ [];
      received = 0;
    } }
    ensures set { bit true ≡ 1 }
    ensures clear { bit false ≡ 0 }
{}

/// The commands of requests on blocks and reservations: RREGA 2 with IEKEY and CPTPL 3, RACQA and RRELA 1 of type 6.
fn driver_io_requests()
    ensures flush { (asked_of (request.Flush 5)).command
        ≡ record { lane = Lane.Io; opcode = 0; nsid = 5; cdw10 = 0; cdw11 = 0; cdw12 = 0 } }
    ensures register { (asked_of (request.Register 5 2 true 3 0x11 0x22)).command
        ≡ record { lane = Lane.Io; opcode = 0x0d; nsid = 5; cdw10 = 0xc000000a; cdw11 = 0; cdw12 = 0 } }
    ensures acquire { (asked_of (request.Acquire 5 1 6 0x11 0x22)).command
        ≡ record { lane = Lane.Io; opcode = 0x11; nsid = 5; cdw10 = 0x601; cdw11 = 0; cdw12 = 0 } }
    ensures release { (asked_of (request.Release 5 1 6 0x11)).command
        ≡ record { lane = Lane.Io; opcode = 0x15; nsid = 5; cdw10 = 0x601; cdw11 = 0; cdw12 = 0 } }
    ensures report { (asked_of (request.Report 5 33)).command
        ≡ record { lane = Lane.Io; opcode = 0x0e; nsid = 5; cdw10 = 32; cdw11 = 1; cdw12 = 0 } }
{}

/// The commands of admin requests: CNS 1, the feature 84h, and SEL 0 to attach and 1 to detach.
fn driver_admin_requests()
    ensures identify { (asked_of (request.Identify 1 5)).command
        ≡ record { lane = Lane.Admin; opcode = 6; nsid = 5; cdw10 = 1; cdw11 = 0; cdw12 = 0 } }
    ensures protection { (asked_of (request.Protection 5)).command
        ≡ record { lane = Lane.Admin; opcode = 10; nsid = 5; cdw10 = 0x84; cdw11 = 0; cdw12 = 0 } }
    ensures attach { (asked_of (request.Attach 5 (record { ref_ptr = (0, 0); now = 2 ∷ [] }))).command
        ≡ record { lane = Lane.Admin; opcode = 0x15; nsid = 5; cdw10 = 0; cdw11 = 0; cdw12 = 0 } }
    ensures detach { (asked_of (request.Detach 5 (record { ref_ptr = (0, 0); now = 2 ∷ [] }))).command
        ≡ record { lane = Lane.Admin; opcode = 0x15; nsid = 5; cdw10 = 1; cdw11 = 0; cdw12 = 0 } }
{}

/// Write Zeroes takes 1 to 65,536 blocks. Every Flush can be expressed.
fn driver_bad_counts()
    ensures none { is_bad (request.WriteZeroes 5 7 0) ≡ true }
    ensures most { is_bad (request.WriteZeroes 5 7 65536) ≡ false }
    ensures more { is_bad (request.WriteZeroes 5 7 65537) ≡ true }
    ensures flush { is_bad (request.Flush 5) ≡ false }
{}

/// An action of a reservation has three bits, and CPTPL two.
fn driver_bad_actions()
    ensures registers { is_bad (request.Register 5 7 true 3 0x11 0x22) ≡ false }
    ensures no_action { is_bad (request.Register 5 8 true 3 0x11 0x22) ≡ true }
    ensures no_persistence { is_bad (request.Register 5 7 true 4 0x11 0x22) ≡ true }
    ensures acquires { is_bad (request.Acquire 5 7 6 0x11 0x22) ≡ false }
    ensures no_acquisition { is_bad (request.Acquire 5 8 6 0x11 0x22) ≡ true }
    ensures releases { is_bad (request.Release 5 7 6 0x11) ≡ false }
    ensures no_release { is_bad (request.Release 5 8 6 0x11) ≡ true }
{}

/// A write protection state has three bits. A Controller List has at most 2,047 identifiers.
fn driver_bad_admin_requests()
    ensures protects { is_bad (request.Protect 5 7) ≡ false }
    ensures no_state { is_bad (request.Protect 5 8) ≡ true }
    ensures protection { is_bad (request.Protection 5) ≡ false }
    ensures attaches { is_bad (request.Attach 5 (record { ref_ptr = (0, 0); now = replicate 2047 3 })) ≡ false }
    ensures attaches_too_many { is_bad (request.Attach 5 (record { ref_ptr = (0, 0); now = replicate 2048 3 })) ≡ true }
    ensures detaches { is_bad (request.Detach 5 (record { ref_ptr = (0, 0); now = replicate 2047 3 })) ≡ false }
    ensures detaches_too_many { is_bad (request.Detach 5 (record { ref_ptr = (0, 0); now = replicate 2048 3 })) ≡ true }
{}

/// The data of a host: bytes are sent as they are, and nothing is received with them.
fn driver_sent_data()
    ensures given { bytes_of (payload.Given (record { ref_ptr = (0, 0); now = 7 ∷ 8 ∷ [] })) ≡ 7 ∷ 8 ∷ [] }
    ensures sent { sent_by (host_bytes.FromHost (record { ref_ptr = (0, 0); now = 7 ∷ 8 ∷ [] })) ≡ 7 ∷ 8 ∷ [] }
    ensures received { received_by (host_bytes.FromHost (record { ref_ptr = (0, 0); now = 7 ∷ 8 ∷ [] })) ≡ 0 }
    ensures spelled { IsSpelled (payload.Identifiers (record { ref_ptr = (0, 0); now = replicate 2047 3 })) }
    ensures too_many { IsSpelled (payload.Identifiers (record { ref_ptr = (0, 0); now = replicate 2048 3 })) → ⊥ }
{}
