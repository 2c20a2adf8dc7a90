//! What a driver reads of Identify Controller, and the limits that follow from it.

ghost use Rattle.std.specs.Prelude.{◌≡◌, [], ◌∷◌, ◌++◌, replicate, true, false, Ok, Err};
ghost use Rattle.nvme_device.specs.declared.controller.ControllerFault.TheVariants as controller_fault;
ghost use Rattle.nvme_device.specs.Admissions.{is_short};
ghost use Rattle.nvme_device.specs.Controllers.{can_have, controller_facts, judged_controller};

/// MDTS 51 is a limit of 2 ^ 63 bytes, and 52 is none.
fn driver_transfer_limits()
    ensures exact { is_short 51 0x8000000000000000 ≡ true }
    ensures longer { is_short 51 0x8000000000000001 ≡ false }
    ensures unlimited { is_short 52 0x10000000000000001 ≡ true }
{}

/// SQES: the largest size of entries is in bits 7:4, and no bit above them counts.
fn driver_entry_sizes()
    ensures largest { can_have 0xf6 15 ≡ true }
    ensures larger { can_have 0x76 8 ≡ false }
    ensures above { can_have 0x176 8 ≡ false }
{}

/// The fields of Identify Controller: MDTS is byte 77, CNTLID from 78, NN from 516, ONCS from 520, VWC byte 525.
fn driver_identified_controllers()
    ensures facts { controller_facts (replicate 76 3 ++ 3 ∷ 4 ∷ 5 ∷ 6 ∷ 7 ∷ replicate 435 7
        ++ 8 ∷ 9 ∷ 10 ∷ 11 ∷ 12 ∷ 13 ∷ 15 ∷ 16 ∷ 17 ∷ 14 ∷ 18 ∷ [])
        ≡ record { nn = 0x0b0a0908; cntlid = 0x0605; oncs = 0x0d0c; mdts = 4; vwc = 14 } }
{}

/// CNTRLTYPE, byte 111, is 0 or 1; SQES, byte 512, and CQES, byte 513, are entries of 2 ^ 6 and 2 ^ 4 bytes.
fn driver_judged_controllers()
    ensures not_reported { judged_controller (replicate 111 1 ++ 0 ∷ replicate 400 1 ++ 0x66 ∷ 0x44 ∷ 1 ∷ [])
        ≡ Ok (controller_facts (replicate 111 1 ++ 0 ∷ replicate 400 1 ++ 0x66 ∷ 0x44 ∷ 1 ∷ [])) }
    ensures io { judged_controller (replicate 111 1 ++ 1 ∷ replicate 400 1 ++ 0x66 ∷ 0x44 ∷ 1 ∷ [])
        ≡ Ok (controller_facts (replicate 111 1 ++ 1 ∷ replicate 400 1 ++ 0x66 ∷ 0x44 ∷ 1 ∷ [])) }
    ensures discovery { judged_controller (replicate 111 1 ++ 2 ∷ replicate 400 1 ++ 0x66 ∷ 0x44 ∷ 1 ∷ [])
        ≡ Err controller_fault.NotIo }
    ensures long_commands { judged_controller (replicate 111 1 ++ 1 ∷ replicate 400 1 ++ 0x77 ∷ 0x44 ∷ 1 ∷ [])
        ≡ Err controller_fault.EntrySize }
    ensures long_completions { judged_controller (replicate 111 1 ++ 1 ∷ replicate 400 1 ++ 0x66 ∷ 0x55 ∷ 1 ∷ [])
        ≡ Err controller_fault.EntrySize }
{}
