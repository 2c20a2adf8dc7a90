//! A new controller is prepared, enabled, shut down and reset.

ghost use Rattle.std.specs.Prelude.{◌≡◌, [], ◌∷◌, Some, None, true, false};
ghost use Rattle.nvme_spec.specs.Registers.{initial_registers, value_at, after_write, after_writes, admin_queues};
ghost use Rattle.nvme_spec.specs.RegisterExamples.{prepared_registers, ready_registers};

use crate::registers::{ControllerState, RegEffect};

/// The registers of a new controller.
fn new_controller()
    ensures capabilities_low { value_at initial_registers 0x00 ≡ 0x0101003f }
    ensures capabilities_high { value_at initial_registers 0x04 ≡ 0x20 }
    ensures version { value_at initial_registers 0x08 ≡ 0x20000 }
    ensures configuration { value_at initial_registers 0x14 ≡ 0 }
    ensures status { value_at initial_registers 0x1c ≡ 0 }
    ensures reserved { value_at initial_registers 0x0c ≡ 0 }
    ensures within_a_register { value_at initial_registers 0x01 ≡ 0 }
    ensures doorbell { value_at ready_registers 0x1000 ≡ 0 }
    ensures no_queues { admin_queues initial_registers ≡ None }
{}

/// From enabled to shut down, off and failed.
fn life_of_a_controller()
    ensures effect { (after_write prepared_registers 0x14 0x00460001).effect ≡ RegEffect.Enable }
    ensures ready { value_at ready_registers 0x1c ≡ 1 }
    ensures queues { admin_queues ready_registers
        ≡ Some (record { sq_base = 0; sq_size = 8; cq_base = 0x1000; cq_size = 32 }) }
    ensures notified { (after_write ready_registers 0x14 0x00464001).effect ≡ RegEffect.Shutdown }
    ensures shut_down { value_at (after_writes ready_registers ((0x14, 0x00464001) ∷ [])) 0x1c ≡ 9 }
    ensures again { (after_write (after_writes ready_registers ((0x14, 0x00464001) ∷ [])) 0x14 0x00468001).effect
        ≡ RegEffect.Shutdown }
    ensures stays_shut_down { value_at (after_writes ready_registers ((0x14, 0x00464001) ∷ (0x14, 0x00460001) ∷ []))
        0x1c ≡ 9 }
    ensures reset { (after_write ready_registers 0x14 0).effect ≡ RegEffect.Disable }
    ensures off { value_at (after_writes ready_registers ((0x14, 0x00464001) ∷ (0x14, 0) ∷ [])) 0x1c ≡ 0 }
    ensures admin_queues_stay { value_at (after_writes ready_registers ((0x14, 0) ∷ [])) 0x24 ≡ 0x001f0007 }
    ensures failed { value_at (after_writes ready_registers ((0x14, 0x00464001) ∷ (0x14, 0) ∷ (0x14, 1) ∷ [])) 0x1c
        ≡ 2 }
    ensures nothing { (after_write (after_writes ready_registers ((0x14, 0) ∷ [])) 0x14 1).effect ≡ RegEffect.Nothing }
{}

/// An enabling write with a shutdown notification: the controller is ready, and already shut down.
fn enabled_and_shut_down()
    ensures effect { (after_write prepared_registers 0x14 0x00468001).effect ≡ RegEffect.Enable }
    ensures status { value_at (after_writes prepared_registers ((0x14, 0x00468001) ∷ [])) 0x1c ≡ 9 }
    ensures no_notification { (after_writes prepared_registers ((0x14, 0x0046c001) ∷ [])).state
        ≡ ControllerState.Ready }
{}

/// Each test of an enabling write, failed alone.
fn failed_enablings()
    ensures command_set { (after_write prepared_registers 0x14 0x00460011).registers.state ≡ ControllerState.Failed }
    ensures page_size { (after_write prepared_registers 0x14 0x00460081).registers.state ≡ ControllerState.Failed }
    ensures arbitration { (after_write prepared_registers 0x14 0x00460801).registers.state ≡ ControllerState.Failed }
    ensures submission_entries { (after_write prepared_registers 0x14 0x00470001).registers.state
        ≡ ControllerState.Failed }
    ensures completion_entries { (after_write prepared_registers 0x14 0x00560001).registers.state
        ≡ ControllerState.Failed }
    ensures one_command { (after_writes prepared_registers ((0x24, 0x001f0000) ∷ (0x14, 0x00460001) ∷ [])).state
        ≡ ControllerState.Failed }
    ensures sixty_five_commands { (after_writes prepared_registers ((0x24, 0x001f0040) ∷ (0x14, 0x00460001) ∷ [])).state
        ≡ ControllerState.Failed }
    ensures sixty_four_commands { (after_writes prepared_registers ((0x24, 0x001f003f) ∷ (0x14, 0x00460001) ∷ [])).state
        ≡ ControllerState.Ready }
    ensures one_completion { (after_writes prepared_registers ((0x24, 0x00000007) ∷ (0x14, 0x00460001) ∷ [])).state
        ≡ ControllerState.Failed }
    ensures sixty_five_completions { (after_writes prepared_registers ((0x24, 0x00400007)
        ∷ (0x14, 0x00460001) ∷ [])).state ≡ ControllerState.Failed }
    ensures submission_offset { (after_writes prepared_registers ((0x28, 0x800) ∷ (0x14, 0x00460001) ∷ [])).state
        ≡ ControllerState.Failed }
    ensures submission_outside { (after_writes prepared_registers ((0x28, 0x400000) ∷ (0x14, 0x00460001) ∷ [])).state
        ≡ ControllerState.Failed }
    ensures completion_offset { (after_writes prepared_registers ((0x30, 0x1800) ∷ (0x14, 0x00460001) ∷ [])).state
        ≡ ControllerState.Failed }
    ensures completion_outside { (after_writes prepared_registers ((0x34, 1) ∷ (0x14, 0x00460001) ∷ [])).state
        ≡ ControllerState.Failed }
{}

/// Writes to an enabled controller: of CC only the notification counts, and the admin queues' registers are ignored.
fn writes_while_enabled()
    ensures attributes { (after_writes ready_registers ((0x24, 0) ∷ [])).aqa ≡ 0x001f0007 }
    ensures address { (after_writes ready_registers ((0x28, 0x2000) ∷ (0x34, 1) ∷ [])).asq ≡ 0 }
    ensures configuration { value_at (after_writes ready_registers ((0x14, 0xffffffff) ∷ [])) 0x14 ≡ 0x0046c001 }
    ensures kept_as_written { value_at (after_writes ready_registers ((0x14, 0xfffffffe) ∷ [])) 0x14 ≡ 0xfffffffe }
    ensures status { (after_write ready_registers 0x1c 0)
        ≡ record { registers = ready_registers; effect = RegEffect.Nothing } }
{}

/// Doorbells of queues 0 to 4 ring while the controller is ready.
fn doorbells()
    ensures tail { (after_write ready_registers 0x1000 0x00010005).effect ≡ RegEffect.SqTail 0 5 }
    ensures head { (after_write ready_registers 0x100c 0xffff0003).effect ≡ RegEffect.CqHead 1 3 }
    ensures last { (after_write ready_registers 0x1024 7).effect ≡ RegEffect.CqHead 4 7 }
    ensures above { (after_write ready_registers 0x1028 7).effect ≡ RegEffect.Nothing }
    ensures between { (after_write ready_registers 0x1002 7).effect ≡ RegEffect.Nothing }
    ensures below { (after_write ready_registers 0x0ff8 7).effect ≡ RegEffect.Nothing }
    ensures off { (after_write prepared_registers 0x1000 5).effect ≡ RegEffect.Nothing }
    ensures shut_down { (after_write (after_writes ready_registers ((0x14, 0x00464001) ∷ [])) 0x1000 5).effect
        ≡ RegEffect.SqTail 0 5 }
    ensures failed { (after_write (after_writes initial_registers ((0x14, 1) ∷ [])) 0x1000 5).effect
        ≡ RegEffect.Nothing }
{}
