//! Verdicts on reads and writes of one controller.

ghost use Rattle.std.specs.Prelude.{◌≡◌, true, false};
ghost use Rattle.nvme_spec.specs.Examples.{single};
ghost use Rattle.nvme_spec.specs.Entries.{transfer_entry};
ghost use Rattle.nvme_spec.specs.World.{opening_world};
ghost use Rattle.nvme_spec.specs.Commands.{plan_of};
ghost use Rattle.nvme_spec.specs.IoRules.{verdict};
ghost use Rattle.nvme_spec.specs.Statuses as status;
ghost use Rattle.nvme_spec.specs.declared.verdict.Verdict.TheVariants.{Allowed, Denied};
ghost use Rattle.nvme_spec.specs.declared.command.Command.TheVariants.{Read, Write};

/// A controller with one namespace of 64 blocks: reads and writes within it and past its end.
fn one_namespace()
    ensures read { verdict (opening_world single) 1 (transfer_entry 2 1 0 1) false
        ≡ Allowed (record { kind = Read; first = 0; blocks = 1; bytes = 512 }) }
    ensures last { verdict (opening_world single) 1 (transfer_entry 1 1 63 1) false
        ≡ Allowed (record { kind = Write; first = 63; blocks = 1; bytes = 512 }) }
    ensures past_the_end { verdict (opening_world single) 1 (transfer_entry 2 1 64 1) false
        ≡ Denied 9 status.lba_out_of_range }
    ensures over_the_end { verdict (opening_world single) 1 (transfer_entry 2 1 63 2) false
        ≡ Denied 9 status.lba_out_of_range }
    ensures largest { verdict (opening_world single) 1 (transfer_entry 2 1 18446744073709551615 1) false
        ≡ Denied 9 status.lba_out_of_range }
    ensures not_attached { verdict (opening_world single) 1 (transfer_entry 2 2 0 1) false
        ≡ Denied 5 status.invalid_field_in_command }
    ensures no_such_namespace { verdict (opening_world single) 1 (transfer_entry 2 9 0 1) false
        ≡ Denied 4 status.invalid_namespace_or_format }
{}

/// Each rule before the range, by a Read that fails it.
fn first_failing_rules()
    ensures marked { verdict (opening_world single) 1 (transfer_entry 2 1 0 1) true
        ≡ Denied 1 status.command_aborted_due_to_preempt_and_abort }
    ensures opcode { verdict (opening_world single) 1 (transfer_entry 3 1 0 1) false
        ≡ Denied 2 status.invalid_command_opcode }
    ensures fused { verdict (opening_world single) 1 (transfer_entry 0x102 1 0 1) false
        ≡ Denied 3 status.invalid_field_in_command }
    ensures with_sgl { verdict (opening_world single) 1 (transfer_entry 0x4002 1 0 1) false
        ≡ Denied 3 status.invalid_field_in_command }
    ensures nsid_zero { verdict (opening_world single) 1 (transfer_entry 2 0 0 1) false
        ≡ Denied 4 status.invalid_namespace_or_format }
    ensures broadcast { verdict (opening_world single) 1 (transfer_entry 2 0xffffffff 0 1) false
        ≡ Denied 4 status.invalid_namespace_or_format }
    ensures too_long { verdict (opening_world single) 1 (transfer_entry 2 1 0 257) false
        ≡ Denied 6 status.invalid_field_in_command }
    ensures marked_first { verdict (opening_world single) 1 (transfer_entry 3 0 64 257) true
        ≡ Denied 1 status.command_aborted_due_to_preempt_and_abort }
    ensures opcode_before_form { verdict (opening_world single) 1 (transfer_entry 0x103 0 64 257) false
        ≡ Denied 2 status.invalid_command_opcode }
    ensures form_before_namespace { verdict (opening_world single) 1 (transfer_entry 0x102 0 64 257) false
        ≡ Denied 3 status.invalid_field_in_command }
    ensures namespace_before_field { verdict (opening_world single) 1 (transfer_entry 2 9 64 257) false
        ≡ Denied 4 status.invalid_namespace_or_format }
    ensures attached_before_field { verdict (opening_world single) 1 (transfer_entry 2 2 64 257) false
        ≡ Denied 5 status.invalid_field_in_command }
    ensures field_before_range { verdict (opening_world single) 1 (transfer_entry 2 1 64 257) false
        ≡ Denied 6 status.invalid_field_in_command }
{}
