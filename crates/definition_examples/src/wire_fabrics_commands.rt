//! Fabrics commands other than Connect (NVM Express Base Specification 2.0, Fabrics Command Set).
#![tactic(auto, unfolding(nvme_fabrics::specs::Requests::host_id_of, nvme_fabrics::specs::Requests::host_nqn_of, nvme_fabrics::specs::Requests::cntlid_of, nvme_fabrics::specs::Commands::command_of))]

ghost use Rattle.std.specs.Prelude.{◌≡◌, [], true, false, Ok, Err};
ghost use Rattle.nvme_fabrics.specs.declared.command.Command.TheVariants as command;
ghost use Rattle.nvme_fabrics.specs.declared.session.Session.TheVariants as session;
ghost use Rattle.nvme_fabrics.specs.Answers.{authentication_required, invalid_opcode, invalid_queue_type};
ghost use Rattle.nvme_fabrics.specs.Commands.{command_of, enables, fctype_of, has_eight_bytes};
ghost use Rattle.nvme_fabrics.specs.Examples.{any_of, entry, other_command, set_cc};
ghost use Rattle.nvme_fabrics.specs.Requests.{request_fields};

/// FCTYPE, ATTRIB, and CC.EN, which is bit 0 of the value. A field that has not come is 0.
fn wire_property_fields_example()
    ensures fctype { fctype_of (other_command 8 1) ≡ 8 }
    ensures eight_bytes { has_eight_bytes (other_command 4 1) ≡ true }
    ensures four_bytes { has_eight_bytes (other_command 4 0) ≡ false }
    ensures enabled { enables (set_cc 1) ≡ true }
    ensures disabled { enables (set_cc 2) ≡ false }
    ensures no_fctype { fctype_of [] ≡ 0 }
    ensures no_attrib { has_eight_bytes [] ≡ false }
    ensures no_value { enables [] ≡ false }
{}

/// An Admin Queue takes Property Set, Property Get and authentication. Disconnect is for I/O queues.
fn wire_admin_queue_commands_example()
    ensures property_set { command_of (session.Queue 0 0) (set_cc 1) ≡ Ok command.SetProperty }
    ensures property_get { command_of (session.Queue 0 0) (other_command 4 1) ≡ Ok command.GetProperty }
    ensures authentication_send { command_of (session.Queue 0 0) (other_command 5 0) ≡ Ok command.Authenticate }
    ensures authentication_receive { command_of (session.Queue 0 0) (other_command 6 0) ≡ Ok command.Authenticate }
    ensures disconnect { command_of (session.Queue 0 0) (other_command 8 0) ≡ Err invalid_queue_type }
    ensures unknown { command_of (session.Queue 0 0) (other_command 9 0) ≡ Err invalid_opcode }
{}

/// An I/O queue takes authentication and Disconnect. Properties are for Admin Queues.
fn wire_io_queue_commands_example()
    ensures property_set { command_of (session.Queue 0 1) (set_cc 1) ≡ Err invalid_queue_type }
    ensures property_get { command_of (session.Queue 0 1) (other_command 4 1) ≡ Err invalid_queue_type }
    ensures authentication_send { command_of (session.Queue 0 1) (other_command 5 0) ≡ Ok command.Authenticate }
    ensures authentication_receive { command_of (session.Queue 0 1) (other_command 6 0) ≡ Ok command.Authenticate }
    ensures disconnect { command_of (session.Queue 0 1) (other_command 8 0) ≡ Ok command.Disconnect }
    ensures unknown { command_of (session.Queue 0 1) (other_command 9 0) ≡ Err invalid_opcode }
{}

/// Before its host has authenticated itself, a connection takes authentication and Disconnect.
fn wire_early_commands_example()
    ensures authentication_send { command_of
        (session.Authenticating (request_fields (entry 0 31) (any_of 0xa1)) 0) (other_command 5 0)
        ≡ Ok command.Authenticate }
    ensures disconnect { command_of
        (session.Authenticating (request_fields (entry 0 31) (any_of 0xa1)) 0) (other_command 8 0)
        ≡ Ok command.Disconnect }
    ensures property_set { command_of
        (session.Authenticating (request_fields (entry 0 31) (any_of 0xa1)) 0) (set_cc 1)
        ≡ Err authentication_required }
{}
