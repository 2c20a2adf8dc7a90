//! Worked examples of the definitions, proved by computing.
#![tactic(auto, unfolding(crate::specs::Requests::host_id_of, crate::specs::Requests::host_nqn_of, crate::specs::Requests::cntlid_of, crate::specs::Requests::text_of, crate::specs::Requests::is_name, crate::specs::Requests::request_of, crate::specs::Associations::io_fits, crate::specs::Associations::fits, crate::specs::Places::controller_of, crate::specs::Places::place_of, crate::specs::Commands::command_of))]

ghost use Rattle.std.specs.Prelude.{◌≡◌, true, false, [], ◌∷◌, ◌++◌, Some, None, Ok, Err, replicate};
ghost use Rattle.nvme_fabrics.specs.declared.command.Command.TheVariants as command;
ghost use Rattle.nvme_fabrics.specs.declared.session.Session.TheVariants as session;
ghost use Rattle.nvme_fabrics.specs.declared.session.Subsystem.TheVariants as subsystem;
ghost use Rattle.nvme_fabrics.specs.Answers.{
  with_cntlid,
  command_sequence,
  sgl_length,
  incompatible_format,
  controller_busy,
  invalid_host,
  invalid_queue_type,
  invalid_field,
  invalid_opcode,
  authentication_required,
  in_entry,
  in_data,
};
ghost use Rattle.nvme_fabrics.specs.Requests.{request_fields};
ghost use Rattle.nvme_fabrics.specs.Sessions.{connection_of, live};
ghost use Rattle.nvme_fabrics.specs.Commands.{command_of};
ghost use Rattle.nvme_fabrics.specs.Laws.{host_at};
ghost use Rattle.nvme_fabrics.specs.Runs.{Connects, Authenticates, Executes, Closes, Ends, world_after};
ghost use Rattle.nvme_fabrics.specs.Examples.{
  hosts,
  entry,
  named,
  any_of,
  created,
  judged,
  two_queues,
  session_in,
  answer_to,
  other_command,
  set_cc,
  impossible,
};

/// Two connections of host 0xa1 become queues of controller 1, the only one of that host.
fn two_connect()
    ensures admin { session_in false two_queues 7 ≡ session.Queue 0 0 }
    ensures io { session_in false two_queues 8 ≡ session.Queue 0 1 }
    ensures named { connection_of (world_after hosts false two_queues).fabrics 0 1 ≡ Some 8 }
    ensures host { host_at (world_after hosts false two_queues).fabrics 0 ≡ Some 0xa1 }
    ensures other { answer_to (entry 0 31) (any_of 0xb2) judged ≡ with_cntlid 2 }
    ensures more { answer_to (entry 4 31) (named 0xa1 1 0x6e) judged ≡ with_cntlid 1 }
{}

/// With keys a connection is no queue before its host has authenticated itself.
fn with_keys()
    ensures before { connection_of (world_after hosts true (Connects 7 (entry 0 31) (any_of 0xa1) judged ∷ [])).fabrics
        0 0 ≡ None }
    ensures after { session_in true (Authenticates 7 true created ∷ Connects 7 (entry 0 31) (any_of 0xa1) judged ∷ []) 7
        ≡ session.Queue 0 0 }
    ensures without_connect { session_in true (Authenticates 7 true created ∷ []) 7 ≡ session.NotConnected }
{}

/// The first rule that a Connect breaks: its fields, its subsystem, its host.
fn refused_fields()
    ensures recfmt { answer_to (replicate 40 0 ++ (1 ∷ []) ++ replicate 23 0) (any_of 0xb2) judged
        ≡ incompatible_format }
    ensures no_data { answer_to (entry 0 31) (any_of 0xb2) (record judged { is_whole = false }) ≡ sgl_length }
    ensures no_name { answer_to (entry 0 0) (named 0xb2 2 0) judged ≡ in_data 512 }
    ensures one_entry { answer_to (entry 0 0) (any_of 0xb2) judged ≡ in_entry 44 }
    ensures many_entries { answer_to (entry 0 64) (any_of 0xb2) judged ≡ in_entry 44 }
    ensures subsystem { answer_to (entry 0 31) (any_of 0xb2) (record judged { subsystem = subsystem.Other })
        ≡ in_data 256 }
    ensures unknown { answer_to (entry 0 31) (any_of 0xb2) (record judged { is_known = false }) ≡ invalid_host }
    ensures address { answer_to (entry 0 31) (any_of 0xb2) (record judged { is_allowed = false }) ≡ invalid_host }
    ensures discovery { answer_to (entry 1 31) (any_of 0xb2) (record judged { subsystem = subsystem.Discovery })
        ≡ in_entry 42 }
{}

/// The first rule that a Connect breaks: its controller and its queue.
fn refused_queues()
    ensures no_controller { answer_to (entry 0 31) (any_of 0xc3) judged ≡ invalid_host }
    ensures of_another_host { answer_to (entry 0 31) (named 0xb2 1 0x6e) judged ≡ in_data 16 }
    ensures second_association { answer_to (entry 0 31) (named 0xa1 1 0x6e) judged ≡ controller_busy }
    ensures none_free { answer_to (entry 0 31) (any_of 0xa1) judged ≡ controller_busy }
    ensures no_association { answer_to (entry 1 31) (named 0xb2 2 0x6e) judged ≡ in_data 16 }
    ensures foreign_association { answer_to (entry 2 31) (named 0xb2 1 0x6e) judged ≡ in_data 0 }
    ensures other_name { answer_to (entry 2 31) (named 0xa1 1 0x6f) judged ≡ in_data 512 }
    ensures connected { answer_to (entry 1 31) (named 0xa1 1 0x6e) judged ≡ command_sequence }
    ensures disabled { answer_to (entry 2 31) (named 0xa1 1 0x6e) (record judged { is_enabled = false })
        ≡ command_sequence }
    ensures fifth { answer_to (entry 5 31) (named 0xa1 1 0x6e) judged ≡ in_entry 42 }
    ensures not_created { answer_to (entry 2 31) (named 0xa1 1 0x6e)
        (record judged { created = record { sct = 1; sc = 2 } }) ≡ in_entry 44 }
{}

/// A connection is no queue any more after its association, even if it does not know yet.
fn ends()
    ensures known { session_in false (Ends 0 ∷ two_queues) 8 ≡ session.Queue 0 1 }
    ensures live { live (world_after hosts false (Ends 0 ∷ two_queues)).fabrics (session.Queue 0 1) 8 ≡ session.Ended }
    ensures admin { connection_of (world_after hosts false (Closes 7 ∷ two_queues)).fabrics 0 1 ≡ None }
    ensures io { connection_of (world_after hosts false (Closes 8 ∷ two_queues)).fabrics 0 0 ≡ Some 7 }
    ensures reset { connection_of (world_after hosts false (Executes 7 (set_cc 0) ∷ two_queues)).fabrics 0 1 ≡ None }
    ensures enabled { connection_of (world_after hosts false (Executes 7 (set_cc 1) ∷ two_queues)).fabrics 0 1
        ≡ Some 8 }
    ensures foreign_reset { connection_of (world_after hosts false (Executes 8 (set_cc 0) ∷ two_queues)).fabrics 0 1
        ≡ Some 8 }
    ensures disconnect { connection_of (world_after hosts false (Executes 8 (other_command 8 0) ∷ two_queues)).fabrics
        0 1 ≡ None }
{}

/// The other commands, by what their connection is.
fn commands()
    ensures early { command_of session.NotConnected (other_command 4 0) ≡ Err command_sequence }
    ensures unauthenticated { command_of (session.Authenticating (request_fields (entry 0 31) (any_of 0xa1)) 0)
        (other_command 4 0) ≡ Err authentication_required }
    ensures again { command_of (session.Queue 0 0) (other_command 1 0) ≡ Err command_sequence }
    ensures after_end { command_of session.Ended (other_command 8 0) ≡ Err command_sequence }
    ensures receive { command_of session.NotConnected (other_command 6 0) ≡ Ok command.Authenticate }
    ensures cap { command_of session.Discovery (other_command 4 1) ≡ Ok command.GetProperty }
    ensures half_of_cap { command_of session.Discovery (other_command 4 0) ≡ Err invalid_field }
    ensures cc { command_of (session.Queue 0 0) (set_cc 1) ≡ Ok command.SetProperty }
    ensures set_cap { command_of (session.Queue 0 0) (other_command 0 1) ≡ Err invalid_field }
    ensures of_io { command_of (session.Queue 0 1) (set_cc 1) ≡ Err invalid_queue_type }
    ensures admin { command_of (session.Queue 0 0) (other_command 8 0) ≡ Err invalid_queue_type }
    ensures recfmt { command_of (session.Queue 0 1) (other_command 8 1) ≡ Err incompatible_format }
    ensures unknown { command_of (session.Queue 0 1) (other_command 9 0) ≡ Err invalid_opcode }
{}

/// Associations that are not those of a run: a connection is two queues, and an association is of another host.
fn not_of_a_run()
    ensures admin { connection_of impossible 0 0 ≡ Some 7 }
    ensures io { connection_of impossible 0 1 ≡ Some 7 }
    ensures host { host_at impossible 0 ≡ Some 0xa1 }
{}
