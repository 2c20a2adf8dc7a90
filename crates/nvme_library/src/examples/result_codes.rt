//! Results without a value have their code alone, and the numbers of others are in their places.

ghost use Rattle.std.specs.Prelude.{◌≡◌, [], ◌∷◌, replicate, true, false, None, Some, Ok, Err};
ghost use Rattle.library_text.specs.declared.putting.Unput.TheVariants as unput;
ghost use Rattle.nvme_lent.specs.declared.bytes.LentBytes.{LentBytes};
ghost use Rattle.nvme_machine.specs.declared.need.Need.TheVariants as need;
ghost use Rattle.nvme_machine.specs.Examples.{small};
ghost use Rattle.nvme_spec.specs.declared.config.ConfigFault.TheVariants as fault;
ghost use Rattle.nvme_spec.specs.World.{Namespace, opening_world};
ghost use Rattle.nvme_library.specs.Access.{if_registered, if_reserved, registrant_at};
ghost use Rattle.nvme_library.specs.Answers.{plain, value_answer};
ghost use Rattle.nvme_library.specs.Completing.{completed_without};
ghost use Rattle.nvme_library.specs.CompletingOver.{not_completed};
ghost use Rattle.nvme_library.specs.Given.{controller_of, given_controller};
ghost use Rattle.nvme_library.specs.Needs.{needed_of, needed_of_its, told};
ghost use Rattle.nvme_library.specs.Noticing.{view_for, view_if, view_in, without_view};
ghost use Rattle.nvme_library.specs.Opening.{fault_number, returned_by};
ghost use Rattle.nvme_library.specs.Over.{not_executed};
ghost use Rattle.nvme_library.specs.Queues.{command_of, without_command, without_queue};
ghost use Rattle.nvme_library.specs.Reading.{without_read};
ghost use Rattle.nvme_library.specs.Written.{text_written, without_text};

/// A code without values, and the value of a register.
pub fn plain_codes_have_no_values()
    ensures a_code { plain 7 ≡ record { what = 7; value = 0; sct = 0; sc = 0; rule = 0 } }
    ensures a_value { value_answer 9 ≡ record { what = 3; value = 9; sct = 0; sc = 0; rule = 0 } }
{}

/// Nothing was completed, or executed over a room.
pub fn executions_without_a_value()
    ensures completing { completed_without (plain 7) ≡ record { answer = plain 7; head = 0; cqid = 0 } }
    ensures executing { not_executed 39 ≡ record { at_hand = 0; answer = plain 39 } }
    ensures completing_over { not_completed 39 ≡ record { at_hand = 0; completed = completed_without (plain 39) } }
{}

/// No such namespace is 31, and no such registrant 32.
pub fn access_without_a_value()
    ensures no_hold { (if_reserved None).what ≡ 31 }
    ensures no_registrant { (if_registered None).what ≡ 32 }
    ensures no_registrants { (registrant_at 5 None).what ≡ 31 }
{}

/// The blocks and the kind of what a command needs. No such command is 7, and no such controller 17.
pub fn needs_have_kinds()
    ensures of_nothing { told need.Nothing ≡ record { first = 0; blocks = 0; what = 0; kind = 0 } }
    ensures of_a_read { told (need.Read 5 6) ≡ record { first = 5; blocks = 6; what = 0; kind = 1 } }
    ensures of_a_write { told (need.Write 5 6) ≡ record { first = 5; blocks = 6; what = 0; kind = 2 } }
    ensures of_zeroes { told (need.Zero 5 6) ≡ record { first = 5; blocks = 6; what = 0; kind = 3 } }
    ensures of_a_flush { told need.Flush ≡ record { first = 0; blocks = 0; what = 0; kind = 4 } }
    ensures no_command { (needed_of (opening_world small) 1 None).what ≡ 7 }
    ensures no_controller { (needed_of_its (opening_world small) 1 2 None).what ≡ 17 }
{}

/// No such queue, and no such command, of three that were fetched. A command has its queue, its mark and its entry.
pub fn queues_without_a_value()
    ensures no_queue { without_queue 28
        ≡ record { base = 0; what = 28; size = 0; head = 0; tail = 0; cqid = 0; phase = false } }
    ensures no_such_place { without_command 3 17
        ≡ record { count = 3; what = 17; qid = 0; marked = false; entry = replicate 64 0 } }
    ensures no_fetched_one { (command_of 3 None).what ≡ 7 }
    ensures fetched_one { command_of 3 (Some (record { entry = 9 ∷ []; queue = 2; marked = true }))
        ≡ record { count = 3; what = 0; qid = 2; marked = true; entry = 9 ∷ [] } }
{}

/// How a reservation concerns a host: no such namespace is 31, and no such controller 17.
pub fn views_without_a_value()
    ensures no_view { without_view 17 ≡ record { what = 17; rtype = 0; is_registrant = false } }
    ensures a_view { (n : Namespace) → (view_in n 5).what ≡ 0 }
    ensures no_namespace { (view_if None 5).what ≡ 31 }
    ensures no_controller { (view_for (opening_world small) 1 None).what ≡ 17 }
{}

/// A host identifier has 64 bits in each half.
pub fn host_identifiers_have_halves()
    ensures joined { (controller_of (record { host_low = 5; host_high = 1; cntlid = 7; raw = true })).host
        ≡ 0x10000000000000005 }
    ensures halved { given_controller (record { cntlid = 7; host = 0x10000000000000005; raw = true })
        ≡ record { host_low = 5; host_high = 1; cntlid = 7; raw = true } }
{}

/// No configuration was read, or no text was put into a buffer, for a reason. A text that was put has its length.
pub fn texts_without_a_value()
    ensures no_configuration { without_read 33
        ≡ record { controllers = 0; namespaces = 0; attached = 0; line = 0; column = 0; length = 0; what = 33 } }
    ensures no_text { without_text 34 ≡ record { length = 0; what = 34 } }
    ensures a_text { text_written (Ok 5) ≡ record { length = 5; what = 0 } }
    ensures no_room { text_written (Err unput.NoRoom) ≡ record { length = 0; what = 33 } }
    ensures no_memory { text_written (Err unput.NoMemory) ≡ record { length = 0; what = 27 } }
{}

/// The faults of a configuration have the numbers 23 to 26, and refused memory has 27. An opening that succeeds keeps
/// the borrowed bytes, and any other returns them.
pub fn openings_have_numbers()
    ensures bad_id { fault_number fault.BadId ≡ 23 }
    ensures bad_size { fault_number fault.BadSize ≡ 24 }
    ensures too_many { fault_number fault.TooMany ≡ 25 }
    ensures too_large { fault_number fault.DoesNotFit ≡ 26 }
    ensures no_memory { fault_number fault.NoMemory ≡ 27 }
    ensures kept { (bytes : LentBytes) → returned_by 0 bytes ≡ None }
    ensures returned { (bytes : LentBytes) → returned_by 1 bytes ≡ Some bytes }
{}
