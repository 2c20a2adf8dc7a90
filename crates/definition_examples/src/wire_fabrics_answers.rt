//! Answers to Fabrics commands by their numbers (NVM Express Base Specification 2.0, Status Field Definition and
//! Connect Response).

ghost use Rattle.std.specs.Prelude.{◌≡◌, true, false};
ghost use Rattle.nvme_fabrics.specs.Answers.{
  authentication_required,
  command_sequence,
  controller_busy,
  in_data,
  in_entry,
  incompatible_format,
  invalid_field,
  invalid_host,
  invalid_opcode,
  invalid_queue_type,
  sgl_length,
  success,
};
ghost use Rattle.nvme_fabrics.specs.Sessions.{authreq_atr, creation_answer, discovery_cntlid, is_successful};

/// Generic command statuses.
fn wire_generic_answers_example()
    ensures successful_completion { success ≡ record { status = record { sct = 0; sc = 0x00 }; dw0 = 0 } }
    ensures invalid_opcode { invalid_opcode ≡ record { status = record { sct = 0; sc = 0x01 }; dw0 = 0 } }
    ensures invalid_field { invalid_field ≡ record { status = record { sct = 0; sc = 0x02 }; dw0 = 0 } }
    ensures sequence_error { command_sequence ≡ record { status = record { sct = 0; sc = 0x0c }; dw0 = 0 } }
    ensures data_sgl_length { sgl_length ≡ record { status = record { sct = 0; sc = 0x0f }; dw0 = 0 } }
{}

/// Statuses of Fabrics commands. Invalid parameters are named by their offset, and by bit 16 for those in the data.
fn wire_fabrics_answers_example()
    ensures incompatible_format { incompatible_format ≡ record { status = record { sct = 1; sc = 0x80 }; dw0 = 0 } }
    ensures controller_busy { controller_busy ≡ record { status = record { sct = 1; sc = 0x81 }; dw0 = 0 } }
    ensures invalid_sqsize { in_entry 44 ≡ record { status = record { sct = 1; sc = 0x82 }; dw0 = 0x0000002c } }
    ensures invalid_hostnqn { in_data 512 ≡ record { status = record { sct = 1; sc = 0x82 }; dw0 = 0x00010200 } }
    ensures invalid_host { invalid_host ≡ record { status = record { sct = 1; sc = 0x84 }; dw0 = 0 } }
    ensures invalid_queue_type { invalid_queue_type ≡ record { status = record { sct = 1; sc = 0x85 }; dw0 = 0 } }
    ensures authentication_required { authentication_required
        ≡ record { status = record { sct = 1; sc = 0x91 }; dw0 = 0 } }
{}

/// Success is one type and one code.
fn wire_success_example()
    ensures success { is_successful (record { sct = 0; sc = 0 }) ≡ true }
    ensures other_code { is_successful (record { sct = 0; sc = 1 }) ≡ false }
    ensures other_type { is_successful (record { sct = 1; sc = 0 }) ≡ false }
{}

/// Connect is answered with why the I/O queues were not created: QID, SQSIZE, or another status as it is.
fn wire_creation_answers_example()
    ensures qid { creation_answer (record { sct = 1; sc = 0x01 })
        ≡ record { status = record { sct = 1; sc = 0x82 }; dw0 = 0x0000002a } }
    ensures sqsize { creation_answer (record { sct = 1; sc = 0x02 })
        ≡ record { status = record { sct = 1; sc = 0x82 }; dw0 = 0x0000002c } }
    ensures generic_1 { creation_answer (record { sct = 0; sc = 0x01 })
        ≡ record { status = record { sct = 0; sc = 0x01 }; dw0 = 0 } }
    ensures generic_2 { creation_answer (record { sct = 0; sc = 0x02 })
        ≡ record { status = record { sct = 0; sc = 0x02 }; dw0 = 0 } }
    ensures other { creation_answer (record { sct = 1; sc = 0x00 })
        ≡ record { status = record { sct = 1; sc = 0x00 }; dw0 = 0 } }
{}

/// AUTHREQ.ATR is bit 17. Controller identifiers are 1 to FFEFh, and begin again after these.
fn wire_connect_response_example()
    ensures authreq { authreq_atr ≡ 0x00020000 }
    ensures first { discovery_cntlid 0 ≡ 0x0001 }
    ensures last { discovery_cntlid 0xffee ≡ 0xffef }
    ensures again { discovery_cntlid 0xffef ≡ 0x0001 }
{}
