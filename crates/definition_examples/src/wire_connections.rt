//! The controller's end of a connection (NVMe/TCP Transport Specification 1.0, Connection Establishment and Error
//! Handling Model).
#![tactic(auto, unfolding(nvme_pdu::specs::Layouts::layout_of, nvme_pdu::specs::Layouts::request_layout, nvme_pdu::specs::Layouts::termination_layout, nvme_pdu::specs::Layouts::data_layout))]

ghost use Rattle.std.specs.Prelude.{◌≡◌, ◌++◌, [], ◌∷◌, true, false, take, Some, None};
ghost use Rattle.nvme_pdu.specs.Examples.{plain};
ghost use Rattle.nvme_connection.specs.declared.judged.Verdict.TheVariants as verdicts;
ghost use Rattle.nvme_connection.specs.declared.stage.Stage.TheVariants.{Complete, Ended, Taking, Whole};
ghost use Rattle.nvme_connection.specs.Connections.{
  Breaks,
  at_stage,
  begin,
  is_in_turn,
  out_of_sequence,
  wrong_header_digest,
};
ghost use Rattle.nvme_connection.specs.Examples.{ending, ending_layout, opened_with, padded, padded_layout, raw_at};
ghost use Rattle.nvme_connection.specs.Holding.{IsKept, IsLaid, Judges};
ghost use Rattle.nvme_connection.specs.Raws.{value_of};
ghost use Rattle.nvme_connection.specs.Streams.{layout_at};

/// Fatal Error Status of a PDU Sequence Error and of a Header Digest Error.
fn wire_fatal_statuses_example()
    ensures sequence { out_of_sequence ≡ record { status = 2; field = 0 } }
    ensures digest { wrong_header_digest ≡ record { status = 3; field = 0 } }
{}

/// ICReq, PDU-Type 0, is in turn before the connection is open, and nothing else is. Without any byte, the type is 0.
fn wire_sequence_example()
    ensures first { is_in_turn begin (0 ∷ 4 ∷ 128 ∷ []) ≡ true }
    ensures too_early { is_in_turn begin (4 ∷ 0 ∷ 72 ∷ []) ≡ false }
    ensures nothing_first { is_in_turn begin [] ≡ true }
    ensures later { is_in_turn (opened_with plain) (4 ∷ 0 ∷ 72 ∷ []) ≡ true }
    ensures again { is_in_turn (opened_with plain) (0 ∷ 4 ∷ 128 ∷ []) ≡ false }
    ensures nothing_later { is_in_turn (opened_with plain) [] ≡ false }
{}

/// The layout of the PDU in hand is known from its eighth byte until it is judged.
fn wire_layout_in_hand_example()
    ensures seven { layout_at Taking (at_stage Taking (opened_with plain) (take 7 padded)) ≡ None }
    ensures eight { layout_at Taking (at_stage Taking (opened_with plain) (take 8 padded)) ≡ Some padded_layout }
    ensures whole { layout_at Whole (at_stage Whole (opened_with plain) padded) ≡ Some padded_layout }
    ensures judged { layout_at Complete (at_stage Complete (opened_with plain) padded) ≡ None }
    ensures ended { layout_at Ended (at_stage Ended (opened_with plain) padded) ≡ None }
{}

/// What a connection keeps of a PDU: not more bytes than this has, their number, and the first ones as they came.
fn wire_kept_bytes_example()
    ensures too_many { IsLaid (at_stage Whole (opened_with plain) (ending ++ (7 ∷ []))) ending_layout → ⊥ }
    ensures other_count { IsKept 0 [] (5 ∷ []) 2 (5 ∷ []) → ⊥ }
    ensures other_bytes { IsKept 0 [] (5 ∷ []) 1 (6 ∷ []) → ⊥ }
{}

/// A breach that is judged ends the connection and is reported.
fn wire_judged_breach_example()
    ensures goes_on { Judges (at_stage Ended begin [], Some (Breaks out_of_sequence [])) begin
        (verdicts.Breaks out_of_sequence) (value_of (raw_at 0)) → ⊥ }
    ensures not_reported { Judges (begin, None) begin (verdicts.Breaks out_of_sequence) (value_of (raw_at 0)) → ⊥ }
{}
