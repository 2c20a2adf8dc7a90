//! Worked examples of the definitions, proved by computing.
#![tactic(auto, unfolding(crate::specs::Connections::reached, crate::specs::Streams::data_in, nvme_pdu::specs::Layouts::layout_of, nvme_pdu::specs::Layouts::request_layout, nvme_pdu::specs::Layouts::termination_layout, nvme_pdu::specs::Layouts::data_layout, nvme_pdu::specs::Agreeing::agreed_of, nvme_pdu::specs::Fields::host_data))]

ghost use Rattle.std.specs.Prelude.{◌≡◌, ◌++◌, ◌∷◌, [], true, false, length, take, replicate, Some, None};
ghost use Rattle.nvme_pdu.specs.Checking.{invalid};
ghost use Rattle.nvme_pdu.specs.Examples.{plain, digested};
ghost use Rattle.nvme_pdu.specs.declared.kind.Kind.TheVariants.{H2cData, R2t};
ghost use Rattle.nvme_connection.specs.declared.stage.Stage.TheVariants.{Taking, Whole, Complete, Ended};
ghost use Rattle.nvme_connection.specs.Connections.{
  Breaks,
  at_stage,
  begin,
  out_of_sequence,
  refused,
  wrong_header_digest,
};
ghost use Rattle.nvme_connection.specs.Examples.{
  data_header,
  ending,
  guarded,
  is_guarded,
  is_padded,
  judge,
  most_of_request,
  opened_with,
  padded,
  raw_at,
};
ghost use Rattle.nvme_connection.specs.Holding.{Holds};
ghost use Rattle.nvme_connection.specs.Raws.{kind_of, value_of};
ghost use Rattle.nvme_connection.specs.Streams.{
  after_bytes,
  after_stream,
  data_in,
  outcomes,
  stream,
  taken,
  wanted,
};

/// ICReq opens a connection. Nothing else may be first, and ICReq may be nothing else.
fn opening()
    ensures not_yet { stream (judge true true) begin most_of_request ≡ [] }
    ensures whole { (after_bytes begin (most_of_request ++ (0 ∷ []))).stage ≡ Whole }
    ensures opens { (after_stream (judge true true) begin (most_of_request ++ (0 ∷ []))).is_open ≡ true }
    ensures agreed { (after_stream (judge true true) begin (most_of_request ++ (0 ∷ []))).agreed ≡ plain }
    ensures command { outcomes begin (4 ∷ 0 ∷ 72 ∷ 0 ∷ 72 ∷ 0 ∷ 0 ∷ 0 ∷ [])
        ≡ Breaks out_of_sequence (4 ∷ 0 ∷ 72 ∷ 0 ∷ 72 ∷ 0 ∷ 0 ∷ 0 ∷ []) ∷ [] }
    ensures seven { outcomes begin (4 ∷ 0 ∷ 72 ∷ 0 ∷ 72 ∷ 0 ∷ 0 ∷ []) ≡ [] }
    ensures again { outcomes (opened_with plain) (take 8 most_of_request)
        ≡ Breaks out_of_sequence (take 8 most_of_request) ∷ [] }
    ensures version { stream (judge true true) begin (take 8 most_of_request ++ (1 ∷ replicate 119 0))
        ≡ Breaks (record { status = 6; field = 8 }) (take 8 most_of_request ++ (1 ∷ replicate 119 0)) ∷ [] }
{}

/// A header at fault ends the connection at its eighth byte, and no byte after it is taken.
fn faults()
    ensures hlen { outcomes (opened_with plain) (4 ∷ 0 ∷ 71 ∷ 0 ∷ 72 ∷ 0 ∷ 0 ∷ 0 ∷ 1 ∷ 2 ∷ [])
        ≡ Breaks (invalid 2) (4 ∷ 0 ∷ 71 ∷ 0 ∷ 72 ∷ 0 ∷ 0 ∷ 0 ∷ []) ∷ [] }
    ensures taken { taken (opened_with plain) (4 ∷ 0 ∷ 71 ∷ 0 ∷ 72 ∷ 0 ∷ 0 ∷ 0 ∷ 1 ∷ 2 ∷ []) ≡ 8 }
    ensures ended { (after_bytes (opened_with plain) (4 ∷ 0 ∷ 71 ∷ 0 ∷ 72 ∷ 0 ∷ 0 ∷ 0 ∷ 1 ∷ 2 ∷ [])).stage ≡ Ended }
    ensures datal { stream (judge true true) (opened_with plain) (data_header 4 24 28 5 ++ (1 ∷ 2 ∷ 3 ∷ 4 ∷ []))
        ≡ Breaks (invalid 16) (data_header 4 24 28 5 ++ (1 ∷ 2 ∷ 3 ∷ 4 ∷ [])) ∷ [] }
    ensures above { (refused (at_stage Complete (opened_with plain) ending) (record { status = 4; field = 0 })).1
        ≡ Some (Breaks (record { status = 4; field = 0 }) ending) }
    ensures too_early { (refused (at_stage Taking (opened_with plain) ending) (record { status = 4; field = 0 })).1
        ≡ None }
{}

/// A host that ends its connection is not answered.
fn terminations()
    ensures ended { (after_stream (judge true true) (opened_with plain) ending).stage ≡ Ended }
    ensures one { length (stream (judge true true) (opened_with plain) (ending ++ ending)) ≡ 1 }
{}

/// Padding is no data, and no byte is taken after the end of a PDU until it is judged.
fn data()
    ensures padding { data_in plain (take 28 padded) ≡ [] }
    ensures one { data_in plain (take 29 padded) ≡ 11 ∷ [] }
    ensures all { data_in plain padded ≡ 11 ∷ 12 ∷ 13 ∷ 14 ∷ [] }
    ensures header { data_in plain (take 7 padded) ≡ [] }
    ensures completes { stream (judge true true) (opened_with plain) padded ≡ is_padded ∷ [] }
    ensures without_digests { stream (judge false false) (opened_with plain) padded ≡ is_padded ∷ [] }
    ensures two { stream (judge true true) (opened_with plain) (padded ++ padded) ≡ is_padded ∷ is_padded ∷ [] }
    ensures whole { taken (opened_with plain) (padded ++ (6 ∷ [])) ≡ 32 }
    ensures wanted { wanted (after_bytes (opened_with plain) (take 30 padded)) ≡ 2 }
    ensures at_first { wanted (after_bytes (opened_with plain) (take 3 padded)) ≡ 5 }
{}

/// A wrong digest of the header ends the connection, one of the data spoils the PDU alone.
fn digests()
    ensures right { stream (judge true true) (opened_with digested) guarded ≡ is_guarded true ∷ [] }
    ensures wrong_data { stream (judge true false) (opened_with digested) guarded ≡ is_guarded false ∷ [] }
    ensures wrong_header { stream (judge false true) (opened_with digested) guarded
        ≡ Breaks wrong_header_digest guarded ∷ [] }
    ensures not_data { data_in digested (take 34 guarded) ≡ 11 ∷ 12 ∷ 13 ∷ 14 ∷ [] }
{}

/// In a struct of zeros nothing has come, and with a stage that there is not the connection has ended.
fn structs()
    ensures zeros { Holds (value_of (raw_at 0)) begin }
    ensures whole { (value_of (raw_at 1)).stage ≡ Whole }
    ensures other { (value_of (raw_at 4)).stage ≡ Ended }
    ensures bytes { kind_of 6 ≡ H2cData }
    ensures unknown { kind_of 8 ≡ R2t }
{}
