//! Laws that follow from the definitions. Each is the contract of an empty function.

ghost use Rattle.nvme_connection.specs.Laws.{
  CallsAreTheStream,
  CommandsKeepTheirBytes,
  DataAreOwn,
  EndsAreFinal,
  Framing,
  ReadingsAreOne,
  StreamsAreRead,
};

/// How bytes are cut, into pieces or calls, makes no difference.
fn cuts_make_no_difference()
    ensures pieces { Framing }
    ensures calls { CallsAreTheStream }
{}

/// All bytes are read PDU by PDU, in one way.
fn streams_are_read_in_one_way()
    ensures exists { StreamsAreRead }
    ensures unique { ReadingsAreOne }
{}

/// A PDU has its own bytes, and an ended connection none.
fn pdus_have_their_own_bytes()
    ensures commands { CommandsKeepTheirBytes }
    ensures taken { DataAreOwn }
    ensures ended { EndsAreFinal }
{}
