//! Laws that follow from the definitions. Each is the contract of an empty function.

ghost use Rattle.nvme_pdu.specs.Laws.{
  RequestsAreRead,
  TerminationsAreRead,
  CommandsAreRead,
  HostDataAreRead,
  ResponsesAreRead,
  ReadiesAreRead,
  DataAreRead,
  EndsAreRead,
  GrantsAreRead,
  PdusComeApart,
};

/// What a host writes is read by the controller as the same PDU.
fn host_pdus_are_read_back()
    ensures requests { RequestsAreRead }
    ensures terminations { TerminationsAreRead }
    ensures commands { CommandsAreRead }
    ensures host_data { HostDataAreRead }
{}

/// What a controller writes is read by the host as the same PDU.
fn controller_pdus_are_read_back()
    ensures responses { ResponsesAreRead }
    ensures readies { ReadiesAreRead }
    ensures controller_data { DataAreRead }
    ensures terminations { EndsAreRead }
    ensures grants { GrantsAreRead }
{}

/// A whole PDU has the parts of which it is put together.
fn pdus_come_apart()
    ensures { PdusComeApart }
{}
