//! Laws over any run of inputs. Each is the contract of an empty function.

ghost use Rattle.nvme_fabrics.specs.Laws.{
  OwnHost,
  AdmittedHost,
  ProvedHost,
  GivenHosts,
  OneQueue,
  IsLive,
  IsNamed,
  SameController,
  EndIsFinal,
  NothingElse,
  EndsTogether,
  SameHosts,
  RefusedKeeps,
  ChosenIsFree,
  NoneIsFree,
};

/// A connection is a queue of a controller only by a Connect of its own that named the controller's host, and after
/// that host has authenticated itself if hosts have keys.
fn own_host()
    ensures { OwnHost }
{}

/// What a connection asks for before it is a queue is of its own host too, and hosts are those that were given.
fn hosts_before_queues()
    ensures admitted { AdmittedHost }
    ensures proved { ProvedHost }
    ensures given { GivenHosts }
{}

/// No connection is two queues, and no queue has two connections.
fn one_queue()
    ensures queues { OneQueue }
    ensures live { IsLive }
    ensures named { IsNamed }
{}

/// A refused Connect changes nothing.
fn refused_keeps()
    ensures { RefusedKeeps }
{}

/// A host that takes any controller gets a free one of its own, if there is one.
fn free_controllers()
    ensures chosen { ChosenIsFree }
    ensures none { NoneIsFree }
{}

/// A queue never becomes that of another controller, and what has ended stays so.
fn same_controller()
    ensures same { SameController }
    ensures ended { EndIsFinal }
{}

/// Nothing but a Connect of its own makes a connection a queue.
fn nothing_else()
    ensures { NothingElse }
{}

/// All queues of a controller end with its association. No input changes which host a controller has.
fn ends_together()
    ensures queues { EndsTogether }
    ensures hosts { SameHosts }
{}
