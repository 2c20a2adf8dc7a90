//! Premises of laws on Fabrics: which inputs name a host, and which make a connection a queue.

ghost use Rattle.std.specs.Prelude.{[], true, false};
ghost use Rattle.nvme_fabrics.specs.Examples.{created, hosts, set_cc, two_queues};
ghost use Rattle.nvme_fabrics.specs.Laws.{Begins, HasBegun, HasNamed, Makes, Names};
ghost use Rattle.nvme_fabrics.specs.Runs.{Authenticates, Closes, Ends, Executes, world_after};

/// Only a Connect names a host.
fn wire_named_hosts_example()
    ensures authentication { Names (Authenticates 7 true created) 7 0xa1 → ⊥ }
    ensures command { Names (Executes 7 (set_cc 1)) 7 0xa1 → ⊥ }
    ensures close { Names (Closes 7) 7 0xa1 → ⊥ }
    ensures end { Names (Ends 7) 7 0xa1 → ⊥ }
    ensures nothing { HasNamed [] 7 0xa1 → ⊥ }
{}

/// Only a Connect and the end of an authentication begin a queue.
fn wire_begun_queues_example()
    ensures command { Begins true (Executes 7 (set_cc 1)) two_queues 7 0xa1 → ⊥ }
    ensures close { Begins true (Closes 7) two_queues 7 0xa1 → ⊥ }
    ensures end { Begins true (Ends 7) two_queues 7 0xa1 → ⊥ }
    ensures nothing { HasBegun true [] 7 0xa1 → ⊥ }
    ensures nothing_without_keys { HasBegun false [] 7 0xa1 → ⊥ }
{}

/// Other commands and ends make no connection a queue.
fn wire_made_queues_example()
    ensures command { Makes (world_after hosts false two_queues) (Executes 8 (set_cc 1)) 8 0 1 → ⊥ }
    ensures close { Makes (world_after hosts false two_queues) (Closes 8) 8 0 1 → ⊥ }
    ensures end { Makes (world_after hosts false two_queues) (Ends 8) 8 0 1 → ⊥ }
{}
