//! Polls over memory that a device writes.

ghost use Rattle.std.specs.Prelude.{◌≡◌, ◌⊎◌, ℕ, List, [], None};
ghost use Rattle.nvme_driver.specs.Examples.{io_completion};
ghost use Rattle.nvme_driver.specs.Moments.{FindsNothing, IsOfOneLane};
ghost use Rattle.nvme_driver.specs.Polls.{IsOldest, IsPolled, consumed};
ghost use Rattle.nvme_driver.specs.Ports.{IsOverMemory};
ghost use Rattle.nvme_driver.specs.Snapshots.{Settles};
ghost use Rattle.nvme_driver.specs.declared.lane.Lane.{Lane as LaneOf};
ghost use Rattle.definition_examples.specs.DriverMoments.{
  Watches,
  changing,
  flushed,
  flushing_driver,
  settling,
  torn_driver,
};

use nvme_driver::Lane;

/// Over a device that answers while a driver polls, the poll delivers the answer as it is at one moment.
fn driver_polls_of_a_device()
    ensures port { IsOverMemory (Watches settling) settling (λ moment. moment) }
    ensures settles { (lane : LaneOf) → Settles flushing_driver lane settling }
    ensures none_aborted { IsOldest flushing_driver.slots None }
    ensures polled { IsPolled (Watches settling) flushing_driver 0 (flushed 0)
        (consumed flushing_driver Lane.Io (io_completion 1 0)) 1 [] }
    ensures of_one_moment { IsOfOneLane flushing_driver settling 0 1 (flushed 0)
        (consumed flushing_driver Lane.Io (io_completion 1 0)) [] }
{}

/// Over one that changes its answer, a poll may deliver one that was there at no moment.
fn driver_polls_of_a_changing_device()
    ensures port { IsOverMemory (Watches changing) changing (λ moment. moment) }
    ensures changes { Settles flushing_driver Lane.Io changing → ⊥ }
    ensures polled { IsPolled (Watches changing) flushing_driver 0 (flushed 9) torn_driver 2 [] }
    ensures of_no_moment { FindsNothing flushing_driver changing 0 2 (flushed 9) torn_driver
        ⊎ IsOfOneLane flushing_driver changing 0 2 (flushed 9) torn_driver [] → ⊥ }
{}
