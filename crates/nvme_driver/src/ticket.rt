//! Tickets, the numbers of a host's requests.

ghost use Rattle.std.specs.Prelude.{◌≡◌, ◌+◌, ◌^◌, ◌<◌, ◌≤◌, IfSome, IsSome, ◌↔◌};
ghost use Rattle.nvme_driver.specs.Drivers.{ticket_count};

use std::marker::Model;

/// The number of a request: each driver counts its own, and issues none twice.
#[derive(Clone, Copy, Debug, PartialEq, Eq)]
pub struct Ticket(pub u64);

/// The tickets that are left. Contracts see the next one's number, 2 ^ 64 if none is left.
#[derive(Drop)]
pub struct Tickets {
    next: Option<u64>,
}

impl Model for Tickets {
    ghost use Rattle.std.specs.Prelude.{ℕ};
    ghost use Rattle.nvme_driver.specs.Tickets.{next_number};

    ghost Value = { ℕ };

    ghost view = { λ t. next_number t.next };
}

impl Tickets {
    /// All tickets from `first`.
    pub fn starting_at(first: u64) -> Tickets
        ensures { result ≡ first }
    {
        Tickets { next: Some(first) }
    }

    /// The next ticket, or `None` if none is left.
    pub fn peek(&self) -> Option<Ticket>
        ensures next { IfSome result (λ ticket. ticket ≡ record { 0 = self.now }) }
        ensures left { IsSome result ↔ (self.now < ticket_count) }
    {
        self.next.map(Ticket)
    }

    /// Issues the next ticket, which must exist.
    pub fn advance(&mut self)
        requires { self.old < ticket_count }
        ensures { self.new ≡ self.old + 1 }
    {
        self.next = self.next.and_then(|number| number.checked_add(1));
    }
}
