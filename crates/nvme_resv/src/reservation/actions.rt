//! The actions of the commands Reservation Register, Reservation Acquire and Reservation Release.

ghost use Rattle.std.specs.Prelude.{◌≡◌, ◌≤◌, ◌==◌, [], filter, not, Some};
ghost use Rattle.nvme_spec.specs.Reservation as resv;
ghost use Rattle.nvme_resv.specs.Answers.{Follows, HasRoomFor};
ghost use Rattle.nvme_resv.specs.Leaving.{leaves_test};

use super::Reservation;
use crate::change::Change;
use crate::registrants::{expel, is_registered, remove_host, set_key};
use nvme_spec::{Hold, HostId, Registrant};
use nvme_wire::Status;

impl Reservation {
    /// Registers the host with the key NRKEY (Reservation Register command, Register Reservation Key). A registered
    /// host may repeat its key.
    ///
    /// If the host is not registered, fewer than sixteen hosts must be.
    ///
    /// # Errors
    ///
    /// Reservation Conflict if the host is registered with another key. Nothing is changed then.
    pub fn register(&mut self, host: HostId, nrkey: u64) -> Result<Change, Status>
        requires { HasRoomFor self.old host }
        ensures { Follows (resv.register self.old host nrkey) self.old result self.new }
    {
        if is_registered(&self.registrants, host) && !self.has_key(host, nrkey) {
            return Err(Status::RESERVATION_CONFLICT);
        }
        Ok(self.give_key(host, nrkey))
    }

    /// Removes the host from the registrants (Reservation Register command, Unregister Reservation Key). The
    /// reservation ends if the host was its single holder, or if it has type 5 or 6 and no registrant is left.
    ///
    /// # Errors
    ///
    /// Reservation Conflict if the host is not registered, or if IEKEY is clear and CRKEY is not its key. Nothing is
    /// changed then.
    pub fn unregister(&mut self, host: HostId, iekey: bool, crkey: u64) -> Result<Change, Status>
        ensures { Follows (resv.unregister self.old host iekey crkey) self.old result self.new }
    {
        let has_right_key = iekey || self.has_key(host, crkey);
        if !is_registered(&self.registrants, host) || !has_right_key {
            return Err(Status::RESERVATION_CONFLICT);
        }
        self.remove_host(host);
        Ok(Change::none())
    }

    /// Replaces the host's key with NRKEY (Reservation Register command, Replace Reservation Key). If IEKEY is set, it
    /// registers a host that is not registered.
    ///
    /// If the host is not registered, fewer than sixteen hosts must be.
    ///
    /// # Errors
    ///
    /// Reservation Conflict if IEKEY is clear and the host is not registered with CRKEY. Nothing is changed then.
    pub fn replace(
        &mut self,
        host: HostId,
        iekey: bool,
        crkey: u64,
        nrkey: u64,
    ) -> Result<Change, Status>
        requires { HasRoomFor self.old host }
        ensures { Follows (resv.replace self.old host iekey crkey nrkey) self.old result self.new }
    {
        if !iekey && !self.has_key(host, crkey) {
            return Err(Status::RESERVATION_CONFLICT);
        }
        Ok(self.give_key(host, nrkey))
    }

    /// Acquires the reservation with type RTYPE, 1 to 6, if nobody holds it (Reservation Acquire command, Acquire). A
    /// holder may repeat it with the same type.
    ///
    /// # Errors
    ///
    /// Reservation Conflict if the host is not registered with CRKEY, if another host holds the reservation, or if it
    /// is of another type. Nothing is changed then.
    pub fn acquire(&mut self, host: HostId, rtype: u8, crkey: u64) -> Result<Change, Status>
        requires { (1 ≤ rtype) × (rtype ≤ 6) }
        ensures { Follows (resv.acquire self.old host rtype crkey) self.old result self.new }
    {
        if !self.has_key(host, crkey) {
            return Err(Status::RESERVATION_CONFLICT);
        }
        match self.hold {
            Hold::Free => {
                self.hold = taken_by(host, rtype);
                Ok(Change::none())
            }
            Hold::One(held, _) | Hold::All(held) if held == rtype && self.is_holder(host) => Ok(
                Change::none(),
            ),
            _ => Err(Status::RESERVATION_CONFLICT),
        }
    }

    /// Removes other registrants by the key PRKEY (Reservation Acquire command, Preempt), and returns them.
    ///
    /// If all registrants hold the reservation, key 0 removes all others, and the host acquires it with type RTYPE, 1
    /// to 6. If PRKEY is the key of the single holder, the others that have it are removed, and the host acquires the
    /// reservation in the same way. Any other key removes each registrant that has it, this host too, and ends the
    /// reservation only if it has type 5 or 6 and no registrant is left.
    ///
    /// # Errors
    ///
    /// Reservation Conflict if the host is not registered with CRKEY, or if nobody has PRKEY; Invalid Field in Command
    /// if PRKEY is 0 and the reservation is not held by all registrants. Nothing is changed then.
    pub fn preempt(
        &mut self,
        host: HostId,
        rtype: u8,
        crkey: u64,
        prkey: u64,
    ) -> Result<Change, Status>
        requires { (1 ≤ rtype) × (rtype ≤ 6) }
        ensures { Follows (resv.preempt self.old host rtype crkey prkey) self.old result self.new }
    {
        if !self.has_key(host, crkey) {
            return Err(Status::RESERVATION_CONFLICT);
        }
        if prkey == 0 {
            if !matches!(self.hold, Hold::All(_)) {
                return Err(Status::INVALID_FIELD_IN_COMMAND);
            }
            return Ok(self.take_over(host, rtype, None));
        }
        if self.is_holders_key(prkey) {
            return Ok(self.take_over(host, rtype, Some(prkey)));
        }
        if !self.is_key_in_use(prkey) {
            return Err(Status::RESERVATION_CONFLICT);
        }
        Ok(self.remove_key(prkey))
    }

    /// Releases the reservation (Reservation Release command, Release). A registrant that is not a holder succeeds and
    /// changes nothing.
    ///
    /// # Errors
    ///
    /// Reservation Conflict if the host is not registered with CRKEY; Invalid Field in Command if it is a holder and
    /// RTYPE is not the type of the reservation. Nothing is changed then.
    pub fn release(&mut self, host: HostId, rtype: u8, crkey: u64) -> Result<Change, Status>
        ensures { Follows (resv.release self.old host rtype crkey) self.old result self.new }
    {
        if !self.has_key(host, crkey) {
            return Err(Status::RESERVATION_CONFLICT);
        }
        if self.is_holder(host) {
            match self.hold {
                Hold::One(held, _) | Hold::All(held) if held == rtype => self.hold = Hold::Free,
                _ => return Err(Status::INVALID_FIELD_IN_COMMAND),
            }
        }
        Ok(Change::none())
    }

    /// Removes all registrants and ends the reservation (Reservation Release command, Clear).
    ///
    /// # Errors
    ///
    /// Reservation Conflict if the host is not registered with CRKEY. Nothing is changed then.
    pub fn clear(&mut self, host: HostId, crkey: u64) -> Result<Change, Status>
        ensures { Follows (resv.clear self.old host crkey) self.old result self.new }
    {
        if !self.has_key(host, crkey) {
            return Err(Status::RESERVATION_CONFLICT);
        }
        self.registrants.clear();
        self.hold = Hold::Free;
        self.generation = self.generation.wrapping_add(1);
        Ok(Change::none())
    }

    /// Registers the host with this key, or changes its key to it.
    fn give_key(&mut self, host: HostId, key: u64) -> Change
        requires { HasRoomFor self.old host }
        ensures next { self.new
            ≡ resv.next_generation self.old (resv.with_key self.old.registrants host key) self.old.hold }
        ensures removed { result.removed.items ≡ [] }
    {
        set_key(&mut self.registrants, host, key);
        self.generation = self.generation.wrapping_add(1);
        Change::none()
    }

    /// Removes the host from the registrants.
    fn remove_host(&mut self, host: HostId)
        ensures { self.new ≡ resv.remaining self.old (filter (λ r. not (r.host == host)) self.old.registrants) }
    {
        remove_host(&mut self.registrants, host);
        self.hold = remaining_hold(self.hold, &self.registrants);
        self.generation = self.generation.wrapping_add(1);
    }

    /// Removes all registrants with this key.
    fn remove_key(&mut self, key: u64) -> Change
        ensures next { self.new ≡ resv.remaining self.old (filter (λ r. not (r.key == key)) self.old.registrants) }
        ensures removed { result.removed.items ≡ resv.removed_hosts self.old.registrants self.new.registrants }
    {
        let removed = expel(&mut self.registrants, Some(key), None);
        self.hold = remaining_hold(self.hold, &self.registrants);
        self.generation = self.generation.wrapping_add(1);
        Change { removed }
    }

    /// Removes the other registrants, only those with `key` if there is one, and acquires the reservation.
    fn take_over(&mut self, host: HostId, rtype: u8, key: Option<u64>) -> Change
        ensures next { self.new ≡ resv.next_generation self.old
            (filter (λ r. not (leaves_test key (Some host) r)) self.old.registrants) (resv.taken_by host rtype) }
        ensures removed { result.removed.items ≡ resv.removed_hosts self.old.registrants self.new.registrants }
    {
        let removed = expel(&mut self.registrants, key, Some(host));
        self.hold = taken_by(host, rtype);
        self.generation = self.generation.wrapping_add(1);
        Change { removed }
    }

    fn has_key(&self, host: HostId, key: u64) -> bool
        ensures { result ≡ resv.is_registered_with self.now.registrants host key }
    {
        self.registrants
            .iter()
            .any(|r| r.host == host && r.key == key)
    }

    fn is_key_in_use(&self, key: u64) -> bool
        ensures { result ≡ resv.is_key_in_use self.now.registrants key }
    {
        self.registrants.iter().any(|r| r.key == key)
    }

    fn is_holders_key(&self, key: u64) -> bool
        ensures { result ≡ resv.is_holders_key self.now key }
    {
        match self.hold {
            Hold::One(_, holder) => self.has_key(holder, key),
            _ => false,
        }
    }
}

/// The holder after a host acquires a reservation of this type.
fn taken_by(host: HostId, rtype: u8) -> Hold
    ensures { result ≡ resv.taken_by host rtype }
{
    if rtype <= 4 {
        Hold::One(rtype, host)
    } else {
        Hold::All(rtype)
    }
}

/// The reservation after a removal of registrants. `registrants` are the remaining ones.
fn remaining_hold(hold: Hold, registrants: &[Registrant]) -> Hold
    ensures { result ≡ resv.remaining_hold hold registrants.now }
{
    match hold {
        Hold::One(_, holder) if !is_registered(registrants, holder) => Hold::Free,
        Hold::All(_) if registrants.is_empty() => Hold::Free,
        _ => hold,
    }
}
