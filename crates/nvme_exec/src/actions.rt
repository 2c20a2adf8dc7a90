//! The actions of the reservation commands on the reservation of one namespace.

ghost use Rattle.std.specs.Prelude.{◌≡◌, ◌+◌, ◌≤◌, length};
ghost use Rattle.nvme_spec.specs.declared.command.Command.TheVariants.{
  ReservationRegister,
  ReservationAcquire,
  ReservationRelease,
};
ghost use Rattle.nvme_spec.specs.Commands.{rtype};
ghost use Rattle.nvme_spec.specs.IoData.{action_outcome, key_outcome, current_key, other_key};
ghost use Rattle.nvme_resv.specs.Answers.{Follows, HasRoomFor};
ghost use Rattle.nvme_exec.specs.Carrying.{FollowsSome};

use byteorder::{ByteOrder, LittleEndian};
use nvme_policy::fields::{action, cptpl, iekey, rtype};
use nvme_resv::{Change, Reservation};
use nvme_spec::HostId;
use nvme_wire::{Sqe, Status};

/// The Current Reservation Key (CRKEY), which is the first key in a command's data.
#[tactic(auto, unfolding(nvme_spec::specs::Memory::qword))]
fn current(keys: &[u8]) -> u64
    requires { 8 ≤ length keys.now }
    ensures { result ≡ current_key keys.now }
{
    LittleEndian::read_u64(&keys[..8])
}

/// The second key, to be registered (NRKEY) or preempted (PRKEY).
#[tactic(auto, unfolding(nvme_spec::specs::Memory::qword))]
fn other(keys: &[u8]) -> u64
    requires { 16 ≤ length keys.now }
    ensures { result ≡ other_key keys.now }
{
    LittleEndian::read_u64(&keys[8..16])
}

/// Reservation Register: registers, unregisters or replaces the key of a host, by the two keys of the Reservation
/// Register Data Structure, and changes whether the reservation persists through power loss.
///
/// # Errors
///
/// The status of a reservation that refuses the action. Nothing is changed then.
#[tactic(auto, unfolding(nvme_spec::specs::IoData::action_outcome))]
pub fn register(
    reservation: &mut Reservation,
    host: HostId,
    sqe: &Sqe,
    keys: &[u8],
) -> Result<Change, Status>
    requires room { HasRoomFor reservation.old host }
    requires size { 16 ≤ length keys.now }
    ensures { FollowsSome (action_outcome ReservationRegister reservation.old host sqe.now keys.now) reservation.old
        result reservation.new }
{
    let change = change_key(reservation, host, sqe, keys)?;
    match cptpl(sqe) {
        2 => reservation.set_ptpl(false),
        3 => reservation.set_ptpl(true),
        _ => {}
    }
    Ok(change)
}

/// The action of a Reservation Register on the key of a host.
fn change_key(
    reservation: &mut Reservation,
    host: HostId,
    sqe: &Sqe,
    keys: &[u8],
) -> Result<Change, Status>
    requires room { HasRoomFor reservation.old host }
    requires size { 16 ≤ length keys.now }
    ensures { Follows (key_outcome reservation.old host sqe.now keys.now) reservation.old result reservation.new }
{
    match action(sqe) {
        0 => reservation.register(host, other(keys)),
        1 => reservation.unregister(host, iekey(sqe), current(keys)),
        _ => reservation.replace(host, iekey(sqe), current(keys), other(keys)),
    }
}

/// Reservation Acquire: acquires the reservation, or preempts registrants, by the two keys of the Reservation Acquire
/// Data Structure.
///
/// # Errors
///
/// The status of a reservation that refuses the action. Nothing is changed then.
#[tactic(auto, unfolding(nvme_spec::specs::IoData::action_outcome))]
pub fn acquire(
    reservation: &mut Reservation,
    host: HostId,
    sqe: &Sqe,
    keys: &[u8],
) -> Result<Change, Status>
    requires rtype { (1 ≤ rtype sqe.now) × (rtype sqe.now ≤ 6) }
    requires size { 16 ≤ length keys.now }
    ensures { FollowsSome (action_outcome ReservationAcquire reservation.old host sqe.now keys.now) reservation.old
        result reservation.new }
{
    match action(sqe) {
        0 => reservation.acquire(host, rtype(sqe), current(keys)),
        _ => reservation.preempt(host, rtype(sqe), current(keys), other(keys)),
    }
}

/// Reservation Release: releases or clears the reservation, by the key of the Reservation Release Data Structure.
///
/// # Errors
///
/// The status of a reservation that refuses the action. Nothing is changed then.
#[tactic(auto, unfolding(nvme_spec::specs::IoData::action_outcome))]
pub fn release(
    reservation: &mut Reservation,
    host: HostId,
    sqe: &Sqe,
    keys: &[u8],
) -> Result<Change, Status>
    requires size { 8 ≤ length keys.now }
    ensures { FollowsSome (action_outcome ReservationRelease reservation.old host sqe.now keys.now) reservation.old
        result reservation.new }
{
    match action(sqe) {
        0 => reservation.release(host, rtype(sqe), current(keys)),
        _ => reservation.clear(host, current(keys)),
    }
}
