//! The most registrants of a reservation.

use crate::tests::asserting::{expect_eq, expect_that};
use nvme_resv::{Reservation, Role};
use nvme_spec::HostId;
use std::test::Fail;

#[test]
fn sixteen_registrants(rt: HostRuntime) -> Result<(), Fail> {
    let mut reservation = Reservation::new();
    for key in 1..=16 {
        let host = HostId::from(key);
        assert!(rt; reservation.has_room_for(host));
        reservation.register(host, key)?;
    }
    expect_that(&rt, !reservation.has_room_for(17));
    expect_that(&rt, reservation.has_room_for(16));
    let change = reservation.replace(16, true, 0, 1)?;
    expect_that(&rt, change.removed.is_empty());
    reservation.clear(16, 1)?;
    expect_eq(&rt, reservation.role(1), Role::Outsider);
    expect_that(&rt, reservation.has_room_for(17));
    reservation.replace(17, true, 0, 1)?;
    expect_eq(&rt, reservation.role(17), Role::Registrant);
    Ok(())
}
