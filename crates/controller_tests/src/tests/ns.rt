//! The access state of a subsystem: its opening, a borrowed reservation, and a list that is longer than one in memory
//! can be.

use crate::tests::asserting::{expect_eq, expect_that};
use crate::tests::configuration::{configuration, opened};
use nvme_ns::{ConfigFault, ControllerConfig, NsConfig, Spaces};
use nvme_resv::Role;
use nvme_spec::Protection;
use nvme_wire::Status;
use std::test::Fail;

#[test]
fn a_cluster_opens(rt: HostRuntime) -> Result<(), Fail> {
    let config = configuration(rt.alloc(), 8)?;
    expect_eq(
        &rt,
        Spaces::new(&config, 71).err(),
        Some(ConfigFault::DoesNotFit),
    );
    let spaces = Spaces::new(&config, 72)?;
    expect_eq(
        &rt,
        [spaces.host_of(3), spaces.host_of(5)],
        [Some(0xa1), None],
    );
    for (cntlid, nsid, is_attached) in [(4, 1, true), (4, 2, false), (5, 1, false)] {
        expect_eq(&rt, spaces.is_attached(cntlid, nsid), is_attached);
    }
    expect_eq(
        &rt,
        (spaces.first_block(2), spaces.blocks(2)),
        (Some(64), Some(8)),
    );
    expect_eq(
        &rt,
        (spaces.blocks(3), spaces.protection(1)),
        (None, Some(Protection::Open)),
    );
    Ok(())
}

#[test]
fn faults_are_named(rt: HostRuntime) -> Result<(), Fail> {
    let mut config = configuration(rt.alloc(), 8)?;
    config.namespaces.push(NsConfig {
        nsid: 3,
        blocks: 0,
        shared: true,
    })?;
    expect_eq(
        &rt,
        Spaces::new(&config, 72).err(),
        Some(ConfigFault::BadSize),
    );
    let mut config = configuration(rt.alloc(), 8)?;
    config.controllers.push(ControllerConfig {
        cntlid: 6,
        host: 1,
        raw: false,
    })?;
    expect_eq(
        &rt,
        Spaces::new(&config, 72).err(),
        Some(ConfigFault::BadId),
    );
    let mut config = configuration(rt.alloc(), 8)?;
    for nsid in 3..10 {
        config.namespaces.push(NsConfig {
            nsid,
            blocks: 1,
            shared: true,
        })?;
    }
    expect_eq(
        &rt,
        Spaces::new(&config, 100).err(),
        Some(ConfigFault::TooMany),
    );
    expect_eq(
        &rt,
        format!(in rt.alloc(); "{}", ConfigFault::DoesNotFit)?.as_str(),
        "DoesNotFit",
    );
    Ok(())
}

#[test]
fn a_lent_reservation_keeps_what_is_registered(rt: HostRuntime) -> Result<(), Fail> {
    let mut spaces = opened(rt.alloc())?;
    let before = spaces
        .reservation(2)
        .expect(&rt, "namespace 2 is configured");
    expect_that(&rt, before.has_room_for(0xa1));
    expect_that(&rt, spaces.reservation_mut(2).register(0xa1, 0x11).is_ok());
    let after = spaces
        .reservation(2)
        .expect(&rt, "namespace 2 is configured");
    expect_eq(&rt, after.role(0xa1), Role::Registrant);
    let other = spaces
        .reservation(1)
        .expect(&rt, "namespace 1 is configured");
    expect_eq(&rt, other.role(0xa1), Role::Outsider);
    Ok(())
}

#[test]
fn a_list_of_2048_controllers_is_refused(rt: HostRuntime) -> Result<(), Fail> {
    let mut spaces = opened(rt.alloc())?;
    expect_eq(
        &rt,
        spaces.detach(1, &[1; 2048]),
        Err(Status::CONTROLLER_LIST_INVALID),
    );
    Ok(())
}
