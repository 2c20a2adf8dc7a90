//! A subsystem's registers through events, and configurations that are refused.

use crate::tests::asserting::{expect_eq, expect_that};
use crate::tests::configuration::shared_configuration;
use nvme_medium::MemMedium;
use nvme_spec::ConfigFault;
use nvme_subsys::{Event, Seen, Subsystem};
use std::test::Fail;

fn value(seen: &Seen) -> u32 {
    match seen {
        Seen::Value(value) => *value,
        _ => u32::MAX,
    }
}

#[test]
fn status_follows_the_configuration(rt: HostRuntime) -> Result<(), Fail> {
    let config = shared_configuration(rt.alloc(), [64, 8])?;
    let medium = MemMedium::new(rt.alloc(), &[0; 72 * 512])?;
    let mut subsystem = Subsystem::new(rt.alloc(), &config, medium).map_err(
        |refused| refused.fault,
    )?;
    let seen = subsystem.run(
        rt.alloc(),
        &[
            Event::Write32(1, 0x24, 0x001f_0007),
            Event::Write32(1, 0x30, 0x1000),
            Event::Write32(1, 0x14, 0x0046_0001),
            Event::Read32(1, 0x1c),
            Event::Write32(1, 0x14, 0x0046_4001),
            Event::Read32(1, 0x1c),
            Event::Write32(1, 0x14, 0),
            Event::Read32(1, 0x1c),
            Event::Write32(1, 0x14, 1),
            Event::Read32(1, 0x1c),
            Event::Read32(2, 0x1c),
        ],
    )?;
    expect_eq(&rt, seen.len(), 11);
    expect_eq(&rt, value(&seen[3]), 1);
    expect_eq(&rt, value(&seen[5]), 9);
    expect_eq(&rt, value(&seen[7]), 0);
    expect_eq(&rt, value(&seen[9]), 2);
    expect_eq(&rt, value(&seen[10]), 0);
    Ok(())
}

#[test]
fn a_refused_medium_comes_back(rt: HostRuntime) -> Result<(), Fail> {
    for (blocks, expected) in [
        ([64, 0], ConfigFault::BadSize),
        ([64, 9], ConfigFault::DoesNotFit),
    ] {
        let config = shared_configuration(rt.alloc(), blocks)?;
        let medium = MemMedium::new(rt.alloc(), &[7; 72 * 512])?;
        match Subsystem::new(rt.alloc(), &config, medium) {
            Ok(_) => return Err(Fail::from("a faulty configuration is accepted")),
            Err(refused) => {
                expect_eq(&rt, refused.fault, expected);
                expect_that(&rt, refused.medium.as_bytes().starts_with(&[7, 7]));
            }
        }
    }
    Ok(())
}
