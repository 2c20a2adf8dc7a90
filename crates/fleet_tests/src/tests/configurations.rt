//! Configurations that are refused, and refused memory: the medium is returned in each case.

use crate::tests::asserting::{expect_eq, expect_that};
use crate::tests::bench::configuration;
use nvme_fleet::Fleet;
use nvme_medium::MemMedium;
use nvme_spec::ConfigFault;
use std::alloc::Global;
use std::test::Fail;

// A medium whose blocks differ.
fn marked_medium(alloc: Global) -> Result<MemMedium, Fail> {
    let mut bytes = [7; 72 * 512];
    bytes[0] = 1;
    bytes[36_863] = 9;
    Ok(MemMedium::new(alloc, &bytes)?)
}

/// Whether a medium is the marked one, unchanged.
fn is_unchanged(medium: &MemMedium) -> bool {
    let bytes = medium.as_bytes();
    let (Some(first), Some(last)) = (bytes.first(), bytes.last()) else {
        return false;
    };
    bytes.len() == 72 * 512
        && *first == 1
        && *last == 9
        && bytes.get(1..36_863) == Some([7; 36_862].as_slice())
}

#[test]
fn a_refused_configuration_hands_the_medium_back(rt: HostRuntime) -> Result<(), Fail> {
    for (blocks, expected) in [
        (0, ConfigFault::BadSize),
        (65_537, ConfigFault::BadSize),
        (9, ConfigFault::DoesNotFit),
    ] {
        let config = configuration(rt.alloc(), blocks)?;
        let Err(refused) = Fleet::new(rt.alloc(), &config, marked_medium(rt.alloc())?) else {
            return Err(Fail::from("a faulty configuration is accepted"));
        };
        expect_eq(&rt, refused.fault, expected);
        expect_that(&rt, is_unchanged(&refused.medium));
    }
    Ok(())
}

// It holds whichever allocation of `Fleet::new` is refused, as `rt try --fail-alloc` refuses them.
#[test]
fn want_of_memory_hands_the_medium_back(rt: HostRuntime) -> Result<(), Fail> {
    let config = configuration(rt.alloc(), 8)?;
    match Fleet::new(rt.alloc(), &config, marked_medium(rt.alloc())?) {
        Ok(fleet) => expect_that(&rt, is_unchanged(&fleet.into_medium())),
        Err(refused) => {
            expect_eq(&rt, refused.fault, ConfigFault::NoMemory);
            expect_that(&rt, is_unchanged(&refused.medium));
        }
    }
    Ok(())
}
