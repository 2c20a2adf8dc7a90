//! The registers of a controller, and its window.

use crate::tests::asserting::expect_eq;
use nvme_ctrl::Controller;
use std::test::Fail;

#[test]
fn status_follows_the_configuration(rt: HostRuntime) -> Result<(), Fail> {
    let mut controller = Controller::new(rt.alloc(), 1)?;
    controller.write32(0x24, 0x001f_0007);
    controller.write32(0x30, 0x1000);
    controller.write32(0x14, 0x0046_0001);
    expect_eq(&rt, controller.read32(0x1c), 1);
    controller.write32(0x14, 0x0046_4001);
    expect_eq(&rt, controller.read32(0x1c), 9);
    controller.write32(0x14, 0);
    expect_eq(&rt, controller.read32(0x1c), 0);
    controller.write32(0x14, 1);
    expect_eq(&rt, controller.read32(0x1c), 2);
    Ok(())
}

#[test]
fn a_lent_window_is_the_controllers(rt: HostRuntime) -> Result<(), Fail> {
    let mut controller = Controller::new(rt.alloc(), 1)?;
    controller.window_mut().store(0x3000, b"Hello")?;
    assert!(rt; controller.window().piece(0x3000, 5) == Some(b"Hello".as_slice()));
    Ok(())
}
