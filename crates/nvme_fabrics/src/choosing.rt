//! The controller of a request.

ghost use Rattle.std.specs.Prelude.{◌≡◌, ◌<◌, ◌==◌, IfOk, true};
ghost use Rattle.std.specs.List.{list_any};
ghost use Rattle.nvme_fabrics.specs.Places as def;

use crate::answer::{Answer, check};
use crate::association::Controller;
use crate::request::Request;

/// The place of the controller that a request is for, or the answer of the first rule that is broken.
#[tactic(auto, unfolding(crate::specs::Places::controller_of))]
pub(crate) fn controller_of(
    controllers: &[Controller; 16],
    request: &Request,
    counts: &[u32; 16],
) -> Result<u16, Answer>
    ensures exact { result ≡ def.controller_of controllers.now request.now counts.now }
{
    if request.qid == 0 {
        check(Answer::of(1, 0x84), has_host(controllers, request.host_id))?;
        if request.cntlid == 0xffff {
            return free_controller(controllers, request.host_id, counts);
        }
    }
    check(
        Answer::in_data(16),
        1 <= request.cntlid && request.cntlid <= 16,
    )?;
    Ok(request.cntlid - 1)
}

/// Whether there is a controller of this host.
fn has_host(controllers: &[Controller], host_id: u128) -> bool
    ensures { result ≡ def.has_host host_id controllers.now }
{
    controllers.iter().any(|it| it.is_of(host_id))
}

/// The free controller of a host for which the fewest authenticate themselves: the first of these.
fn free_controller(
    controllers: &[Controller; 16],
    host_id: u128,
    counts: &[u32; 16],
) -> Result<u16, Answer>
    ensures { result ≡ def.free_controller controllers.now host_id counts.now }
{
    let mut best = None;
    for i in 0..16_u16 {
        let place = usize::from(i);
        best = better(
            best,
            i,
            counts[place],
            is_free(&controllers[place], host_id),
        );
    }
    match best {
        Some((index, _)) => Ok(index),
        None => Err(Answer::of(1, 0x81)),
    }
}

/// Whether a controller is one of this host and has no association.
fn is_free(controller: &Controller, host_id: u128) -> bool
    ensures { result ≡ def.is_free host_id controller.now }
{
    controller.is_of(host_id) && controller.association.is_none()
}

/// The better of two.
fn better(best: Option<(u16, u32)>, index: u16, counts: u32, is_free: bool) -> Option<(u16, u32)>
    ensures { result ≡ def.better best index counts is_free }
{
    match best {
        Some((_, fewest)) if !is_free || fewest <= counts => best,
        None if !is_free => None,
        _ => Some((index, counts)),
    }
}
