//! The texts of namespaces, attachments and reservations.

ghost use Rattle.std.specs.Prelude.{◌≡◌, ◌++◌, codes, decimal};
ghost use Rattle.std.specs.List.{flat_map};
ghost use Rattle.script_text.specs.Pages.{Adds};
ghost use Rattle.live_views.specs.Showing.{
  attached_text,
  attachment_text,
  hold_text,
  host_text,
  namespace_text,
  namespaces_text,
  registrant_text,
  reservation_text,
};

use crate::names::bit_name;
use nvme_ns::Namespace;
use nvme_resv::{Hold, Registrant, Reservation};
use nvme_spec::HostId;
use script_text::{NoRoom, Page, Spell, put_both, put_hex, put_labelled, put_wide_hex};

/// All namespaces.
#[derive(Clone, Copy)]
pub struct NamespacesText<'a>(pub &'a [Namespace]);

impl Spell for NamespacesText<'_> {
    ghost spelled = { λ n. namespaces_text n.0.now };

    fn spell<P: Page>(&self, page: &mut P) -> Result<(), NoRoom> {
        page.put_str("namespaces")?;
        put_namespaces(page, self.0)
    }
}

/// Puts each namespace in order.
fn put_namespaces<P: Page>(page: &mut P, namespaces: &[Namespace]) -> Result<(), NoRoom>
    ensures { Adds P.room result (P.written page.old) (flat_map namespace_text namespaces.now) (P.written page.new) }
{
    let mut rest = namespaces;
    while let Some((first, behind)) = rest.split_first() {
        put_namespace(page, first)?;
        rest = behind;
    }
    Ok(())
}

/// Puts the place of a namespace on the medium.
fn put_extent<P: Page>(page: &mut P, first: u64, blocks: u64) -> Result<(), NoRoom>
    ensures { Adds P.room result (P.written page.old)
        (codes " first " ++ decimal first ++ codes " blocks " ++ decimal blocks) (P.written page.new) }
{
    put_labelled(page, " first ", first)?;
    put_labelled(page, " blocks ", blocks)
}

/// Puts a namespace.
fn put_namespace<P: Page>(page: &mut P, namespace: &Namespace) -> Result<(), NoRoom>
    ensures { Adds P.room result (P.written page.old) (namespace_text namespace.now) (P.written page.new) }
{
    put_labelled(page, " namespace ", u64::from(namespace.nsid()))?;
    put_extent(page, namespace.first_block(), namespace.blocks())?;
    put_both(page, " shared ", bit_name(namespace.is_shared()))?;
    put_labelled(page, " protected ", u64::from(namespace.protection_state()))
}

/// All attachments.
#[derive(Clone, Copy)]
pub struct AttachedText<'a>(pub &'a [(u16, u32)]);

impl Spell for AttachedText<'_> {
    ghost spelled = { λ a. attached_text a.0.now };

    fn spell<P: Page>(&self, page: &mut P) -> Result<(), NoRoom> {
        page.put_str("attached")?;
        put_attachments(page, self.0)
    }
}

/// Puts each attachment in order.
fn put_attachments<P: Page>(page: &mut P, attachments: &[(u16, u32)]) -> Result<(), NoRoom>
    ensures { Adds P.room result (P.written page.old) (flat_map attachment_text attachments.now) (P.written page.new) }
{
    let mut rest = attachments;
    while let Some((first, behind)) = rest.split_first() {
        put_attachment(page, *first)?;
        rest = behind;
    }
    Ok(())
}

/// Puts an attachment: a controller, and a namespace.
fn put_attachment<P: Page>(page: &mut P, attachment: (u16, u32)) -> Result<(), NoRoom>
    ensures { Adds P.room result (P.written page.old) (attachment_text attachment) (P.written page.new) }
{
    let (cntlid, nsid) = attachment;
    put_labelled(page, " controller ", u64::from(cntlid))?;
    put_labelled(page, " namespace ", u64::from(nsid))
}

/// The reservation of a namespace.
#[derive(Clone, Copy)]
pub struct ReservationText<'a> {
    pub nsid: u32,
    pub reservation: &'a Reservation,
    pub protected: u32,
}

impl Spell for ReservationText<'_> {
    ghost spelled = { λ r. reservation_text r.nsid r.reservation.now r.protected };

    fn spell<P: Page>(&self, page: &mut P) -> Result<(), NoRoom> {
        let reservation = self.reservation;
        put_labelled(page, "reservation ", u64::from(self.nsid))?;
        page.put_str(" ")?;
        put_hold(page, reservation.hold())?;
        put_labelled(page, " generation ", u64::from(reservation.generation()))?;
        put_both(page, " persists ", bit_name(reservation.ptpl()))?;
        put_labelled(page, " protected ", u64::from(self.protected))?;
        put_registrants(page, reservation.registrants())
    }
}

/// Puts the identifier of a host, in hexadecimal.
fn put_host<P: Page>(page: &mut P, host: HostId) -> Result<(), NoRoom>
    ensures { Adds P.room result (P.written page.old) (host_text host) (P.written page.new) }
{
    page.put_str("0x")?;
    put_wide_hex(page, host)
}

/// Puts the holder of a reservation, with its type.
fn put_hold<P: Page>(page: &mut P, hold: Hold) -> Result<(), NoRoom>
    ensures { Adds P.room result (P.written page.old) (hold_text hold) (P.written page.new) }
{
    match hold {
        Hold::Free => page.put_str("type 0 holder none"),
        Hold::One(rtype, host) => {
            put_labelled(page, "type ", u64::from(rtype))?;
            page.put_str(" holder ")?;
            put_host(page, host)
        }
        Hold::All(rtype) => {
            put_labelled(page, "type ", u64::from(rtype))?;
            page.put_str(" holder all")
        }
    }
}

/// Puts each registrant in order.
fn put_registrants<P: Page>(page: &mut P, registrants: &[Registrant]) -> Result<(), NoRoom>
    ensures { Adds P.room result (P.written page.old) (flat_map registrant_text registrants.now) (P.written page.new) }
{
    let mut rest = registrants;
    while let Some((first, behind)) = rest.split_first() {
        put_registrant(page, *first)?;
        rest = behind;
    }
    Ok(())
}

/// Puts a registrant.
fn put_registrant<P: Page>(page: &mut P, registrant: Registrant) -> Result<(), NoRoom>
    ensures { Adds P.room result (P.written page.old) (registrant_text registrant) (P.written page.new) }
{
    page.put_str(" registrant ")?;
    put_host(page, registrant.host)?;
    page.put_str(" key 0x")?;
    put_hex(page, registrant.key)
}
