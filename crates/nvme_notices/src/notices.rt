//! The notices that a controller keeps for its host.

ghost use Rattle.std.specs.Prelude.{◌≡◌, ◌≤◌, ◌+◌, ◌++◌, length};
ghost use Rattle.nvme_notices.specs.Keeping as spec;

use crate::kept::{MOST, push, recount, shift};
use crate::notice::{Notice, NoticeType};
use crate::raw::RawNotices;
use arrayvec::ArrayVec;
use std::marker::Model;

/// A log page of 64 bytes.
type Page = ArrayVec<u8, 64>;

/// The notices of one controller: the Reservation Notification Mask of each namespace, and those that its host has not
/// read.
#[derive(Drop)]
pub struct Notices {
    count: u64,
    places: [Notice; 64],
    masks: [u32; 8],
    length: u32,
}

impl Model for Notices {
    ghost use Rattle.std.specs.Prelude.{◌≤◌, take};
    ghost use Rattle.nvme_notices.specs.Keeping.{Notices as State};

    ghost Value = { State };

    ghost view = { λ a. record { masks = a.masks; kept = take a.length a.places; count = a.count } };

    ghost invariant = { λ a. a.length ≤ 64 };
}

impl Notices {
    /// A controller after a reset: nothing is masked, and there is no notice.
    pub fn new() -> Self
        ensures { result ≡ spec.no_notices }
    {
        let nothing = Notice {
            count: 0,
            nsid: 0,
            kind: 0,
        };
        Notices {
            count: 0,
            places: [nothing; MOST],
            masks: [0; 8],
            length: 0,
        }
    }

    /// The notices in a struct that C code holds: at most 64, even if its `kept` is larger.
    pub fn of(raw: RawNotices) -> Self
        ensures { result ≡ spec.notices_of raw }
    {
        let RawNotices {
            count,
            places,
            masks,
            kept,
        } = raw;
        let length = kept.min(64);
        Notices {
            count,
            places,
            masks,
            length,
        }
    }

    /// The notices for C.
    #[tactic(auto, using(crate::proofs::Recounting::few_stay))]
    pub fn into_raw(self) -> RawNotices
        ensures { spec.notices_of result ≡ self }
    {
        let Notices {
            count,
            places,
            masks,
            length,
        } = self;
        RawNotices {
            count,
            places,
            masks,
            kept: length,
        }
    }

    /// The mask of a namespace, 1 to 8 (Reservation Notification Mask).
    pub fn mask(&self, nsid: u32) -> u32
        requires { (1 ≤ nsid) × (nsid ≤ 8) }
        ensures { result ≡ spec.mask_of self.now nsid }
    {
        self.masks[nsid as usize - 1]
    }

    /// Sets the mask of a namespace, 1 to 8, to the three bits of double word 11. Nothing else changes.
    pub fn set_mask(&mut self, nsid: u32, dw11: u32)
        requires { (1 ≤ nsid) × (nsid ≤ 8) }
        ensures { self.new ≡ spec.with_mask self.old nsid dw11 }
    {
        self.masks[nsid as usize - 1] = mask_bits(dw11);
    }

    /// Adds a notice of a namespace, 1 to 8, unless it is masked. If 64 are kept, it is lost, and the last of them gets
    /// its Log Page Count.
    pub fn add(&mut self, nsid: u32, kind: NoticeType)
        requires { (1 ≤ nsid) × (nsid ≤ 8) }
        ensures { self.new ≡ spec.added self.old nsid kind }
    {
        if is_in_mask(self.mask(nsid), kind) {
            return;
        }
        let count = count_after(self.count);
        self.count = count;
        if self.length as usize == MOST {
            recount(&mut self.places, count);
            return;
        }
        let kind = kind.number();
        push(
            &mut self.places,
            self.length as usize,
            Notice { count, nsid, kind },
        );
        self.length += 1;
    }

    /// The number of notices that were not read.
    pub fn available(&self) -> u32
        ensures count { result ≡ length self.now.kept }
        ensures most { result ≤ 64 }
    {
        let kept = &self.places[..self.length as usize];
        kept.len() as u32
    }

    /// Writes the Reservation Notification log page: the oldest notice, or zeros. Numbers are little-endian.
    pub fn page_into(&self, bytes: &mut [u8; 64])
        ensures { bytes.new ≡ spec.page self.now.kept }
    {
        if self.length == 0 {
            bytes.fill(0);
        } else {
            bytes.copy_from_slice(&page_of(&self.places[0], self.length as u8 - 1));
        }
    }

    /// Removes the oldest notice, which the host has read.
    pub fn take(&mut self)
        ensures { self.new ≡ spec.taken self.old }
    {
        if self.length != 0 {
            shift(&mut self.places);
            self.length -= 1;
        }
    }
}

/// The log page of a notice, with the number of notices after it (Number of Available Log Pages).
#[tactic(auto, unfolding(crate::specs::Keeping::page_of_notice))]
fn page_of(notice: &Notice, others: u8) -> Page
    ensures page { result.items ≡ spec.page_of_notice notice.now others }
    ensures whole { length result.items ≡ 64 }
{
    let mut page = Page::new();
    append(&mut page, &notice.count.to_le_bytes());
    append(&mut page, &[notice.kind, others, 0, 0]);
    append(&mut page, &notice.nsid.to_le_bytes());
    append(&mut page, &[0; 48]);
    page
}

/// Appends bytes, which must fit.
fn append(page: &mut Page, part: &[u8])
    requires { length page.old.items + length part.now ≤ 64 }
    ensures { page.new.items ≡ page.old.items ++ part.now }
{
    let _fits = page.try_extend_from_slice(part);
}

/// The three bits of double word 11 that are a mask.
fn mask_bits(dw11: u32) -> u32
    ensures { result ≡ spec.mask_bits dw11 }
{
    ((dw11 >> 1) & 0b111) << 1
}

/// Whether a mask has the bit of a type.
fn is_in_mask(mask: u32, kind: NoticeType) -> bool
    ensures { result ≡ spec.is_in_mask mask kind }
{
    match kind {
        NoticeType::RegistrationPreempted => (mask >> 1) & 1 == 1,
        NoticeType::ReservationReleased => (mask >> 2) & 1 == 1,
        NoticeType::ReservationPreempted => (mask >> 3) & 1 == 1,
    }
}

/// The next Log Page Count.
fn count_after(count: u64) -> u64
    ensures { result ≡ spec.count_after count }
{
    if count == u64::MAX { 1 } else { count + 1 }
}
