//! The PRP list of a slot.

ghost use Rattle.std.specs.Prelude.{◌≡◌, ◌+◌, ◌-◌, ◌*◌, ◌++◌, ◌^◌, ◌≤◌, ◌<◌, length, replicate};
ghost use Rattle.nvme_spec.specs.Bytes.{with_bytes};
ghost use Rattle.nvme_spec.specs.Limits.{most_bytes};
ghost use Rattle.nvme_spec.specs.Memory.{window_size};
ghost use Rattle.nvme_driver.specs.Calls.{Stores};
ghost use Rattle.nvme_driver.specs.Layout.{slot_count, list_page as page_of_list};
ghost use Rattle.nvme_driver.specs.Pointers.{page_entries, listed_pages as pages_listed, stored_list};

use crate::bytes::put_bytes;
use crate::layout::{PAGE, data_area, list_page};
use crate::port::Port;
use std::marker::Model;

/// A PRP list: the addresses of the second and the later pages of a slot's data, or empty if PRP entry 2 is not the
/// address of a list. Contracts see its bytes.
#[derive(Drop)]
struct PageList {
    bytes: [u8; 248],
    len: usize,
}

impl Model for PageList {
    ghost use Rattle.std.specs.Prelude.{ℕ, List, take, ◌≤◌};

    ghost Value = { List ℕ };

    ghost view = { λ l. take l.len l.bytes };

    ghost invariant = { λ l. l.len ≤ 248 };
}

/// The number of pages in the list for `moved` bytes: none if two PRP entries are enough.
fn listed_pages(moved: usize) -> usize
    requires { moved ≤ most_bytes }
    ensures pages { result ≡ pages_listed moved }
    ensures most { result ≤ 31 }
{
    if moved <= 2 * PAGE {
        0
    } else {
        (moved - 1) / PAGE
    }
}

/// The addresses of `pages` adjacent pages from `first`, eight bytes each, and zeros.
fn spell(first: u64, pages: usize) -> [u8; 248]
    requires few { pages ≤ 31 }
    requires fits { first < 2 ^ 32 }
    ensures { result ≡ page_entries first pages ++ replicate (248 - 8 * pages) 0 }
{
    let mut bytes = [0; 248];
    for index in 0..pages {
        let page = first + (PAGE * index) as u64;
        put_bytes(&mut bytes, 8 * index, &page.to_le_bytes());
    }
    bytes
}

impl PageList {
    /// The list of a slot for `moved` bytes.
    fn new(slot: usize, moved: usize) -> PageList
        requires slot { slot < slot_count }
        requires moved { moved ≤ most_bytes }
        ensures { result ≡ stored_list slot moved }
    {
        let pages = listed_pages(moved);
        PageList {
            bytes: spell(data_area(slot) + PAGE as u64, pages),
            len: 8 * pages,
        }
    }

    /// The bytes of the list.
    fn as_slice(&self) -> &[u8]
        ensures { result.now ≡ self.now }
    {
        &self.bytes[..self.len]
    }
}

/// Stores the list of a slot for `moved` bytes in the slot's list page; nothing if PRP entry 2 is not the address of a
/// list.
#[tactic(auto, unfolding(crate::specs::Pointers::page_entries))]
pub fn store_page_list<P: Port>(port: &mut P, slot: usize, moved: usize)
    requires slot { slot < slot_count }
    requires moved { moved ≤ most_bytes }
    ensures step { P.step port.old (Stores (page_of_list slot) (stored_list slot moved)) port.new }
    ensures bytes { P.bytes port.new ≡ with_bytes (P.bytes port.old) (page_of_list slot) (stored_list slot moved) }
    ensures links { P.links port.new ≡ P.links port.old }
{
    if listed_pages(moved) == 0 {
        port.store(list_page(slot), &[]);
    } else {
        store_pages(port, slot, moved);
    }
}

/// Stores a list of pages.
// Not inlined, so that requests with a page or two of data do not pay for a list's buffer.
#[inline(never)]
fn store_pages<P: Port>(port: &mut P, slot: usize, moved: usize)
    requires slot { slot < slot_count }
    requires moved { moved ≤ most_bytes }
    ensures step { P.step port.old (Stores (page_of_list slot) (stored_list slot moved)) port.new }
    ensures bytes { P.bytes port.new ≡ with_bytes (P.bytes port.old) (page_of_list slot) (stored_list slot moved) }
    ensures links { P.links port.new ≡ P.links port.old }
{
    port.store(list_page(slot), PageList::new(slot, moved).as_slice());
}
