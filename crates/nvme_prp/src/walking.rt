//! The addresses of a transfer's bytes (Base Specification: Physical Region Page Entry and List).

ghost use Rattle.std.specs.Prelude.{
  ◌≡◌,
  ◌+◌,
  ◌*◌,
  ◌/◌,
  ◌%◌,
  ◌≤◌,
  ◌<◌,
  ◌++◌,
  [],
  length,
  map,
  None,
  Some,
  IsTrue,
  MatchResult,
  OnOk,
  OnErr,
  IfOk,
  IfErr,
};
ghost use Rattle.std.specs.List.{range_with_len};
ghost use Rattle.arrayvec.specs.ArrayVec.{array_vec_len};
ghost use Rattle.nvme_spec.specs.Limits.{most_bytes};
ghost use Rattle.nvme_spec.specs.Memory.{qword};
ghost use Rattle.nvme_spec.specs.Pointer.{
  AddressTest,
  fault_of,
  first_fault,
  page_test,
  transfer,
  pointer_tests,
  pointer_fault,
  address,
};
ghost use Rattle.nvme_spec.specs.Transfers.{addresses, pieces_of, ArePages};
ghost use Rattle.nvme_prp.specs.Walk.{Follows, list_of, list_tests, listed_piece};
ghost use Rattle.nvme_prp.specs.Pages.{ArePages-prop};

use arrayvec::ArrayVec;
use nvme_mem::{WINDOW_LEN, Window};
use nvme_spec::{DataFault, Piece};

/// The size of a memory page, in bytes.
pub const PAGE: u64 = 4096;

type Parts = ArrayVec<Piece, 33>;

/// The addresses of a transfer's bytes: a piece for each page that it touches, in the order of the bytes. Each piece is
/// inside one page of the window. Each except the first starts its page, and each except the last ends its page and has
/// at least four bytes.
#[derive(Debug, Drop)]
pub struct Pieces {
    pub parts: ArrayVec<Piece, 33>,
    ghost pages: { ArePages parts.items } by { ArePages-prop parts.items },
}

impl Pieces {
    /// No pieces.
    pub fn none() -> Pieces
        ensures { result.parts.items ≡ [] }
    {
        Pieces {
            parts: ArrayVec::new(),
        }
    }
}

/// Refuses an address that is not a multiple of the unit, or is outside the window.
#[tactic(auto, unfolding(nvme_spec::specs::Pointer::fault_of))]
fn check(address: u64, unit: u64) -> Result<(), DataFault>
    requires { 0 < unit }
    ensures judged { MatchResult result (λ _. fault_of (record { address = address; unit = unit }) ≡ None)
        (λ e. fault_of (record { address = address; unit = unit }) ≡ Some e) }
    ensures aligned { OnOk result (address % unit ≡ 0) }
    ensures in_window { OnOk result (address < 4194304) }
{
    if address % unit != 0 {
        Err(DataFault::Offset)
    } else if address >= WINDOW_LEN as u64 {
        Err(DataFault::Outside)
    } else {
        Ok(())
    }
}

/// The slot of a list to read after its predecessors: `slot`, unless it is the last of its page and entries follow.
/// Then it has the address of the list's next page, and the slot to read is the first one of that page.
fn slot_to_read(window: &Window, slot: u64, more: bool) -> Result<u64, DataFault>
    requires aligned { slot % 8 ≡ 0 }
    requires in_window { slot < 4194304 }
    ensures ok { IfOk result (λ at. Follows window.now slot more at) }
    ensures still_aligned { IfOk result (λ at. at % 8 ≡ 0) }
    ensures still_in_window { IfOk result (λ at. at < 4194304) }
    ensures err { IfErr result (λ e. IsTrue more × (slot % 4096 ≡ 4088)
        × (fault_of (page_test (qword window.now slot)) ≡ Some e)) }
{
    if !more || slot % PAGE != PAGE - 8 {
        return Ok(slot);
    }
    let next = window.u64_at(slot);
    check(next, PAGE)?;
    Ok(next)
}

/// Appends the pages of a list that `rest` bytes need.
fn walk_list(window: &Window, start: u64, rest: u64, parts: &mut Parts) -> Result<(), DataFault>
    requires aligned { start % 8 ≡ 0 }
    requires in_window { start < 4194304 }
    requires several { 4096 < rest }
    requires most { rest ≤ most_bytes }
    requires room { array_vec_len parts.old ≡ 1 }
    ensures ok { OnOk result (let l = list_of window.now start rest in
        (first_fault (list_tests l) ≡ None)
        × (parts.new.items ≡ parts.old.items ++ map (listed_piece l rest) (range_with_len 0 l.pages))) }
    ensures err { IfErr result (λ e. first_fault (list_tests (list_of window.now start rest)) ≡ Some e) }
{
    let pages = rest.div_ceil(PAGE);
    let mut left = rest;
    let mut slot = start;
    for j in 0..pages {
        slot = slot_to_read(window, slot, j + 1 < pages)?;
        let page = window.u64_at(slot);
        check(page, PAGE)?;
        let len = left.min(PAGE);
        parts.push(Piece { address: page, len });
        left -= len;
        slot += 8;
    }
    Ok(())
}

/// Appends one part for each page that a transfer touches to the empty `parts`.
fn pages_of(
    window: &Window,
    prp1: u64,
    prp2: u64,
    len: u64,
    parts: &mut Parts,
) -> Result<(), DataFault>
    requires some { 1 ≤ len }
    requires most { len ≤ most_bytes }
    requires empty { parts.old.items ≡ [] }
    ensures sound { OnOk result (pointer_fault (transfer window.now prp1 prp2 len) ≡ None) }
    ensures parts { OnOk result (parts.new.items ≡ pieces_of (transfer window.now prp1 prp2 len)) }
    ensures fault { IfErr result (λ e. pointer_fault (transfer window.now prp1 prp2 len) ≡ Some e) }
{
    check(prp1, 4)?;
    let first = len.min(PAGE - prp1 % PAGE);
    let rest = len - first;
    parts.push(Piece {
        address: prp1,
        len: first,
    });
    if rest > PAGE {
        check(prp2, 8)?;
        walk_list(window, prp2, rest, parts)?;
    } else if rest > 0 {
        check(prp2, PAGE)?;
        parts.push(Piece {
            address: prp2,
            len: rest,
        });
    }
    Ok(())
}

/// Does what `walk` does, but replaces `pieces` instead of returning a list, since a list of 33 pieces is costly to
/// move. After a fault `pieces` is empty.
///
/// # Errors
///
/// Those of `walk`.
pub fn walk_into(
    window: &Window,
    prp1: u64,
    prp2: u64,
    len: u64,
    pieces: &mut Pieces,
) -> Result<(), DataFault>
    requires some { 1 ≤ len }
    requires most { len ≤ most_bytes }
    ensures sound { OnOk result (pointer_fault (transfer window.now prp1 prp2 len) ≡ None) }
    // Each page has its piece.
    ensures pieces { OnOk result (pieces.new.parts.items ≡ pieces_of (transfer window.now prp1 prp2 len)) }
    // The pieces joined are the addresses of the bytes.
    ensures joined { OnOk result (addresses pieces.new.parts.items
        ≡ map (address (transfer window.now prp1 prp2 len)) (range_with_len 0 len)) }
    ensures size { OnOk result (length (addresses pieces.new.parts.items) ≡ len) }
    ensures fault { IfErr result (λ e. pointer_fault (transfer window.now prp1 prp2 len) ≡ Some e) }
    ensures none { OnErr result (pieces.new.parts.items ≡ []) }
{
    pieces.parts.clear();
    match pages_of(window, prp1, prp2, len, &mut pieces.parts) {
        Ok(()) => Ok(()),
        Err(fault) => {
            pieces.parts.clear();
            Err(fault)
        }
    }
}

/// The pieces of `len` bytes, 1 to 131,072, at a command's two entries (Base Specification 2.0, Physical Region Page
/// Entry and List).
///
/// # Errors
///
/// The fault of the first address that is refused, in the order of the walk: `Offset` if it is not aligned, else
/// `Outside` if it is outside the window.
pub fn walk(window: &Window, prp1: u64, prp2: u64, len: u64) -> Result<Pieces, DataFault>
    requires some { 1 ≤ len }
    requires most { len ≤ most_bytes }
    ensures sound { OnOk result (pointer_fault (transfer window.now prp1 prp2 len) ≡ None) }
    // Each page has its piece.
    ensures pieces { IfOk result (λ pieces. pieces.parts.items ≡ pieces_of (transfer window.now prp1 prp2 len)) }
    // The pieces joined are the addresses of the bytes.
    ensures joined { IfOk result (λ pieces. addresses pieces.parts.items
        ≡ map (address (transfer window.now prp1 prp2 len)) (range_with_len 0 len)) }
    ensures size { IfOk result (λ pieces. length (addresses pieces.parts.items) ≡ len) }
    ensures fault { IfErr result (λ e. pointer_fault (transfer window.now prp1 prp2 len) ≡ Some e) }
{
    let mut pieces = Pieces::none();
    walk_into(window, prp1, prp2, len, &mut pieces)?;
    Ok(pieces)
}
