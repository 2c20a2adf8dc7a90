//! The window of host memory that a controller can address.

ghost use Rattle.std.specs.Prelude.{
  ◌≡◌,
  ◌+◌,
  ◌-◌,
  ◌<◌,
  ◌≤◌,
  ◌↔◌,
  IsSome,
  IfSome,
  IfOk,
  OnOk,
  OnErr,
  IsOk,
  IsTrue,
  length,
  slice_range,
};
ghost use Rattle.std.specs.Borrow.{sem};
ghost use Rattle.nvme_spec.specs.Bytes.{with_bytes};
ghost use Rattle.nvme_spec.specs.Memory.{LiesInWindow, zeros, qword};
ghost use Rattle.nvme_mem.specs.Lends.{LendsPart, LendsPartIf};

use byteorder::{ByteOrder, LittleEndian};
use nvme_spec::Piece;
use nvme_wire::NoMemory;
use std::alloc::Global;
use std::marker::Model;

/// The length of a window in bytes.
pub const WINDOW_LEN: usize = 4_194_304;

/// The window of host memory that a controller can address: one byte for each address below `WINDOW_LEN`.
#[derive(Drop)]
pub struct Window {
    bytes: Vec<u8>,
}

impl Model for Window {
    ghost use Rattle.std.specs.Prelude.{◌≡◌, List, ℕ, length};
    ghost use Rattle.nvme_mem.specs.declared.window.TheConstants.{WINDOW_LEN};

    ghost Value = { List ℕ };

    ghost view = { λ w. w.bytes.items };

    ghost invariant = { λ w. length w.bytes.items ≡ WINDOW_LEN };
}

/// Some of the bytes are outside the window.
#[derive(Clone, Copy, Debug, PartialEq, Eq)]
pub struct OutsideWindow;

/// Whether the `len` bytes from `addr` are all in the window.
fn is_inside(addr: u64, len: u64) -> bool
    ensures { IsTrue result ↔ (addr + len ≤ WINDOW_LEN) }
{
    addr.checked_add(len)
        .is_some_and(|end| end <= WINDOW_LEN as u64)
}

impl Window {
    /// A window of zeros, on the heap.
    ///
    /// # Errors
    ///
    /// `NoMemory` if memory for it is refused.
    pub fn new(alloc: Global) -> Result<Window, NoMemory>
        ensures zeros { IfOk result (λ window. window ≡ zeros) }
    {
        Ok(Window {
            bytes: vec![in alloc; 0; WINDOW_LEN]?,
        })
    }

    /// The bytes of a piece, which must be in the window.
    pub fn bytes(&self, piece: Piece) -> &[u8]
        requires inside { LiesInWindow piece }
        ensures bytes { result.now ≡ slice_range self.now piece.address (piece.address + piece.len) }
        ensures len { length result.now ≡ piece.len }
        ensures whole_len { length self.now ≡ WINDOW_LEN }
    {
        let start = piece.address as usize;
        &self.bytes[start..start + piece.len as usize]
    }

    /// The bytes of a piece, mutable. Writing them changes no other byte. The piece must be in the window.
    pub fn bytes_mut(&mut self, piece: Piece) -> &mut [u8]
        requires inside { LiesInWindow piece }
        ensures* writes_back { sem 𝓛 (LendsPart self.entry piece.address result) }
        ensures bytes { result.now ≡ slice_range self.old piece.address (piece.address + piece.len) }
        ensures len { length result.now ≡ piece.len }
        ensures whole_len { length self.old ≡ WINDOW_LEN }
    {
        let start = piece.address as usize;
        self.bytes.slice_mut(start..start + piece.len as usize)
    }

    /// The little-endian number in the eight bytes at `addr`, which must be in the window.
    #[tactic(auto, unfolding(nvme_spec::specs::Memory::qword))]
    pub fn u64_at(&self, addr: u64) -> u64
        requires { addr + 8 ≤ WINDOW_LEN }
        ensures number { result ≡ qword self.now addr }
    {
        let at = addr as usize;
        LittleEndian::read_u64(&self.bytes[at..at + 8])
    }

    /// The `len` bytes from `addr`, or `None` if some are outside the window.
    pub fn piece(&self, addr: u64, len: u64) -> Option<&[u8]>
        ensures inside { IsSome result ↔ (addr + len ≤ WINDOW_LEN) }
        ensures bytes { IfSome result (λ piece. piece.now ≡ slice_range self.now addr (addr + len)) }
        ensures len { IfSome result (λ piece. length piece.now ≡ len) }
    {
        if !is_inside(addr, len) {
            return None;
        }
        Some(self.bytes(Piece { address: addr, len }))
    }

    fn lent(&mut self, addr: u64, len: u64) -> &mut [u8]
        requires { addr + len ≤ WINDOW_LEN }
        ensures* writes_back { sem 𝓛 (LendsPart self.entry addr result) }
        ensures bytes { result.now ≡ slice_range self.old addr (addr + len) }
        ensures len { length result.now ≡ len }
    {
        self.bytes.slice_mut(addr as usize..(addr + len) as usize)
    }

    /// The `len` bytes from `addr`, mutable, or `None` if some are outside the window. Writing them changes no other
    /// byte.
    pub fn piece_mut(&mut self, addr: u64, len: u64) -> Option<&mut [u8]>
        ensures* writes_back { sem 𝓛 (LendsPartIf self.entry addr result) }
        ensures inside { IsSome result ↔ (addr + len ≤ WINDOW_LEN) }
        ensures bytes { IfSome result (λ piece. piece.now ≡ slice_range self.old addr (addr + len)) }
        ensures len { IfSome result (λ piece. length piece.now ≡ len) }
    {
        let inside = is_inside(addr, len);
        if inside {
            let piece = self.lent(addr, len);
            return Some(piece);
        }
        None
    }

    /// Replaces the bytes from `addr` by `bytes`.
    ///
    /// # Errors
    ///
    /// `OutsideWindow` if some are outside the window, which is unchanged then.
    pub fn store(&mut self, addr: u64, bytes: &[u8]) -> Result<(), OutsideWindow>
        ensures inside { IsOk result ↔ (addr + length bytes.now ≤ WINDOW_LEN) }
        ensures ok { OnOk result (self.new ≡ with_bytes self.old addr bytes.now) }
        ensures err { OnErr result (self.new ≡ self.old) }
    {
        let len = bytes.len() as u64;
        if !is_inside(addr, len) {
            return Err(OutsideWindow);
        }
        self.bytes_mut(Piece { address: addr, len })
            .copy_from_slice(bytes);
        Ok(())
    }
}
