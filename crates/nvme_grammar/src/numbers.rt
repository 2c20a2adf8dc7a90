//! Numbers after a keyword, and the events of them.

ghost use Rattle.std.specs.Prelude.{
  ◌≡◌,
  ◌<◌,
  ◌≤◌,
  ◌^◌,
  ◌&&◌,
  ◌∷◌,
  [],
  List,
  ℕ,
  true,
  false,
  drop,
  length,
  IfSome,
  IsNone,
  Some,
};
ghost use Rattle.script_text.specs.Front.{begins_number};
ghost use Rattle.script_text.specs.Words.{is_line_text, line_words, starts_apart};
ghost use Rattle.nvme_grammar.specs.Reader.{
  Numbers,
  SaysEvent,
  have_bits,
  bits_of,
  is_numeric,
  asks,
  has_operands,
  reserves,
};
ghost use Rattle.nvme_grammar.specs.Lent.{request_by_value};
ghost use Rattle.nvme_grammar.specs.Requests.{request_by};

use super::keyword::Keyword;
use super::place::bit_of;
use arrayvec::ArrayVec;
use nvme_driver::Request;
use nvme_event::FleetEvent;
use script_text::front_number;

/// The most numbers after a keyword, without those of a list.
pub const MOST_NUMBERS: usize = 7;

/// Puts the numbers at the front of a line into a table, at most `most`, and returns the line after them.
#[inline(always)]
pub fn numbers_in<'a>(
    line: &'a [u8],
    most: usize,
    numbers: &mut ArrayVec<u64, MOST_NUMBERS>,
) -> &'a [u8]
    requires apart { starts_apart line.now ≡ true }
    requires empty { numbers.old.items ≡ [] }
    requires room { most ≤ 7 }
    ensures text { is_line_text result.now ≡ is_line_text line.now }
    ensures words { is_line_text line.now ≡ true
        → Numbers numbers.new.items (line_words line.now) (line_words result.now) }
    ensures apart { starts_apart result.now ≡ true }
    ensures within { length result.now ≤ length line.now }
    ensures most { length numbers.new.items ≤ most }
    ensures all { is_line_text line.now ≡ true → length numbers.new.items < most
        → begins_number (line_words result.now) ≡ false }
{
    let mut rest = line;
    while !rest.is_empty() && numbers.len() < most {
        let Some(front) = front_number(rest) else {
            return rest;
        };
        numbers.push(front.number);
        rest = front.behind;
    }
    rest
}

/// `C`
#[inline(always)]
#[tactic(auto, using(crate::proofs::NumericLemmas::have_bits_other))]
fn alone_in(numbers: &[u64]) -> Option<u16>
    ensures some { IfSome result (λ cntlid. (numbers.now ≡ cntlid ∷ []) × (cntlid < 2 ^ 16)) }
    ensures none { IsNone result → have_bits (16 ∷ []) numbers.now ≡ false }
{
    let [cntlid] = numbers.as_array::<1>()?;
    u16::try_from(*cntlid).ok()
}

/// `C Q`, or `C I`
#[inline(always)]
#[tactic(auto, using(crate::proofs::NumericLemmas::have_bits_other))]
fn pair_in(numbers: &[u64]) -> Option<(u16, u16)>
    ensures some { IfSome result (λ pair.
        (numbers.now ≡ pair.0 ∷ pair.1 ∷ []) × (pair.0 < 2 ^ 16) × (pair.1 < 2 ^ 16)) }
    ensures none { IsNone result → have_bits (16 ∷ 16 ∷ []) numbers.now ≡ false }
{
    let [cntlid, number] = numbers.as_array::<2>()?;
    Some((u16::try_from(*cntlid).ok()?, u16::try_from(*number).ok()?))
}

/// `C N`
#[inline(always)]
#[tactic(auto, using(crate::proofs::NumericLemmas::have_bits_other))]
pub fn named_in(numbers: &[u64]) -> Option<(u16, u32)>
    ensures some { IfSome result (λ named.
        (numbers.now ≡ named.0 ∷ named.1 ∷ []) × (named.0 < 2 ^ 16) × (named.1 < 2 ^ 32)) }
    ensures none { IsNone result → have_bits (16 ∷ 32 ∷ []) numbers.now ≡ false }
{
    let [cntlid, nsid] = numbers.as_array::<2>()?;
    Some((u16::try_from(*cntlid).ok()?, u32::try_from(*nsid).ok()?))
}

/// `C ADDR`
#[inline(always)]
#[tactic(auto, using(crate::proofs::NumericLemmas::have_bits_other))]
pub fn address_in(numbers: &[u64]) -> Option<(u16, u64)>
    ensures some { IfSome result (λ at. (numbers.now ≡ at.0 ∷ at.1 ∷ []) × (at.0 < 2 ^ 16)) }
    ensures none { IsNone result → have_bits (16 ∷ 64 ∷ []) numbers.now ≡ false }
{
    let [cntlid, address] = numbers.as_array::<2>()?;
    Some((u16::try_from(*cntlid).ok()?, *address))
}

/// `C N SLBA BLOCKS`
#[inline(always)]
#[tactic(auto, using(crate::proofs::NumericLemmas::have_bits_other))]
pub fn range_in(numbers: &[u64]) -> Option<(u16, u32, u64, u32)>
    ensures some { IfSome result (λ range. (numbers.now ≡ range.0 ∷ range.1 ∷ range.2 ∷ range.3 ∷ [])
        × (range.0 < 2 ^ 16) × (range.1 < 2 ^ 32) × (range.3 < 2 ^ 32)) }
    ensures none { IsNone result → have_bits (16 ∷ 32 ∷ 64 ∷ 32 ∷ []) numbers.now ≡ false }
{
    let [cntlid, nsid, slba, blocks] = numbers.as_array::<4>()?;
    let cntlid = u16::try_from(*cntlid).ok()?;
    let nsid = u32::try_from(*nsid).ok()?;
    Some((cntlid, nsid, *slba, u32::try_from(*blocks).ok()?))
}

/// `C CNS NSID`
#[inline(always)]
#[tactic(auto, using(crate::proofs::NumericLemmas::have_bits_other))]
fn identify_in(numbers: &[u64]) -> Option<(u16, u8, u32)>
    ensures some { IfSome result (λ asked. (numbers.now ≡ asked.0 ∷ asked.1 ∷ asked.2 ∷ [])
        × (asked.0 < 2 ^ 16) × (asked.1 < 2 ^ 8) × (asked.2 < 2 ^ 32)) }
    ensures none { IsNone result → have_bits (16 ∷ 8 ∷ 32 ∷ []) numbers.now ≡ false }
{
    let [cntlid, cns, nsid] = numbers.as_array::<3>()?;
    let cntlid = u16::try_from(*cntlid).ok()?;
    let cns = u8::try_from(*cns).ok()?;
    Some((cntlid, cns, u32::try_from(*nsid).ok()?))
}

/// `C OFF V`
#[inline(always)]
#[tactic(auto, using(crate::proofs::NumericLemmas::have_bits_other))]
fn write32_in(numbers: &[u64]) -> Option<(u16, u64, u32)>
    ensures some { IfSome result (λ asked. (numbers.now ≡ asked.0 ∷ asked.1 ∷ asked.2 ∷ [])
        × (asked.0 < 2 ^ 16) × (asked.2 < 2 ^ 32)) }
    ensures none { IsNone result → have_bits (16 ∷ 64 ∷ 32 ∷ []) numbers.now ≡ false }
{
    let [cntlid, offset, value] = numbers.as_array::<3>()?;
    let cntlid = u16::try_from(*cntlid).ok()?;
    Some((cntlid, *offset, u32::try_from(*value).ok()?))
}

/// `STATE`
#[inline(always)]
#[tactic(auto, using(crate::proofs::NumericLemmas::have_bits_other))]
fn state_in(operands: &[u64]) -> Option<u8>
    ensures some { IfSome result (λ state. (operands.now ≡ state ∷ []) × (state < 2 ^ 8)) }
    ensures none { IsNone result → have_bits (8 ∷ []) operands.now ≡ false }
{
    let [state] = operands.as_array::<1>()?;
    u8::try_from(*state).ok()
}

/// `DWORDS`
#[inline(always)]
#[tactic(auto, using(crate::proofs::NumericLemmas::have_bits_other))]
fn dwords_in(operands: &[u64]) -> Option<u32>
    ensures some { IfSome result (λ dwords. (operands.now ≡ dwords ∷ []) × (dwords < 2 ^ 32)) }
    ensures none { IsNone result → have_bits (32 ∷ []) operands.now ≡ false }
{
    let [dwords] = operands.as_array::<1>()?;
    u32::try_from(*dwords).ok()
}

/// `ACTION IEKEY CPTPL CRKEY NRKEY`
#[inline(always)]
#[tactic(auto, using(crate::proofs::NumericLemmas::have_bits_other))]
fn registration_in(operands: &[u64]) -> Option<(u8, u64, u8, u64, u64)>
    ensures some { IfSome result (λ asked.
        (operands.now ≡ asked.0 ∷ asked.1 ∷ asked.2 ∷ asked.3 ∷ asked.4 ∷ [])
        × (asked.0 < 2 ^ 8) × (asked.2 < 2 ^ 8)) }
    ensures none { IsNone result → have_bits (8 ∷ 1 ∷ 8 ∷ 64 ∷ 64 ∷ []) operands.now ≡ false }
{
    let [action, iekey, cptpl, crkey, nrkey] = operands.as_array::<5>()?;
    let action = u8::try_from(*action).ok()?;
    let cptpl = u8::try_from(*cptpl).ok()?;
    Some((action, *iekey, cptpl, *crkey, *nrkey))
}

/// `ACTION RTYPE CRKEY PRKEY`
#[inline(always)]
#[tactic(auto, using(crate::proofs::NumericLemmas::have_bits_other))]
fn acquisition_in(operands: &[u64]) -> Option<(u8, u8, u64, u64)>
    ensures some { IfSome result (λ asked. (operands.now ≡ asked.0 ∷ asked.1 ∷ asked.2 ∷ asked.3 ∷ [])
        × (asked.0 < 2 ^ 8) × (asked.1 < 2 ^ 8)) }
    ensures none { IsNone result → have_bits (8 ∷ 8 ∷ 64 ∷ 64 ∷ []) operands.now ≡ false }
{
    let [action, rtype, crkey, prkey] = operands.as_array::<4>()?;
    let action = u8::try_from(*action).ok()?;
    let rtype = u8::try_from(*rtype).ok()?;
    Some((action, rtype, *crkey, *prkey))
}

/// `ACTION RTYPE CRKEY`
#[inline(always)]
#[tactic(auto, using(crate::proofs::NumericLemmas::have_bits_other))]
fn release_in(operands: &[u64]) -> Option<(u8, u8, u64)>
    ensures some { IfSome result (λ asked. (operands.now ≡ asked.0 ∷ asked.1 ∷ asked.2 ∷ [])
        × (asked.0 < 2 ^ 8) × (asked.1 < 2 ^ 8)) }
    ensures none { IsNone result → have_bits (8 ∷ 8 ∷ 64 ∷ []) operands.now ≡ false }
{
    let [action, rtype, crkey] = operands.as_array::<3>()?;
    let action = u8::try_from(*action).ok()?;
    let rtype = u8::try_from(*rtype).ok()?;
    Some((action, rtype, *crkey))
}

/// The request of the numbers after `KEYWORD C N`, for a keyword of reservations.
#[inline(always)]
fn reservation_in<'a>(keyword: Keyword, nsid: u32, operands: &[u64]) -> Option<Request<'a>>
    ensures some { IfSome result (λ request. (words : List (List ℕ)) → Numbers operands.now words []
        → request_by keyword nsid words ≡ Some (request_by_value request)) }
    ensures none { IsNone result → (reserves keyword && have_bits (drop 2 (bits_of keyword)) operands.now) ≡ false }
{
    match keyword {
        Keyword::Register => {
            let (action, iekey, cptpl, crkey, nrkey) = registration_in(operands)?;
            let iekey = bit_of(iekey)?;
            Some(Request::Register {
                nsid,
                action,
                iekey,
                cptpl,
                crkey,
                nrkey,
            })
        }
        Keyword::Acquire => {
            let (action, rtype, crkey, prkey) = acquisition_in(operands)?;
            Some(Request::Acquire {
                nsid,
                action,
                rtype,
                crkey,
                prkey,
            })
        }
        Keyword::Release => {
            let (action, rtype, crkey) = release_in(operands)?;
            Some(Request::Release {
                nsid,
                action,
                rtype,
                crkey,
            })
        }
        _ => None,
    }
}

/// The request of the numbers after `KEYWORD C N`, if the keyword takes any.
#[inline(always)]
fn operands_in<'a>(keyword: Keyword, nsid: u32, operands: &[u64]) -> Option<Request<'a>>
    ensures some { IfSome result (λ request. (words : List (List ℕ)) → Numbers operands.now words []
        → request_by keyword nsid words ≡ Some (request_by_value request)) }
    ensures none { IsNone result → (has_operands keyword && have_bits (drop 2 (bits_of keyword)) operands.now) ≡ false }
{
    match keyword {
        Keyword::Protect => {
            let state = state_in(operands)?;
            Some(Request::Protect { nsid, state })
        }
        Keyword::Report => {
            let dwords = dwords_in(operands)?;
            Some(Request::Report { nsid, dwords })
        }
        _ => reservation_in(keyword, nsid, operands),
    }
}

/// `C N`, and the numbers after them.
#[inline(always)]
fn front_in(numbers: &[u64]) -> Option<(u16, u32, &[u64])>
    ensures some { IfSome result (λ front. (numbers.now ≡ front.0 ∷ front.1 ∷ front.2.now)
        × (front.0 < 2 ^ 16) × (front.1 < 2 ^ 32)) }
    ensures none { IsNone result → (bits : List ℕ) → have_bits (16 ∷ 32 ∷ bits) numbers.now ≡ false }
{
    let [cntlid, nsid, operands @ ..] = numbers else {
        return None;
    };
    let cntlid = u16::try_from(*cntlid).ok()?;
    let nsid = u32::try_from(*nsid).ok()?;
    Some((cntlid, nsid, operands))
}

/// `C N`, and the numbers for the request of this keyword.
#[inline(always)]
fn asked_in<'a>(keyword: Keyword, numbers: &[u64]) -> Option<FleetEvent<'a>>
    ensures some { IfSome result (SaysEvent keyword numbers.now) }
    ensures none { IsNone result → (has_operands keyword && have_bits (bits_of keyword) numbers.now) ≡ false }
{
    let (cntlid, nsid, operands) = front_in(numbers)?;
    let request = operands_in(keyword, nsid, operands)?;
    Some(FleetEvent::Place(cntlid, request))
}

/// Places the request of a keyword and the numbers after it.
#[inline(always)]
fn place_in<'a>(keyword: Keyword, numbers: &[u64]) -> Option<FleetEvent<'a>>
    ensures some { IfSome result (SaysEvent keyword numbers.now) }
    ensures none { IsNone result → (asks keyword && have_bits (bits_of keyword) numbers.now) ≡ false }
{
    match keyword {
        Keyword::Read => {
            let (cntlid, nsid, slba, blocks) = range_in(numbers)?;
            Some(FleetEvent::Place(cntlid, Request::Read { nsid, slba, blocks }))
        }
        Keyword::Zeroes => {
            let (cntlid, nsid, slba, blocks) = range_in(numbers)?;
            Some(FleetEvent::Place(cntlid, Request::WriteZeroes { nsid, slba, blocks }))
        }
        Keyword::Flush => {
            let (cntlid, nsid) = named_in(numbers)?;
            Some(FleetEvent::Place(cntlid, Request::Flush { nsid }))
        }
        Keyword::Protection => {
            let (cntlid, nsid) = named_in(numbers)?;
            Some(FleetEvent::Place(cntlid, Request::Protection { nsid }))
        }
        _ => asked_in(keyword, numbers),
    }
}

/// The event of a keyword and the numbers after it. `None` if there is none: the numbers do not fit the keyword's
/// places, or it takes other words.
#[inline(always)]
pub fn event_in<'a>(keyword: Keyword, numbers: &[u64]) -> Option<FleetEvent<'a>>
    ensures some { IfSome result (SaysEvent keyword numbers.now) }
    ensures none { IsNone result → (is_numeric keyword && have_bits (bits_of keyword) numbers.now) ≡ false }
{
    match keyword {
        Keyword::Up => Some(FleetEvent::BringUp(alone_in(numbers)?)),
        Keyword::Ring => Some(FleetEvent::Ring(alone_in(numbers)?)),
        Keyword::Poll => Some(FleetEvent::Poll(alone_in(numbers)?)),
        Keyword::Reset => Some(FleetEvent::Reset(alone_in(numbers)?)),
        Keyword::Fetch => {
            let (cntlid, queue) = pair_in(numbers)?;
            Some(FleetEvent::Fetch(cntlid, queue))
        }
        Keyword::Execute => {
            let (cntlid, index) = pair_in(numbers)?;
            Some(FleetEvent::Execute(cntlid, usize::from(index)))
        }
        Keyword::Identify => {
            let (cntlid, cns, nsid) = identify_in(numbers)?;
            Some(FleetEvent::Place(cntlid, Request::Identify { cns, nsid }))
        }
        Keyword::Write32 => {
            let (cntlid, offset, value) = write32_in(numbers)?;
            Some(FleetEvent::RawWrite32(cntlid, offset, value))
        }
        Keyword::PowerCycle if numbers.is_empty() => Some(FleetEvent::PowerCycle),
        _ => place_in(keyword, numbers),
    }
}
