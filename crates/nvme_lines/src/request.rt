//! The lines of requests.

ghost use Rattle.std.specs.Prelude.{◌≡◌};
ghost use Rattle.script_text.specs.Pages.{Adds};
ghost use Rattle.nvme_lines.specs.LineTexts.{
  request_keyword as keyword_spec,
  request_words,
  reservation_words,
  spaced,
  transfer_words,
};

use crate::words::{put_data, put_identifiers, put_numbers};
use nvme_driver::Request;
use nvme_grammar::Keyword;
use script_text::{NoRoom, Page, put_labelled};

/// The keyword of a request.
pub fn request_keyword(request: &Request<'_>) -> Keyword
    ensures { result ≡ keyword_spec request.now }
{
    match request {
        Request::Read { .. } => Keyword::Read,
        Request::Write { .. } => Keyword::Write,
        Request::Compare { .. } => Keyword::Compare,
        Request::WriteZeroes { .. } => Keyword::Zeroes,
        Request::Flush { .. } => Keyword::Flush,
        Request::Register { .. } => Keyword::Register,
        Request::Acquire { .. } => Keyword::Acquire,
        Request::Release { .. } => Keyword::Release,
        Request::Report { .. } => Keyword::Report,
        Request::Identify { .. } => Keyword::Identify,
        Request::Protect { .. } => Keyword::Protect,
        Request::Protection { .. } => Keyword::Protection,
        Request::Attach { .. } => Keyword::Attach,
        Request::Detach { .. } => Keyword::Detach,
    }
}

/// Puts the words of a Write or a Compare.
fn put_transfer<P: Page>(page: &mut P, nsid: u32, slba: u64, bytes: &[u8]) -> Result<(), NoRoom>
    ensures { Adds P.room result (P.written page.old) (spaced (transfer_words nsid slba bytes.now))
        (P.written page.new) }
{
    put_numbers(page, &[u64::from(nsid), slba, (bytes.len() / 512) as u64])?;
    put_data(page, bytes)
}

/// Puts the words of a request about reservations; of no other one.
fn put_reservation<P: Page>(page: &mut P, request: &Request<'_>) -> Result<(), NoRoom>
    ensures { Adds P.room result (P.written page.old) (spaced (reservation_words request.now)) (P.written page.new) }
{
    match *request {
        Request::Register {
            nsid,
            action,
            iekey,
            cptpl,
            crkey,
            nrkey,
        } => {
            let (action, iekey, cptpl) = (u64::from(action), u64::from(iekey), u64::from(cptpl));
            put_numbers(page, &[u64::from(nsid), action, iekey, cptpl, crkey, nrkey])
        }
        Request::Acquire {
            nsid,
            action,
            rtype,
            crkey,
            prkey,
        } => {
            let (action, rtype) = (u64::from(action), u64::from(rtype));
            put_numbers(page, &[u64::from(nsid), action, rtype, crkey, prkey])
        }
        Request::Release {
            nsid,
            action,
            rtype,
            crkey,
        } => {
            let (action, rtype) = (u64::from(action), u64::from(rtype));
            put_numbers(page, &[u64::from(nsid), action, rtype, crkey])
        }
        _ => Ok(()),
    }
}

/// Puts the words of a request, after its keyword and its controller.
pub fn put_request<P: Page>(page: &mut P, request: &Request<'_>) -> Result<(), NoRoom>
    ensures { Adds P.room result (P.written page.old) (spaced (request_words request.now)) (P.written page.new) }
{
    match *request {
        Request::Read { nsid, slba, blocks } | Request::WriteZeroes { nsid, slba, blocks } => {
            put_numbers(page, &[u64::from(nsid), slba, u64::from(blocks)])
        }
        Request::Write { nsid, slba, bytes } | Request::Compare { nsid, slba, bytes } => {
            put_transfer(page, nsid, slba, bytes)
        }
        Request::Flush { nsid } | Request::Protection { nsid } => {
            put_numbers(page, &[u64::from(nsid)])
        }
        Request::Register { .. } | Request::Acquire { .. } | Request::Release { .. } => {
            put_reservation(page, request)
        }
        Request::Report { nsid, dwords } => {
            put_numbers(page, &[u64::from(nsid), u64::from(dwords)])
        }
        Request::Identify { cns, nsid } => put_numbers(page, &[u64::from(cns), u64::from(nsid)]),
        Request::Protect { nsid, state } => {
            put_numbers(page, &[u64::from(nsid), u64::from(state)])
        }
        Request::Attach { nsid, list } | Request::Detach { nsid, list } => {
            put_labelled(page, " ", u64::from(nsid))?;
            put_identifiers(page, list)
        }
    }
}
