//! The data of the command Reservation Report.

ghost use Rattle.std.specs.Prelude.{◌≡◌, ◌+◌, ◌≤◌, ◌++◌, length};
ghost use Rattle.nvme_spec.specs.Report as spec;

use super::Reservation;
use crate::registrants::{is_registered, key_of};
use arrayvec::ArrayVec;
use nvme_spec::{Hold, HostId};

/// The header, or an entry, of a report.
type Part = ArrayVec<u8, 64>;

/// The longest report: a header and 16 entries of 64 bytes each.
type Report = ArrayVec<u8, 1088>;

impl Reservation {
    /// Fills the buffer with the data of Reservation Report (Reservation Status Extended Data Structure): the front of
    /// the report that fits, or the report and then zeros. All numbers are little-endian. There is an entry for each of
    /// the controllers, given with their hosts, whose host is registered.
    ///
    /// There are at most sixteen controllers, by rising identifier, each once.
    #[tactic(auto, unfolding(nvme_spec::specs::Report::report_data))]
    pub fn report_into(&self, controllers: &[(u16, HostId)], buffer: &mut [u8])
        requires few { length controllers.now ≤ 16 }
        requires rising { spec.HasRisingIds controllers.now }
        ensures { buffer.new ≡ spec.report_data self.now controllers.now (length buffer.old) }
    {
        let report = self.report(controllers);
        let len = report.len().min(buffer.len());
        buffer[..len].copy_from_slice(&report[..len]);
        buffer[len..].fill(0);
    }

    /// The whole report.
    fn report(&self, controllers: &[(u16, HostId)]) -> Report
        requires { length controllers.now ≤ 16 }
        ensures { result.items ≡ spec.report self.now controllers.now }
    {
        let mut report = Report::new();
        append(&mut report, &self.header(controllers));
        for &(cntlid, host) in controllers {
            if let Some(key) = key_of(&self.registrants, host) {
                append(&mut report, &entry(cntlid, self.is_holder(host), host, key));
            }
        }
        report
    }

    #[tactic(auto, unfolding(nvme_spec::specs::Report::header))]
    fn header(&self, controllers: &[(u16, HostId)]) -> Part
        requires { length controllers.now ≤ 16 }
        ensures { result.items ≡ spec.header self.now controllers.now }
    {
        let mut header = Part::new();
        append(&mut header, &self.generation.to_le_bytes());
        append(&mut header, &[type_of(self.hold)]);
        append(&mut header, &self.count_reported(controllers).to_le_bytes());
        append(&mut header, &[0, 0, u8::from(self.ptpl)]);
        append(&mut header, &[0; 54]);
        header
    }

    /// The number of controllers whose host is registered.
    fn count_reported(&self, controllers: &[(u16, HostId)]) -> u16
        requires { length controllers.now ≤ 16 }
        ensures { result ≡ length (spec.reported_controllers self.now controllers.now) }
    {
        controllers
            .iter()
            .filter(|c| is_registered(&self.registrants, c.1))
            .count() as u16
    }
}

/// The reservation type, 0 if nobody holds the reservation.
fn type_of(hold: Hold) -> u8
    ensures { result ≡ spec.type_of hold }
{
    match hold {
        Hold::Free => 0,
        Hold::One(rtype, _) | Hold::All(rtype) => rtype,
    }
}

/// The entry of a controller whose host has this key.
#[tactic(auto, unfolding(nvme_spec::specs::Report::entry_of))]
fn entry(cntlid: u16, is_holder: bool, host: HostId, key: u64) -> Part
    ensures { result.items ≡ spec.entry_of cntlid is_holder host key }
{
    let mut entry = Part::new();
    append(&mut entry, &cntlid.to_le_bytes());
    append(&mut entry, &[u8::from(is_holder), 0, 0, 0, 0, 0]);
    append(&mut entry, &key.to_le_bytes());
    append(&mut entry, &host.to_le_bytes());
    append(&mut entry, &[0; 32]);
    entry
}

/// Appends bytes, which must fit.
fn append<const N: usize>(bytes: &mut ArrayVec<u8, N>, part: &[u8])
    requires { length bytes.old.items + length part.now ≤ N }
    ensures { bytes.new.items ≡ bytes.old.items ++ part.now }
{
    let _fits = bytes.try_extend_from_slice(part);
}
