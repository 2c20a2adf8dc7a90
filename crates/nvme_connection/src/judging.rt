//! How a connection judges a whole PDU.

ghost use Rattle.std.specs.Prelude.{◌≡◌, take, Ok, Some};
ghost use Rattle.nvme_pdu.specs.declared.kind.Kind.TheVariants.{IcReq, H2cData};
ghost use Rattle.nvme_pdu.specs.Agreeing.{agreed_of};
ghost use Rattle.nvme_pdu.specs.Fields.{host_data};
ghost use Rattle.nvme_connection.specs.declared.judged.Verdict.TheVariants as verdicts;
ghost use Rattle.nvme_connection.specs.declared.stage.Stage.TheVariants.{Whole, Complete};
ghost use Rattle.nvme_connection.specs.Connections.{
  Connection as Seen,
  addressed,
  broken,
  completed,
  granted,
  is_right,
  judged,
  judged_by,
  refused,
};
ghost use Rattle.nvme_connection.specs.Holding.{Holds, Judges, verdict_of};

use crate::connection::Connection;
use crate::judged::{Judged, Verdict};
use crate::stage::Stage;
use nvme_pdu::{Agreed, Fatal, HostData, Kind};

/// Header Digest Error.
const WRONG_HEADER_DIGEST: Fatal = Fatal {
    status: 3,
    field: 0,
};

impl Connection {
    /// Judges the PDU in hand if it is whole, and returns what it comes to. Otherwise nothing changes.
    pub fn judge(&mut self, digests: Judged) -> Option<Verdict>
        ensures next { (c : Seen) → Holds self.old c → Holds self.new (judged c digests).0 }
        ensures verdict { (c : Seen) → Holds self.old c → verdict_of c result ≡ (judged c digests).1 }
    {
        match self.stage {
            Stage::Whole => Some(self.judge_whole(digests)),
            _ => None,
        }
    }

    /// Ends the connection, because the complete PDU breaks a rule of a layer above. Otherwise nothing changes.
    pub fn refuse(&mut self, fatal: Fatal) -> Option<Verdict>
        ensures next { (c : Seen) → Holds self.old c → Holds self.new (refused c fatal).0 }
        ensures verdict { (c : Seen) → Holds self.old c → verdict_of c result ≡ (refused c fatal).1 }
    {
        match self.stage {
            Stage::Complete => Some(self.break_by(fatal)),
            _ => None,
        }
    }

    fn judge_whole(&mut self, digests: Judged) -> Verdict
        requires stage { self.old.stage ≡ Whole }
        ensures judges { (c : Seen) → Holds self.old c
            → Judges (judged_by c digests (Ok self.old.layout)) c result self.new }
    {
        if !is_right(self.layout.header_digest, digests.header) {
            return self.break_by(WRONG_HEADER_DIGEST);
        }
        self.complete(is_right(self.layout.data_digest, digests.data))
    }

    /// Checks the fields of a PDU, whose header is as the host sent it.
    fn complete(&mut self, is_sound: bool) -> Verdict
        requires stage { self.old.stage ≡ Whole }
        ensures judges { (c : Seen) → Holds self.old c
            → Judges (completed self.old.layout.kind c self.old.layout is_sound) c result self.new }
    {
        match self.layout.kind {
            Kind::IcReq => self.grant(is_sound),
            Kind::H2cData => self.address(is_sound),
            Kind::H2cTermReq => {
                self.stage = Stage::Ended;
                self.completes(is_sound)
            }
            _ => {
                self.stage = Stage::Complete;
                self.completes(is_sound)
            }
        }
    }

    /// Grants an ICReq.
    fn grant(&mut self, is_sound: bool) -> Verdict
        requires stage { self.old.stage ≡ Whole }
        requires kind { self.old.layout.kind ≡ IcReq }
        ensures judges { (c : Seen) → Holds self.old c
            → Judges (granted c self.old.layout is_sound (agreed_of (take 128 c.unit))) c result self.new }
    {
        match Agreed::of(&self.kept) {
            Ok(agreed) => {
                self.stage = Stage::Complete;
                self.is_open = true;
                self.agreed = agreed;
                self.completes(is_sound)
            }
            Err(fatal) => self.break_by(fatal),
        }
    }

    /// Checks the fields of an H2CData.
    fn address(&mut self, is_sound: bool) -> Verdict
        requires stage { self.old.stage ≡ Whole }
        ensures judges { (c : Seen) → Holds self.old c
            → Judges (addressed c self.old.layout is_sound (host_data (take 24 c.unit) self.old.layout.data_length)) c
            result self.new }
    {
        let mut header = [0; 24];
        header.copy_from_slice(&self.kept[..24]);
        match HostData::of(&header, self.layout.data_length) {
            Ok(_) => {
                self.stage = Stage::Complete;
                self.completes(is_sound)
            }
            Err(fatal) => self.break_by(fatal),
        }
    }

    fn completes(&self, is_sound: bool) -> Verdict
        ensures { result ≡ verdicts.Completes self.now.layout is_sound }
    {
        Verdict::Completes {
            layout: self.layout,
            is_sound,
        }
    }

    fn break_by(&mut self, fatal: Fatal) -> Verdict
        ensures judges { (c : Seen) → Holds self.old c → Judges (broken c c.unit fatal) c result self.new }
    {
        self.stage = Stage::Ended;
        Verdict::Breaks(fatal)
    }
}

/// Whether a digest is right, or there is none.
fn is_right(there: bool, right: bool) -> bool
    ensures { result ≡ is_right there right }
{
    !there || right
}
