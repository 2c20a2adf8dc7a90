//! Attaches a namespace to controllers, and detaches it (Namespace Attachment command, Controller List).

ghost use Rattle.std.specs.Prelude.{
  ◌≡◌,
  ◌==◌,
  ◌&&◌,
  ◌+◌,
  ◌≤◌,
  ◌++◌,
  length,
  map,
  filter,
  not,
  Ok,
  Err,
  IfErr,
  OnOk,
  OnErr,
  IsSome,
};
ghost use Rattle.std.specs.List.{list_any};
ghost use Rattle.nvme_spec.specs.Attachments as spec;
ghost use Rattle.nvme_spec.specs.Rules.{first_failure};
ghost use Rattle.nvme_spec.specs.World.{namespace_of};
ghost use Rattle.nvme_ns.specs.Attached.{passes_unless};

use crate::Spaces;
use crate::pairs::pair_table;
use crate::refusal::MAX_ATTACHMENTS;
use arrayvec::ArrayVec;
use nvme_wire::Status;

/// The most identifiers of a Controller List.
const LONGEST_LIST: usize = 2047;

/// A controller's identifier with a namespace's, each pair once.
type Attachments = ArrayVec<(u16, u32), MAX_ATTACHMENTS>;

impl Spaces {
    /// Attaches a namespace, which must be configured, to all controllers of a list.
    ///
    /// # Errors
    ///
    /// Controller List Invalid if the list has none or more than 2,047 identifiers, or one that is not a controller's
    /// or not above the one before. Then the first listed controller that can not be attached decides: Namespace
    /// Already Attached; Namespace Is Private if the namespace isn't shared and another controller is attached, or
    /// listed before. After any refusal nothing is changed.
    #[tactic(auto, unfolding(nvme_spec::specs::Attachments::attach))]
    pub fn attach(&mut self, nsid: u32, controllers: &[u16]) -> Result<(), Status>
        requires configured { IsSome (namespace_of self.old nsid) }
        ensures attached { OnOk result (spec.attach self.old nsid controllers.now ≡ Ok self.new) }
        ensures refused { IfErr result (λ why. spec.attach self.old nsid controllers.now ≡ Err why) }
        ensures unchanged { OnErr result (self.new ≡ self.old) }
    {
        self.check_list(controllers)?;
        self.check_attachable(nsid, controllers)?;
        append(&mut self.attachments, nsid, controllers);
        self.pairs = pair_table(&self.attachments);
        Ok(())
    }

    /// Detaches a namespace from all controllers of a list.
    ///
    /// # Errors
    ///
    /// Controller List Invalid as in `attach`; then Namespace Not Attached if one of them isn't attached. After any
    /// refusal nothing is changed.
    #[tactic(auto, unfolding(nvme_spec::specs::Attachments::detach))]
    pub fn detach(&mut self, nsid: u32, controllers: &[u16]) -> Result<(), Status>
        ensures detached { OnOk result (spec.detach self.old nsid controllers.now ≡ Ok self.new) }
        ensures refused { IfErr result (λ why. spec.detach self.old nsid controllers.now ≡ Err why) }
        ensures unchanged { OnErr result (self.new ≡ self.old) }
    {
        self.check_list(controllers)?;
        self.check_detachable(nsid, controllers)?;
        remove(&mut self.attachments, nsid, controllers);
        self.pairs = pair_table(&self.attachments);
        Ok(())
    }

    /// Refuses a list that is empty, too long, or not of controllers in rising order.
    #[tactic(auto, unfolding(nvme_spec::specs::Attachments::list_tests))]
    fn check_list(&self, controllers: &[u16]) -> Result<(), Status>
        ensures { result ≡ passes_unless (first_failure (spec.list_tests self.now controllers.now)) }
    {
        let is_long = controllers.is_empty() || controllers.len() > LONGEST_LIST;
        if is_long || !self.names_controllers(controllers) {
            return Err(Status::CONTROLLER_LIST_INVALID);
        }
        Ok(())
    }

    /// Whether all identifiers are those of controllers, in rising order.
    fn names_controllers(&self, controllers: &[u16]) -> bool
        ensures { result ≡ spec.are_controllers_above self.now 0 controllers.now }
    {
        let mut before = 0;
        let mut rest = controllers;
        while let Some((cntlid, others)) = rest.split_first() {
            if self.host_of(*cntlid).is_none() || *cntlid <= before {
                return false;
            }
            before = *cntlid;
            rest = others;
        }
        true
    }

    /// Refuses the first of the controllers that can not be attached after those before it.
    #[tactic(auto, unfolding(nvme_spec::specs::Attachments::attach_tests))]
    fn check_attachable(&self, nsid: u32, controllers: &[u16]) -> Result<(), Status>
        requires configured { IsSome (namespace_of self.now nsid) }
        ensures judged { result ≡ passes_unless (first_failure
            (spec.attach_each self.now nsid (spec.has_controller self.now nsid) controllers.now)) }
        ensures known { (1 ≤ nsid) × (nsid ≤ 8) }
    {
        let is_shared = self.is_shared(nsid);
        let mut has_other = self.has_controller(nsid);
        let mut rest = controllers;
        while let Some((cntlid, others)) = rest.split_first() {
            if self.is_attached(*cntlid, nsid) {
                return Err(Status::NAMESPACE_ALREADY_ATTACHED);
            }
            if !is_shared && has_other {
                return Err(Status::NAMESPACE_IS_PRIVATE);
            }
            has_other = true;
            rest = others;
        }
        Ok(())
    }

    /// Refuses if one of the controllers isn't attached.
    #[tactic(auto, unfolding(nvme_spec::specs::Attachments::detach_tests))]
    fn check_detachable(&self, nsid: u32, controllers: &[u16]) -> Result<(), Status>
        ensures { result ≡ passes_unless (first_failure (spec.detach_each self.now nsid controllers.now)) }
    {
        let mut rest = controllers;
        while let Some((cntlid, others)) = rest.split_first() {
            if !self.is_attached(*cntlid, nsid) {
                return Err(Status::NAMESPACE_NOT_ATTACHED);
            }
            rest = others;
        }
        Ok(())
    }

    /// Whether a namespace, which must be configured, is shared.
    fn is_shared(&self, nsid: u32) -> bool
        requires configured { IsSome (namespace_of self.now nsid) }
        ensures shared { result ≡ spec.is_shared (namespace_of self.now nsid) }
        ensures known { (1 ≤ nsid) × (nsid ≤ 8) }
    {
        self.namespace(nsid).unwrap().is_shared()
    }

    /// Whether some controller is attached to the namespace.
    #[tactic(auto, unfolding(nvme_spec::specs::Attachments::has_controller))]
    fn has_controller(&self, nsid: u32) -> bool
        ensures { result ≡ spec.has_controller self.now nsid }
    {
        self.attachments.iter().any(|a| a.1 == nsid)
    }
}

/// Appends the namespace's attachments to these controllers.
fn append(attachments: &mut Attachments, nsid: u32, controllers: &[u16])
    requires room { length attachments.old.items + length controllers.now ≤ 128 }
    ensures { attachments.new.items ≡ attachments.old.items ++ map (λ cntlid. (cntlid, nsid)) controllers.now }
{
    for cntlid in controllers {
        attachments.push((*cntlid, nsid));
    }
}

/// Removes the namespace's attachments to these controllers.
fn remove(attachments: &mut Attachments, nsid: u32, controllers: &[u16])
    ensures { attachments.new.items
        ≡ filter (λ a. not ((a.1 == nsid) && list_any (λ cntlid. cntlid == a.0) controllers.now))
        attachments.old.items }
{
    attachments.retain(|a| !(a.1 == nsid && is_one_of(a.0, controllers)));
}

/// Whether the controller is one of these.
fn is_one_of(cntlid: u16, controllers: &[u16]) -> bool
    ensures { result ≡ list_any (λ c. c == cntlid) controllers.now }
{
    controllers.iter().any(|c| *c == cntlid)
}
