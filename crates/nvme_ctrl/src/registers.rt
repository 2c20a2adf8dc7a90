//! Register writes and their effects.

ghost use Rattle.std.specs.Prelude.{◌≡◌};
ghost use Rattle.nvme_spec.specs.declared.registers.RegEffect.TheVariants.{Enable, Disable, SqTail, CqHead};
ghost use Rattle.nvme_machine.specs.Controllers.{after_write32, taking_effect};

use crate::completion_queue::CompletionQueue;
use crate::controller::Controller;
use crate::slots::{none, put, queue_at};
use crate::submission_queue::SubmissionQueue;
use nvme_spec::RegEffect;

impl Controller {
    /// Its host writes a register.
    #[tactic(auto, unfolding(nvme_machine::specs::Controllers::after_write32))]
    pub fn write32(&mut self, offset: u64, value: u32)
        ensures { self.new ≡ after_write32 offset value self.old }
    {
        let effect = self.registers.write32(offset, value);
        self.take_effect(effect);
    }

    /// Applies the effect of a register write.
    #[tactic(auto, unfolding(nvme_machine::specs::Controllers::taking_effect))]
    fn take_effect(&mut self, effect: RegEffect)
        ensures { self.new ≡ taking_effect effect self.old }
    {
        match effect {
            RegEffect::Nothing | RegEffect::Shutdown => {}
            RegEffect::Enable => self.enable(),
            RegEffect::Disable => self.drop_queues(),
            RegEffect::SqTail(qid, tail) => self.set_tail(qid, tail),
            RegEffect::CqHead(qid, head) => self.set_head(qid, head),
        }
    }

    /// Makes the admin queues, empty, and drops all others; nothing is fetched.
    #[tactic(auto, unfolding(nvme_machine::specs::Controllers::taking_effect))]
    fn enable(&mut self)
        ensures { self.new ≡ taking_effect Enable self.old }
    {
        self.drop_queues();
        if let Some(queues) = self.registers.admin_queues() {
            self.submission[0] = Some(SubmissionQueue::new(queues.sq_base, queues.sq_size, 0));
            self.completion[0] = Some(CompletionQueue::new(queues.cq_base, queues.cq_size));
        }
    }

    /// Drops all queues and fetched commands.
    #[tactic(auto, unfolding(nvme_machine::specs::Controllers::taking_effect))]
    fn drop_queues(&mut self)
        ensures { self.new ≡ taking_effect Disable self.old }
    {
        self.submission = none();
        self.completion = none();
        self.fetched.clear();
    }

    /// Takes the value of a submission queue's tail doorbell.
    #[tactic(auto, unfolding(nvme_machine::specs::Controllers::taking_effect))]
    fn set_tail(&mut self, qid: u16, tail: u16)
        ensures { self.new ≡ taking_effect (SqTail qid tail) self.old }
    {
        let mut queue = queue_at(&self.submission, qid);
        if let Some(queue) = &mut queue {
            queue.set_tail(tail);
        }
        put(&mut self.submission, qid, queue);
    }

    /// Takes the value of a completion queue's head doorbell.
    #[tactic(auto, unfolding(nvme_machine::specs::Controllers::taking_effect))]
    fn set_head(&mut self, qid: u16, head: u16)
        ensures { self.new ≡ taking_effect (CqHead qid head) self.old }
    {
        let mut queue = queue_at(&self.completion, qid);
        if let Some(queue) = &mut queue {
            queue.set_head(head);
        }
        put(&mut self.completion, qid, queue);
    }
}
