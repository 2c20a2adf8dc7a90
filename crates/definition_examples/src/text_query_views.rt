//! Computed examples of the answers to queries.

ghost use Rattle.std.specs.Prelude.{◌≡◌, ◌++◌, ◌∷◌, [], codes};
ghost use Rattle.live_views.specs.Showing.{fetched_text, queues_text};
ghost use Rattle.live_views.specs.Shown.{shown_by};
ghost use Rattle.definition_examples.specs.TextViews.{
  busy_controller,
  fetched_read,
  shown_attached,
  shown_blocks,
  shown_driver,
  shown_fetched,
  shown_form,
  shown_namespaces,
  shown_queues,
  shown_refusal,
  shown_register,
  shown_registers,
  shown_reservation,
  shown_window,
};

/// The answers about a controller's registers and its memory.
#[tactic(auto, unfolding(crate::proofs::TextLiterals::texts_on_literals, nvme_spec::specs::Registers::value_at, live_views::specs::Showing::narrow_text, live_views::specs::Showing::wide_text))]
fn register_answers_example()
    ensures refused { shown_by shown_refusal ≡ codes "! line 3 word 2: there is no such controller" }
    ensures form { shown_by shown_form ≡ codes "help ?window C ADDR LEN" }
    ensures window { shown_by shown_window ≡ codes "window 2 4096 3 0102" }
    ensures register { shown_by shown_register ≡ codes "register 2 8 0x00020000" }
    ensures registers { shown_by shown_registers
        ≡ codes "registers 2 cap 0x000000200101003f vs 0x00020000 cc 0x00000000 csts 0x00000000"
        ++ codes " aqa 0x00000000 asq 0x0000000000000000 acq 0x0000000000000000" }
    ensures blocks { shown_by shown_blocks ≡ codes "blocks 1 7 2 0102" }
{}

/// The answers about a controller's queues and its fetched commands.
#[tactic(auto, unfolding(crate::proofs::TextLiterals::texts_on_literals, nvme_wire::specs::Submission::opcode, nvme_wire::specs::Submission::cid, nvme_wire::specs::Submission::nsid))]
fn queue_answers_example()
    ensures queues { queues_text 2 busy_controller
        ≡ codes "queues 2 sq 0 place 10 size 4 head 3 tail 1 to 0 cq 0 place 20 size 4 head 3 tail 1 phase 0"
        ++ codes " sq 1 place 11 size 4 head 3 tail 1 to 0 sq 2 place 12 size 4 head 3 tail 1 to 0"
        ++ codes " sq 3 place 13 size 4 head 3 tail 1 to 0 sq 4 place 14 size 4 head 3 tail 1 to 0" }
    ensures fetched { fetched_text 2 (fetched_read ∷ [])
        ≡ codes "fetched 2 command 0 queue 1 cid 7 opcode 2 name read nsid 1 marked 0" }
    ensures queues_asked { shown_by shown_queues ≡ queues_text 2 busy_controller }
    ensures fetched_asked { shown_by shown_fetched ≡ fetched_text 2 (fetched_read ∷ []) }
{}

/// The answers about a driver, namespaces, attachments and a reservation.
#[tactic(auto, unfolding(crate::proofs::TextLiterals::texts_on_literals))]
fn world_answers_example()
    ensures driver { shown_by shown_driver ≡ codes "driver 2 state down next 5" }
    ensures namespaces { shown_by shown_namespaces
        ≡ codes "namespaces namespace 1 first 0 blocks 64 shared 1 protected 0" }
    ensures attached { shown_by shown_attached ≡ codes "attached controller 2 namespace 3" }
    ensures reservation { shown_by shown_reservation
        ≡ codes "reservation 1 type 0 holder none generation 0 persists 0 protected 0" }
{}
