//! The port that records calls: its actions, its reports and its doorbells; and what is known of a device.

ghost use Rattle.std.specs.Prelude.{◌≡◌, ◌++◌, [], ◌∷◌, None, Some, Err, length, map, replicate, true, false};
ghost use Rattle.nvme_device.specs.declared.controller.ControllerFault.TheVariants.{EntrySize};
ghost use Rattle.nvme_device.specs.declared.namespace.NamespaceFault.TheVariants.{NotThere};
ghost use Rattle.nvme_driver.specs.declared.lane.Lane.TheVariants.{Admin, Io};
ghost use Rattle.nvme_host.specs.declared.recording_port.Need.TheVariants.{Nothing, Status, Completion};
ghost use Rattle.nvme_host.specs.Doorbells.{
  after_write,
  head_of_lane,
  initial_doorbells,
  next_place,
  place_by,
  register_at,
};
ghost use Rattle.nvme_host.specs.Facts.{
  asked,
  forgotten,
  highest_nsid,
  learned,
  with_answer,
  with_question,
};
ghost use Rattle.nvme_host.specs.Recording.{
  after_look,
  after_turn,
  is_pending,
  more_reports,
  need_after,
  new_port,
  read_after,
  recorded,
  rewound,
  status_in,
  storing,
  with_actions,
  with_reports,
  without_reports,
  writing,
};
ghost use Rattle.nvme_host.specs.Examples.{action, answer, doorbells, facts, port, report};

/// There is room for 32 actions and for 9 reports; more are left out.
fn lists_have_room()
    ensures last_action { length (recorded (replicate 31 action) action) ≡ 32 }
    ensures no_room { length (recorded (replicate 32 action) action) ≡ 32 }
    ensures last_report { length (more_reports (replicate 8 (report 1)) (report 2)) ≡ 9 }
    ensures no_more { length (more_reports (replicate 9 (report 1)) (report 2)) ≡ 9 }
    ensures pending { map is_pending ([] ∷ (action ∷ []) ∷ (action ∷ action ∷ []) ∷ []) ≡ false ∷ true ∷ true ∷ [] }
    ensures store { storing 0x1000 (7 ∷ 8 ∷ []) ≡ record { at = 0x1000; len = 2; value = 0; kind = 1 } }
    ensures write { writing 0x14 1 ≡ record { at = 0x14; len = 0; value = 1; kind = 2 } }
    ensures other_actions { (with_actions port []).actions.items ≡ [] }
    ensures other_reports { (with_reports port []).reports.items ≡ [] }
{}

/// A look reads the next report, or needs what it looked for; a turn also stores the completion of the report.
fn looks_read_reports()
    ensures read { map (λ r. read_after r 3) (None ∷ Some (report 1) ∷ []) ≡ 3 ∷ 4 ∷ [] }
    ensures needs { map (λ r. need_after r Nothing Status) (None ∷ Some (report 1) ∷ []) ≡ Status ∷ Nothing ∷ [] }
    ensures needs_already { need_after None Status Completion ≡ Status }
    ensures statuses { map status_in (None ∷ Some (report 5) ∷ []) ≡ 0 ∷ 5 ∷ [] }
    ensures look { after_look (Some (report 2)) Completion port ≡ record port { reports_read = 2 } }
    ensures lacking { after_look None Completion (record port { need = Nothing }) ≡ record port { need = Completion } }
    ensures turn { (after_turn (Some (report 2)) (record port { window = replicate 0x1050 7 })).window
        ≡ replicate 0x1040 7 ++ replicate 16 2 }
    ensures nothing_new { (after_turn None port).window ≡ replicate 4 7 }
{}

/// A new port, one that begins a bring-up again, and one without reports.
fn ports_are_begun()
    ensures new { new_port [] ≡ record {
      window = [];
      actions = record { items = [] };
      doorbells = initial_doorbells;
      stride = 4;
      reports = record { items = [] };
      reports_read = 0;
      need = Nothing;
      handed_out = 0;
    } }
    ensures again { rewound port
        ≡ record port { actions = record { items = [] }; reports_read = 0; need = Nothing } }
    ensures forgotten { without_reports port ≡ record port { reports = record { items = [] }; handed_out = 0 } }
{}

/// Each register write and what it leaves of the doorbells; heads by lane (queue pair); where the doorbells are.
fn doorbells_are_written()
    ensures reset { after_write doorbells 0x14 0 ≡ record {
      admin_tail = 0;
      io_tail = 0;
      admin_head = record { size = 32; consumed = 0 };
      io_head = record { size = 32; consumed = 0 };
    } }
    ensures enabling { after_write doorbells 0x14 1 ≡ doorbells }
    ensures admin_tail { after_write doorbells 0x1000 6 ≡ record doorbells { admin_tail = 6 } }
    ensures io_tail { after_write doorbells 0x1008 6 ≡ record doorbells { io_tail = 6 } }
    ensures admin_head { after_write doorbells 0x1004 5
        ≡ record doorbells { admin_head = record { size = 32; consumed = 5 } } }
    ensures io_head { after_write doorbells 0x100c 3
        ≡ record doorbells { io_head = record { size = 32; consumed = 3 } } }
    ensures heads { map (λ lane. head_of_lane lane doorbells) (Admin ∷ Io ∷ [])
        ≡ record { size = 32; consumed = 4 } ∷ record { size = 32; consumed = 2 } ∷ [] }
    ensures places { map (λ lane. next_place lane doorbells) (Admin ∷ Io ∷ []) ≡ 0x1040 ∷ 0x3020 ∷ [] }
    ensures wraps { place_by Io (record { size = 32; consumed = 33 }) ≡ 0x3010 }
    ensures registers { map (register_at 8) (0x14 ∷ 0x1000 ∷ 0x1004 ∷ 0x1008 ∷ 0x100c ∷ [])
        ≡ 0x14 ∷ 0x1000 ∷ 0x1008 ∷ 0x1010 ∷ 0x1018 ∷ [] }
{}

/// A question forgets what it is about; its answer has 4,096 bytes, or failed. Zeros are no controller that suits, and
/// no namespace.
fn questions_are_answered()
    ensures last_place { highest_nsid ≡ 64 }
    ensures controller { forgotten (facts 0) 0 ≡ record (facts 0) { controller = None } }
    ensures namespace { forgotten (facts 0) 1 ≡ record (facts 0) { namespaces = None ∷ None ∷ None ∷ [] } }
    ensures no_place { forgotten (facts 0) 65 ≡ facts 0 }
    ensures asked { (asked (facts 0) 12 1).asked ≡ Some (record { ticket = 12; nsid = 1 }) }
    ensures placed { (with_question (facts 0) (record { ticket = 12; code = 0 }) 1).asked
        ≡ Some (record { ticket = 12; nsid = 1 }) }
    ensures refused { with_question (facts 0) (record { ticket = 0; code = 28 }) 1 ≡ facts 0 }
    ensures controller_answered { learned (facts 0) (answer 4096) (replicate 4096 0)
        ≡ record (facts 0) { controller = Some (Err EntrySize); asked = None } }
    ensures namespace_answered { learned (facts 1) (answer 4096) (replicate 4096 0)
        ≡ record (facts 1) { namespaces = None ∷ Some (Err NotThere) ∷ None ∷ []; asked = None } }
    ensures no_place_for_it { with_answer (facts 65) 65 (replicate 4096 0) ≡ facts 65 }
    ensures failed { learned (facts 1) (answer 0) [] ≡ record (facts 1) { asked = None } }
    ensures other_length { learned (facts 1) (answer 4095) [] ≡ record (facts 1) { asked = None } }
    ensures other_answer { learned (facts 1) (record (answer 4096) { ticket = 8 }) [] ≡ facts 1 }
{}
