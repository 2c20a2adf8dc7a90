//! Worked examples of the definitions. Each is the contract of an empty function, proved by computing.

ghost use Rattle.std.specs.Prelude.{◌≡◌, ◌++◌, ◌∷◌, [], ℕ, List, true, false, Some, None, codes, replicate, take};
ghost use Rattle.nvme_event.specs.declared.event.FleetEvent.TheVariants.{
  BringUp,
  Place,
  Ring,
  Fetch,
  Execute,
  Poll,
  Reset,
  RawStore,
  RawWrite32,
  PowerCycle,
};
ghost use Rattle.script_text.specs.Lines.{text_lines};
ghost use Rattle.nvme_grammar.specs.Line.{line_at};
ghost use Rattle.nvme_grammar.specs.Lent.{lent};
ghost use Rattle.nvme_grammar.specs.Script.{Begins, IsFirstOutside, events_of, configuration_of, start_of};
ghost use Rattle.nvme_grammar.specs.Example.{example_setup, example_events, example_asked};
ghost use Rattle.nvme_grammar.specs.declared.line.Line.TheVariants.{
  Blank,
  Controller,
  Namespace,
  Attached,
  Start,
  Event,
};
ghost use Rattle.nvme_driver.specs.declared.request.Request.TheVariants.{
  Read,
  Write,
  Compare,
  WriteZeroes,
  Flush,
  Register,
  Acquire,
  Release,
  Report,
  Identify,
  Protect,
  Protection,
  Attach,
  Detach,
};
ghost use Rattle.nvme_spec.specs.Configuration.{empty_configuration};

#[tactic(auto, unfolding(crate::proofs::OnLiterals::lines_on_literals))]
pub fn configuration_lines()
    ensures controller { line_at (codes "controller 1 host 0xa1")
        ≡ Some (Controller (record { cntlid = 1; host = 161; raw = false })) }
    ensures raw { line_at (codes "controller 2 host 0xb2 raw")
        ≡ Some (Controller (record { cntlid = 2; host = 178; raw = true })) }
    ensures shared { line_at (codes "namespace 1 blocks 64 shared")
        ≡ Some (Namespace (record { nsid = 1; blocks = 64; shared = true })) }
    ensures private { line_at (codes "namespace 2 blocks 8 private")
        ≡ Some (Namespace (record { nsid = 2; blocks = 8; shared = false })) }
    ensures attached { line_at (codes "attached 1 2") ≡ Some (Attached 1 2) }
    ensures start { line_at (codes " start " ++ 13 ∷ []) ≡ Some Start }
    ensures comment { line_at (codes "# " ++ 11 ∷ 0 ∷ 255 ∷ []) ≡ Some Blank }
    ensures no_words { line_at (32 ∷ 9 ∷ 13 ∷ []) ≡ Some Blank }
    ensures nothing { line_at [] ≡ Some Blank }
{}

#[tactic(auto, unfolding(crate::proofs::OnLiterals::lines_on_literals))]
pub fn event_lines()
    ensures up { line_at (codes "up 1") ≡ Some (Event (BringUp 1)) }
    ensures ring { line_at (codes "ring 1") ≡ Some (Event (Ring 1)) }
    ensures fetch { line_at (codes "fetch 1 65535") ≡ Some (Event (Fetch 1 65535)) }
    ensures execute { line_at (codes "execute 1 0") ≡ Some (Event (Execute 1 0)) }
    ensures poll { line_at (codes "poll 1") ≡ Some (Event (Poll 1)) }
    ensures reset { line_at (codes "reset 1") ≡ Some (Event (Reset 1)) }
    ensures store { line_at (codes "store 2 0x1000 hex:00fF")
        ≡ Some (Event (RawStore 2 4096 (lent (0 ∷ 255 ∷ [])))) }
    ensures write32 { line_at (codes "write32 2 0x14 0x00460001") ≡ Some (Event (RawWrite32 2 20 4587521)) }
    ensures power_cycle { line_at (codes "powercycle") ≡ Some (Event PowerCycle) }
    ensures separators { line_at (9 ∷ codes "powercycle  " ++ 13 ∷ []) ≡ Some (Event PowerCycle) }
{}

#[tactic(auto, unfolding(crate::proofs::OnLiterals::lines_on_literals))]
pub fn data_lines()
    ensures read { line_at (codes "read 1 2 0x40 256") ≡ Some (Event (Place 1 (Read 2 64 256))) }
    ensures fill { line_at (codes "write 1 2 7 2 fill:5A")
        ≡ Some (Event (Place 1 (Write 2 7 (lent (replicate 1024 90))))) }
    ensures hex { line_at (codes "write 1 1 0 1 hex:48656c6c6f")
        ≡ Some (Event (Place 1 (Write 1 0 (lent (codes "Hello" ++ replicate 507 0))))) }
    ensures compare { line_at (codes "compare 1 2 7 1 fill:00")
        ≡ Some (Event (Place 1 (Compare 2 7 (lent (replicate 512 0))))) }
    ensures zeroes { line_at (codes "zeroes 1 2 7 65536") ≡ Some (Event (Place 1 (WriteZeroes 2 7 65536))) }
    ensures flush { line_at (codes "flush 1 0xffffffff") ≡ Some (Event (Place 1 (Flush 4294967295))) }
    ensures no_blocks { line_at (codes "write 1 1 0 0 hex:00") ≡ Some (Event (Place 1 (Write 1 0 (lent [])))) }
    ensures too_many_blocks { line_at (codes "write 1 1 0 257 fill:00")
        ≡ Some (Event (Place 1 (Write 1 0 (lent [])))) }
    ensures longest { line_at (codes "write 1 1 0 1 hex:" ++ replicate 1024 48)
        ≡ Some (Event (Place 1 (Write 1 0 (lent (replicate 512 0))))) }
{}

#[tactic(auto, unfolding(crate::proofs::OnLiterals::lines_on_literals))]
pub fn reservation_lines()
    ensures register { line_at (codes "register 1 2 0 1 3 0xa 0xb")
        ≡ Some (Event (Place 1 (Register 2 0 true 3 10 11))) }
    ensures no_iekey { line_at (codes "register 1 2 255 0 255 0xa 0xb")
        ≡ Some (Event (Place 1 (Register 2 255 false 255 10 11))) }
    ensures acquire { line_at (codes "acquire 1 2 0 1 0xa 0xb") ≡ Some (Event (Place 1 (Acquire 2 0 1 10 11))) }
    ensures release { line_at (codes "release 1 2 0 1 0xa") ≡ Some (Event (Place 1 (Release 2 0 1 10))) }
    ensures report { line_at (codes "report 1 2 16") ≡ Some (Event (Place 1 (Report 2 16))) }
{}

#[tactic(auto, unfolding(crate::proofs::OnLiterals::lines_on_literals))]
pub fn admin_lines()
    ensures identify { line_at (codes "identify 1 2 3") ≡ Some (Event (Place 1 (Identify 2 3))) }
    ensures protect { line_at (codes "protect 1 2 1") ≡ Some (Event (Place 1 (Protect 2 1))) }
    ensures protection { line_at (codes "protection 1 2") ≡ Some (Event (Place 1 (Protection 2))) }
    ensures attach { line_at (codes "attach 1 2 3 4") ≡ Some (Event (Place 1 (Attach 2 (lent (3 ∷ 4 ∷ []))))) }
    ensures nobody { line_at (codes "detach 1 2") ≡ Some (Event (Place 1 (Detach 2 (lent [])))) }
    ensures long_list { line_at (codes "detach 1 2 1 2 3 4 5 6 7")
        ≡ Some (Event (Place 1 (Detach 2 (lent (1 ∷ 2 ∷ 3 ∷ 4 ∷ 5 ∷ 6 ∷ 7 ∷ []))))) }
{}

#[tactic(auto, unfolding(crate::proofs::OnLiterals::lines_on_literals))]
pub fn no_configuration_lines()
    ensures extra_word { line_at (codes "attached 1 1 1") ≡ None }
    ensures words_behind_start { line_at (codes "start now") ≡ None }
    ensures keyword_in_upper_case { line_at (codes "START") ≡ None }
    ensures wrong_keyword { line_at (codes "controller 1 hosts 1") ≡ None }
    ensures not_raw { line_at (codes "controller 1 host 1 Raw") ≡ None }
    ensures word_behind_raw { line_at (codes "controller 1 host 1 raw raw") ≡ None }
    ensures raw_without_host { line_at (codes "controller 1 raw") ≡ None }
    ensures neither_kind { line_at (codes "namespace 1 blocks 8 public") ≡ None }
    ensures number_too_large { line_at (codes "controller 65536 host 1") ≡ None }
    ensures plus { line_at (codes "attached +1 1") ≡ None }
    ensures no_digit { line_at (codes "attached 0x 1") ≡ None }
    ensures vertical_tab { line_at (codes "attached 1" ++ 11 ∷ codes "1") ≡ None }
    ensures indented_comment { line_at (codes " #") ≡ None }
{}

#[tactic(auto, unfolding(crate::proofs::OnLiterals::lines_on_literals))]
pub fn no_event_lines()
    ensures unknown_word { line_at (codes "cycle 1") ≡ None }
    ensures do_is_gone { line_at (codes "do 1 read 1 0 1") ≡ None }
    ensures missing_word { line_at (codes "read 1 1 0") ≡ None }
    ensures extra_word { line_at (codes "flush 1 1 1") ≡ None }
    ensures controller_above_16_bits { line_at (codes "up 65536") ≡ None }
    ensures blocks_above_32_bits { line_at (codes "read 1 1 0 0x100000000") ≡ None }
    ensures action_above_8_bits { line_at (codes "release 1 1 256 1 1") ≡ None }
    ensures address_above_64_bits { line_at (codes "store 1 0x10000000000000000 hex:00") ≡ None }
    ensures iekey_2 { line_at (codes "register 1 1 0 2 0 1 1") ≡ None }
    ensures protect_without_state { line_at (codes "protect 1 1") ≡ None }
    ensures protection_with_state { line_at (codes "protection 1 1 1") ≡ None }
    ensures identifier_above_16_bits { line_at (codes "attach 1 1 1 2 3 4 5 6 7 65536") ≡ None }
    ensures power_cycle_of_a_controller { line_at (codes "powercycle 1") ≡ None }
    ensures two_words { line_at (codes "power cycle") ≡ None }
    ensures nine_words { line_at (codes "register 1 1 0 0 0 1 1 1") ≡ None }
{}

#[tactic(auto, unfolding(crate::proofs::OnLiterals::lines_on_literals))]
pub fn no_data_lines()
    ensures no_data { line_at (codes "write 1 1 0 1") ≡ None }
    ensures one_digit { line_at (codes "write 1 1 0 1 fill:5") ≡ None }
    ensures odd { line_at (codes "write 1 1 0 1 hex:0") ≡ None }
    ensures odd_for_no_blocks { line_at (codes "write 1 1 0 0 hex:0") ≡ None }
    ensures no_digits { line_at (codes "compare 1 1 0 1 hex:") ≡ None }
    ensures too_long { line_at (codes "compare 1 1 0 1 hex:" ++ replicate 1026 48) ≡ None }
    ensures filled_store { line_at (codes "store 1 0 fill:00") ≡ None }
{}

#[tactic(auto, unfolding(crate::proofs::OnLiterals::lines_on_literals))]
pub fn scripts()
    ensures begins { Begins (example_setup ++ example_events) }
    ensures controllers { (configuration_of (example_setup ++ example_events)).controllers
        ≡ (record { cntlid = 1; host = 161; raw = false }) ∷ [] }
    ensures namespaces { (configuration_of (example_setup ++ example_events)).namespaces
        ≡ (record { nsid = 1; blocks = 64; shared = true }) ∷ [] }
    ensures attached { (configuration_of (example_setup ++ example_events)).attached ≡ (1, 1) ∷ [] }
    ensures start { start_of (example_setup ++ example_events) ≡ Some 4 }
    ensures events { events_of (example_setup ++ example_events) ≡ example_asked }
    ensures no_start { configuration_of (take 3 example_setup) ≡ empty_configuration }
    ensures never_started { start_of (take 3 example_setup) ≡ None }
    ensures another_controller { Begins (example_setup ++ codes "up 7" ∷ []) }
{}

#[tactic(auto, unfolding(crate::proofs::OnLiterals::lines_on_literals))]
pub fn texts()
    ensures ended { text_lines (codes "start" ++ 10 ∷ []) ≡ codes "start" ∷ [] ∷ [] }
    ensures not_ended { text_lines (codes "start") ≡ codes "start" ∷ [] }
    ensures carriage_return { text_lines (codes "a" ++ 13 ∷ codes "b") ≡ (codes "a" ++ 13 ∷ codes "b") ∷ [] }
{}

#[tactic(auto, unfolding(crate::proofs::OnLiterals::lines_on_literals))]
pub fn first_lines_outside()
    ensures cut { IsFirstOutside 5 (example_setup ++ codes "read 1 1 0" ∷ []) }
    ensures second_start { IsFirstOutside 5 (example_setup ++ codes "start" ∷ codes "stop" ∷ []) }
    ensures late_setup { IsFirstOutside 5 (example_setup ++ codes "attached 1 1" ∷ []) }
    ensures early_event { IsFirstOutside 4 (take 3 example_setup ++ codes "up 1" ∷ codes "start" ∷ []) }
{}
