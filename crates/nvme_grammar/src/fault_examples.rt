//! Worked examples of the faults of lines. Each is the contract of an empty function, proved by computing.

ghost use Rattle.std.specs.Prelude.{◌≡◌, ◌++◌, ◌∷◌, [], List, ℕ, Bool, true, false, Some, None, codes};
ghost use Rattle.nvme_grammar.specs.Lent.{lent};
ghost use Rattle.nvme_grammar.specs.LineFaults.{fault_of};
ghost use Rattle.nvme_grammar.specs.FaultTexts.{prefix_text, why_text};
ghost use Rattle.nvme_grammar.specs.Keywords.{nearest_to};
ghost use Rattle.nvme_grammar.specs.declared.fault.Why.TheVariants.{Byte, Unknown, Count, Misfit, TooEarly, TooLate};
ghost use Rattle.nvme_grammar.specs.declared.place.Operand.TheVariants.{Cntlid, Nsid, Queue, Host as HostId};
ghost use Rattle.nvme_grammar.specs.declared.place.Place.TheVariants.{Number, Host, Raw};
ghost use Rattle.nvme_grammar.specs.declared.keyword.Keyword.TheVariants.{
  Write,
  Attach,
  Attached,
  Up,
  Read,
  Start,
  PowerCycle,
};

#[tactic(auto, unfolding(crate::proofs::OnLiterals::faults_on_literals))]
pub fn misfits()
    ensures number { fault_of true (codes "read 1 0xg 0 1")
        ≡ Some (record { column = 8; why = Misfit 3 (Number Nsid) (lent (codes "0xg")) }) }
    ensures separators { fault_of true (32 ∷ 9 ∷ codes "fetch 1   65536")
        ≡ Some (record { column = 13; why = Misfit 3 (Number Queue) (lent (codes "65536")) }) }
    ensures first { fault_of true (codes "fetch x y")
        ≡ Some (record { column = 7; why = Misfit 2 (Number Cntlid) (lent (codes "x")) }) }
    ensures host { fault_of false (codes "controller 1 hots 2")
        ≡ Some (record { column = 14; why = Misfit 3 Host (lent (codes "hots")) }) }
    ensures raw { fault_of false (codes "controller 1 host 2 rwa")
        ≡ Some (record { column = 21; why = Misfit 5 Raw (lent (codes "rwa")) }) }
    ensures list { fault_of true (codes "attach 1 1 2 3 4 5 6 7 8 9 x")
        ≡ Some (record { column = 28; why = Misfit 12 (Number Cntlid) (lent (codes "x")) }) }
{}

#[tactic(auto, unfolding(crate::proofs::OnLiterals::faults_on_literals))]
pub fn lines_as_a_whole()
    ensures near { fault_of true (codes "wirte 1 1 0 1 hex:00")
        ≡ Some (record { column = 1; why = Unknown (lent (codes "wirte")) (Some Write) }) }
    ensures far { fault_of true (codes " do 1")
        ≡ Some (record { column = 2; why = Unknown (lent (codes "do")) None }) }
    ensures count { fault_of true (codes "write 1 1 0 1") ≡ Some (record { column = 1; why = Count Write }) }
    ensures no_words { fault_of true (codes " powercycle 1") ≡ Some (record { column = 2; why = Count PowerCycle }) }
    ensures byte { fault_of true (codes "up" ++ 11 ∷ codes "1") ≡ Some (record { column = 3; why = Byte 11 }) }
    ensures early { fault_of false (codes "up 1") ≡ Some (record { column = 1; why = TooEarly Up }) }
    ensures early_power_cycle { fault_of false (codes "powercycle")
        ≡ Some (record { column = 1; why = TooEarly PowerCycle }) }
    ensures late { fault_of true (codes "attached 1 1") ≡ Some (record { column = 1; why = TooLate Attached }) }
    ensures twice { fault_of true (codes "start") ≡ Some (record { column = 1; why = TooLate Start }) }
    ensures comment { fault_of true (codes "# " ++ 11 ∷ 0 ∷ 255 ∷ []) ≡ None }
    ensures nothing { fault_of false [] ≡ None }
    ensures good { fault_of true (codes "write 1 1 0 1 fill:00") ≡ None }
    ensures power_cycle { fault_of true (codes "powercycle") ≡ None }
{}

#[tactic(auto, unfolding(crate::specs::Keywords::nearest_to, crate::specs::Near::is_meant))]
pub fn near_words()
    ensures wrong { nearest_to (codes "wrote") ≡ Some Write }
    ensures missing { nearest_to (codes "attch") ≡ Some Attach }
    ensures too_many { nearest_to (codes "upp") ≡ Some Up }
    ensures exchanged { nearest_to (codes "raed") ≡ Some Read }
    ensures longest { nearest_to (codes "powercylce") ≡ Some PowerCycle }
    ensures upper_case { nearest_to (codes "READ") ≡ Some Read }
    ensures capital { nearest_to (codes "Attached") ≡ Some Attached }
    ensures capital_and_wrong { nearest_to (codes "REDA") ≡ None }
    ensures two_wrong { nearest_to (codes "wrets") ≡ None }
    ensures part { nearest_to (codes "power") ≡ None }
{}

/// The texts of the reasons for which lines are refused.
#[tactic(auto, unfolding(crate::specs::FaultTexts::prefix_text))]
pub fn texts()
    ensures count { why_text (Count PowerCycle) ≡ codes "powercycle takes 1 word: powercycle" }
    ensures early { why_text (TooEarly PowerCycle)
        ≡ codes "powercycle needs a 'start' before it" }
    ensures attach { why_text (TooEarly Attach)
        ≡ codes "attach needs a 'start' before it; did you mean 'attached'?" }
    ensures host { prefix_text (Number HostId) (codes "a1") ≡ codes "; did you mean '0xa1'?" }
    ensures no_digit { prefix_text (Number HostId) (codes "g1") ≡ [] }
    ensures too_wide { prefix_text (Number Cntlid) (codes "65536") ≡ [] }
    ensures no_number { why_text (Misfit 3 Host (lent (codes "ab"))) ≡ codes "the word 'host', not 'ab'" }
    ensures near { why_text (Unknown (lent (codes "powercycel")) (Some PowerCycle))
        ≡ codes "there is no line 'powercycel'; did you mean 'powercycle'?" }
{}
