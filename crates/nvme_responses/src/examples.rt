//! Worked examples of the definitions, proved by computing.
#![tactic(auto, unfolding(crate::specs::Entries::entry))]

ghost use Rattle.std.specs.Prelude.{◌≡◌, true, false, [], ◌∷◌, Some, None, Ok, Err, length};
ghost use Rattle.nvme_responses.specs.declared.refused.Refused.TheVariants as refused;
ghost use Rattle.nvme_responses.specs.declared.stage.Stage.TheVariants as stage;
ghost use Rattle.nvme_responses.specs.Entries.{entry, has_do_not_retry, status_field};
ghost use Rattle.nvme_responses.specs.Responses.{
  accepted,
  after_accept,
  after_forget,
  is_outstanding,
  none,
  response,
  seen,
  sqhd,
  stage_of,
};
ghost use Rattle.nvme_responses.specs.Runs.{
  Accepts,
  Connects,
  Ends,
  Forgets,
  Responds,
  Stops,
  commands,
  counted,
  dropped,
  is_disabled_after,
  responses,
  sqsize_after,
  state_after,
};
ghost use Rattle.nvme_responses.specs.Laws.{Fits, HasRoom, Listens, Speaks, Waits, all_done, came, done};
ghost use Rattle.nvme_responses.specs.Examples.{
  answer,
  conflict,
  connect,
  fields,
  four,
  held,
  many,
  reply,
  status,
  two,
};

/// Commands that are accepted, and commands that are refused.
fn acceptance()
    ensures connect { accepted none 5 ≡ Ok false }
    ensures before_connect { accepted (state_after (Accepts 5 ∷ [])) 6 ≡ Err refused.Full }
    ensures one { accepted (state_after two) 1 ≡ Ok false }
    ensures last { accepted (state_after (Accepts 1 ∷ two)) 2 ≡ Ok false }
    ensures full { accepted (state_after four) 2 ≡ Err refused.Full }
    ensures unchanged { after_accept (state_after four) 2 ≡ state_after four }
    ensures room_again { accepted (state_after (Responds (reply 9) ∷ four)) 2 ≡ Ok false }
    ensures dropped { accepted (state_after (Forgets 9 ∷ four)) 2 ≡ Ok false }
    ensures in_use { accepted (state_after two) 7 ≡ Ok true }
    ensures answered { accepted (state_after two) 5 ≡ Ok false }
    ensures free_again { accepted (state_after (Responds (reply 7) ∷ two)) 7 ≡ Ok false }
    ensures still_in_use { accepted (state_after (Responds conflict ∷ four)) 7 ≡ Ok true }
    ensures ending { accepted (state_after (Ends ∷ two)) 1 ≡ Err refused.Ended }
    ensures ended { accepted (state_after (Stops ∷ two)) 1 ≡ Err refused.Ended }
    ensures list { accepted (many 63) 1 ≡ Ok false }
    ensures full_list { accepted (many 64) 1 ≡ Err refused.Full }
{}

/// Commands that get their response, and answers without a command.
fn answers()
    ensures connect { response (state_after connect) (reply 5) ≡ Some (answer 1 5) }
    ensures first { response (state_after two) (reply 7) ≡ Some (answer 3 7) }
    ensures second { response (state_after two) (reply 9) ≡ Some (answer 3 9) }
    ensures nobody { response (state_after two) (reply 8) ≡ None }
    ensures twice { response (state_after (Responds (reply 7) ∷ two)) (reply 7) ≡ None }
    ensures connect_twice { response (state_after two) (reply 5) ≡ None }
    ensures other { response (state_after (Responds (reply 7) ∷ two)) (reply 9) ≡ Some (answer 3 9) }
    ensures conflict { response (state_after four) conflict
        ≡ Some (record { dw0 = 0; dw1 = 0; sqhd = 1; cid = 7; status = 0x8006 }) }
    ensures after_conflict { response (state_after (Responds conflict ∷ four)) (reply 7) ≡ Some (answer 1 7) }
    ensures both { response (state_after (Responds (reply 7) ∷ Responds conflict ∷ four)) (reply 7) ≡ None }
    ensures dropped { response (state_after (Forgets 7 ∷ two)) (reply 7) ≡ None }
    ensures ending { response (state_after (Ends ∷ two)) (reply 7) ≡ Some (answer 3 7) }
    ensures ended { response (state_after (Stops ∷ two)) (reply 7) ≡ None }
    ensures no_way_back { response (state_after (Ends ∷ Stops ∷ two)) (reply 7) ≡ None }
    ensures places { (state_after (Responds (reply 7) ∷ Accepts 1 ∷ two)).outstanding ≡ 1 ∷ 9 ∷ [] }
    ensures there { is_outstanding (state_after two) 9 ≡ true }
    ensures not_there { is_outstanding (state_after two) 8 ≡ false }
    ensures nothing_dropped { after_forget (state_after two) 8 ≡ state_after two }
{}

/// SQHD.
fn heads()
    ensures at_first { sqhd none ≡ 0 }
    ensures refused_connect { response (state_after (Accepts 5 ∷ [])) (reply 5) ≡ Some (answer 0 5) }
    ensures three { sqhd (state_after two) ≡ 3 }
    ensures wraps { sqhd (state_after (Accepts 1 ∷ two)) ≡ 0 }
    ensures goes_on { sqhd (state_after four) ≡ 1 }
    ensures answers_do_not_count { sqhd (state_after (Responds (reply 7) ∷ two)) ≡ 3 }
    ensures one_entry { sqhd (state_after (Connects 0 false ∷ [])) ≡ 0 }
    ensures disabled { sqhd (state_after (Accepts 1 ∷ Connects 3 true ∷ [])) ≡ 0xffff }
    ensures counted { counted four ≡ 5 }
    ensures refused { counted (Accepts 2 ∷ four) ≡ 5 }
    ensures anew { counted (Connects 7 false ∷ four) ≡ 1 }
    ensures size { sqsize_after four ≡ 3 }
    ensures no_size { sqsize_after [] ≡ 0 }
    ensures enabled { is_disabled_after four ≡ false }
    ensures last_word { is_disabled_after (Accepts 1 ∷ Connects 3 true ∷ four) ≡ true }
{}

/// Status fields, and which of them have Do Not Retry.
fn statuses()
    ensures success { status_field (status 0 0x00) ≡ 0 }
    ensures sequence { status_field (status 0 0x0c) ≡ 0x0018 }
    ensures transport { status_field (status 0 0x22) ≡ 0x0044 }
    ensures busy { status_field (status 1 0x81) ≡ 0x0302 }
    ensures inaccessible { status_field (status 3 0x02) ≡ 0x0604 }
    ensures conflict { status_field (status 0 0x03) ≡ 0x8006 }
    ensures reservation { status_field (status 0 0x83) ≡ 0x8106 }
    ensures compare { status_field (status 2 0x85) ≡ 0x850a }
    ensures other_type { has_do_not_retry (status 1 0x0c) ≡ true }
    ensures generic { has_do_not_retry (status 0 0x81) ≡ true }
    ensures vendor { status_field (status 7 0xff) ≡ 0x8ffe }
    ensures four_bits { status_field (status 9 0x83) ≡ 0x8306 }
{}

/// The bytes of a response, and what C's struct is read as.
fn bytes()
    ensures fits { Fits fields }
    ensures entry { entry fields
        ≡ 1 ∷ 2 ∷ 3 ∷ 4 ∷ 5 ∷ 6 ∷ 7 ∷ 8 ∷ 9 ∷ 10 ∷ 0 ∷ 0 ∷ 13 ∷ 14 ∷ 15 ∷ 16 ∷ [] }
    ensures two { (seen (held 2 0)).outstanding ≡ 7 ∷ 9 ∷ [] }
    ensures too_many { length (seen (held 65 0)).outstanding ≡ 64 }
    ensures opened { (seen (held 2 0)).stage ≡ stage.Open }
    ensures ending { stage_of 1 ≡ stage.Ending }
    ensures ended { stage_of 2 ≡ stage.Ended }
    ensures other { stage_of 255 ≡ stage.Ended }
{}

/// What became of commands in a run, the newest call first.
fn runs()
    ensures commands { commands two ≡ 5 ∷ 7 ∷ 9 ∷ [] }
    ensures refused { commands (Accepts 2 ∷ four) ≡ 5 ∷ 7 ∷ 9 ∷ 1 ∷ 7 ∷ [] }
    ensures responses { responses (Responds (reply 9) ∷ Responds (reply 9) ∷ two) ≡ answer 1 5 ∷ answer 3 9 ∷ [] }
    ensures outstanding { (state_after (Responds (reply 9) ∷ two)).outstanding ≡ 7 ∷ [] }
    ensures stopped { dropped (Stops ∷ Responds (reply 9) ∷ two) ≡ 7 ∷ [] }
    ensures forgotten { dropped (Forgets 9 ∷ Forgets 9 ∷ two) ≡ 9 ∷ [] }
    ensures kept { dropped (Ends ∷ two) ≡ [] }
{}

/// Premises of the laws.
fn premises()
    ensures came { came four 7 ≡ 2 }
    ensures done { done (Responds conflict ∷ four) 7 ≡ 1 }
    ensures done_twice { done (Forgets 7 ∷ Responds conflict ∷ four) 7 ≡ 2 }
    ensures all_done { all_done (Forgets 9 ∷ two) ≡ 2 }
    ensures waits { Waits two 7 }
    ensures still_waits { Waits (Responds conflict ∷ four) 7 }
    ensures nobody { Waits two 8 → ⊥ }
    ensures answered { Waits two 5 → ⊥ }
    ensures forgotten { Waits (Forgets 7 ∷ two) 7 → ⊥ }
    ensures speaks { Speaks (Ends ∷ Forgets 9 ∷ two) }
    ensures silent { Speaks (Responds (reply 7) ∷ Stops ∷ two) → ⊥ }
    ensures listens { Listens (Forgets 9 ∷ four) }
    ensures ending { Listens (Connects 3 false ∷ Ends ∷ two) → ⊥ }
    ensures ended { Listens (Stops ∷ two) → ⊥ }
    ensures room { HasRoom two }
    ensures full { HasRoom four → ⊥ }
{}
