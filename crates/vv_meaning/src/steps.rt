//! Steps and runs of the durable array.
ghost use Rattle.std.specs.Prelude.{◌≡◌, ◌≤◌, ℕ, IsTrue, Some, Ok, List, [], ◌∷◌, ◌++◌, Option};
ghost use Rattle.vv_flat.specs.Profiles.{Capability};
ghost use Rattle.vv_reply.specs.declared.reply.Reply.{Reply};
ghost use Rattle.vv_reply.specs.Replies.{FitsReply};
ghost use Rattle.vv_calls.specs.Lines.{line_reading};
ghost use Rattle.vv_calls.specs.declared.call.Call.{Call};
ghost use Rattle.vv_meaning.specs.Forms.{call_has_forms};
ghost use Rattle.vv_meaning.specs.Steps.{State, IsState, least_number, is_well_formed_state, Step, Report, Run};

/// The two arrays of a state that is down are the same or a log number apart, and every step keeps that,
pub fn a_step_keeps_states()
    ensures { (capabilities : List Capability) → (old : State) → (line : List ℕ) → (recovered : Option ℕ) → (answer : Reply) → (new : State)
        → Step capabilities old line recovered answer new → IsState old → IsState new }
{}

/// and so does a run.
pub fn a_run_keeps_states()
    ensures { (capabilities : List Capability) → (old new : State) → (lines : List (List ℕ)) → (reports : List Report)
        → Run capabilities old lines reports new → IsState old → IsState new }
{}

/// Log numbers never fall.
pub fn log_numbers_never_fall()
    ensures { (capabilities : List Capability) → (old : State) → (line : List ℕ) → (recovered : Option ℕ) → (answer : Reply) → (new : State)
        → Step capabilities old line recovered answer new → IsState old → least_number old ≤ least_number new }
{}

/// A number that is told as recovered is no lower than that of the state before, and no higher than that of the state after.
pub fn a_recovered_number_is_between_those_of_the_states()
    ensures { (capabilities : List Capability) → (old : State) → (line : List ℕ) → (recovered : Option ℕ) → (answer : Reply) → (new : State)
        → (n : ℕ) → Step capabilities old line recovered answer new → IsState old → recovered ≡ Some n
        → (least_number old ≤ n) × (n ≤ least_number new) }
{}

/// Each reply of a step from well-formed arrays has a text.
pub fn every_reply_of_a_step_has_a_text()
    ensures { (capabilities : List Capability) → (old : State) → (line : List ℕ) → (recovered : Option ℕ) → (answer : Reply) → (new : State)
        → Step capabilities old line recovered answer new → IsTrue (is_well_formed_state old) → FitsReply answer }
{}

/// A step keeps arrays well-formed, where the fields of its call have their forms.
pub fn a_step_keeps_arrays_well_formed()
    ensures { (capabilities : List Capability) → (old : State) → (line : List ℕ) → (recovered : Option ℕ) → (answer : Reply) → (new : State)
        → Step capabilities old line recovered answer new → ((c : Call) → line_reading line ≡ Ok c → IsTrue (call_has_forms c))
        → IsTrue (is_well_formed_state old) → IsTrue (is_well_formed_state new) }
{}

/// A run and one step more are a run.
pub fn a_run_goes_on_by_one_line()
    ensures { (capabilities : List Capability) → (old mid new : State) → (lines : List (List ℕ)) → (reports : List Report)
        → (line : List ℕ) → (report : Report) → Run capabilities old lines reports mid
        → Step capabilities mid line report.recovered report.answer new
        → Run capabilities old (lines ++ line ∷ []) (reports ++ report ∷ []) new }
{}
