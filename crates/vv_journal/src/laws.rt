//! Laws of images. Each is a function without arguments that does nothing: what it ensures is the law.
ghost use Rattle.std.specs.Prelude.{◌≡◌, ◌<◌, ◌≤◌, ◌+◌, ◌++◌, [], ◌∷◌, List, ℕ, Some, None, take};
ghost use Rattle.vv_journal.specs.declared.opening.OpenFault.{OpenFault};
ghost use Rattle.vv_journal.specs.declared.opening.LogHead.{LogHead};
ghost use Rattle.vv_journal.specs.declared.reading.SlotRead.TheVariants.{Closed, Bad, Payload};
ghost use Rattle.vv_journal.specs.Log.{log_of};
ghost use Rattle.vv_journal.specs.Openings.{open_fault, HasHead, HasRead, HoldsRead, StandsNext, journal_at, journal_at_first};

/// An image in which opening finds a fault holds no log.
pub fn a_faulty_image_holds_no_log()
    ensures { (image : List ℕ) → (fault : OpenFault) → open_fault image ≡ Some fault → log_of image ≡ None }
{}

/// Before the first slot nothing was read, and a payload that is read is one more.
pub fn payloads_are_read_in_order()
    ensures first { (head : LogHead) → (image : List ℕ) → HasRead (journal_at_first head) [] image }
    ensures next { (head : LogHead) → (n len : ℕ) → (got image : List ℕ) → (records : List (List ℕ)) → HasRead (journal_at head n) records image
        → StandsNext (journal_at head n) got (Payload len) image → HasRead (journal_at head (n + 1)) (records ++ take len got ∷ []) image }
{}

/// Where the next slot is closed, or none is left, the payloads that were read are the records of the log.
pub fn a_closed_slot_ends_the_records()
    ensures { (head : LogHead) → (n : ℕ) → (image : List ℕ) → (records : List (List ℕ)) → n ≤ 256 → HasHead head image → HasRead (journal_at head n) records image
        → (n < 256 → StandsNext (journal_at head n) [] Closed image) → HoldsRead head records image }
{}

/// Where the next slot is bad, the image holds no log.
pub fn a_bad_slot_leaves_no_log()
    ensures { (head : LogHead) → (n : ℕ) → (image : List ℕ) → (records : List (List ℕ)) → n < 256 → HasHead head image → HasRead (journal_at head n) records image
        → StandsNext (journal_at head n) [] Bad image → log_of image ≡ None }
{}
