//! A disk as the layers above see it: what a read gives, and what a crash may leave.
ghost use Rattle.std.specs.Prelude.{◌≡◌, ◌≤◌, ◌+◌, ◌↔◌, List, ℕ, Option, Some, length, option_map, OnOk, OnErr, IfSome};
ghost use Rattle.vv_units.specs.Causes.{HasCause};
ghost use Rattle.vv_disk.specs.Images.{bytes_at, overwritten, DiffersWithin, ToldWithin, Follows, OnlyTold, Elapses};

use vv_units::Failed;

/// A disk of fixed length. A range that is read or written lies inside it.
///
/// Until a sync has succeeded, a crash may leave any bytes in a range that was written since the last one,
/// by a write that failed too.
pub trait Disk {
    /// How many bytes it has.
    ghost size: { Self → ℕ };

    /// What a read gives, where the disk tells it.
    ghost content: { Self → Option (List ℕ) };

    /// What a crash at this moment may leave.
    ghost is_image: { Self → List ℕ → Type 0 };

    /// The clock: a number that doesn't fall.
    ghost moment: { Self → ℕ };

    /// What a crash at some moment from that one on might have left, during a call or between two.
    ghost left_since: { Self → ℕ → List ℕ → Type 0 };

    /// Whether a crash leaves one of its images and nothing else.
    ghost is_honest: { Self → Type 0 };

    /// How many reads have failed, to the end of 64 bits.
    ghost read_faults: { Self → ℕ };

    /// How many writes and syncs have failed, to the end of 64 bits.
    ghost write_faults: { Self → ℕ };

    /// How many bytes the disk has.
    fn len(&self) -> u64
        ensures { result ≡ size self.now };

    /// Reads the bytes from `at` on that fill `into`.
    fn read(&mut self, at: u64, into: &mut [u8]) -> Result<(), Failed>
        requires { at + length into.old ≤ size self.old }

        ensures bytes { OnOk result (IfSome (content self.old) (λ c. into.new ≡ bytes_at at (length into.old) c)) }
        ensures len { size self.new ≡ size self.old }
        ensures content { content self.new ≡ content self.old }

        ensures images { (image : List ℕ) → is_image self.new image ↔ is_image self.old image }
        ensures time { Elapses (moment self.old) (moment self.new) (left_since self.old) (left_since self.new) (is_image self.new) }
        ensures honesty { is_honest self.new ↔ is_honest self.old }

        ensures cause { HasCause (read_faults self.old) (read_faults self.new) result }
        ensures write_faults { write_faults self.new ≡ write_faults self.old };

    /// Writes these bytes from `at` on.
    fn write(&mut self, at: u64, bytes: &[u8]) -> Result<(), Failed>
        requires { at + length bytes.now ≤ size self.old }

        ensures ok { OnOk result (content self.new ≡ option_map (λ c. overwritten c at bytes.now) (content self.old)) }
        ensures err { OnErr result (ToldWithin at (length bytes.now) (content self.old) (content self.new)) }
        ensures len { size self.new ≡ size self.old }

        ensures images { is_honest self.old → Follows (DiffersWithin at (length bytes.now)) (is_image self.old) (is_image self.new) }
        ensures time { Elapses (moment self.old) (moment self.new) (left_since self.old) (left_since self.new) (is_image self.new) }
        ensures honesty { is_honest self.new ↔ is_honest self.old }

        ensures cause { HasCause (write_faults self.old) (write_faults self.new) result }
        ensures read_faults { read_faults self.new ≡ read_faults self.old };

    /// Puts all that was written on the disk for sure.
    fn sync(&mut self) -> Result<(), Failed>
        ensures ok { OnOk result (is_honest self.old → OnlyTold (content self.new) (is_image self.new)) }
        ensures len { size self.new ≡ size self.old }
        ensures content { content self.new ≡ content self.old }

        // A sync that fails may have put some of it there.
        ensures images { is_honest self.old → (image : List ℕ) → is_image self.new image → is_image self.old image }
        ensures time { Elapses (moment self.old) (moment self.new) (left_since self.old) (left_since self.new) (is_image self.new) }
        ensures honesty { is_honest self.new ↔ is_honest self.old }

        ensures cause { HasCause (write_faults self.old) (write_faults self.new) result }
        ensures read_faults { read_faults self.new ≡ read_faults self.old };

    /// A content that is told is of the disk's length.
    ghost content_fits: { (disk : Self) (c : List ℕ) → content disk ≡ Some c → length c ≡ size disk };

    /// An honest disk tells its content, which is one of its images.
    ghost content_is_image: { (disk : Self) → is_honest disk → (c : List ℕ) × (content disk ≡ Some c) × is_image disk c };

    /// Each image of an honest disk is of its length.
    ghost image_fits: { (disk : Self) (image : List ℕ) → is_honest disk → is_image disk image → length image ≡ size disk };

    /// This moment is one of those since an earlier one.
    ghost counts_now: { (disk : Self) (t : ℕ) (image : List ℕ) → t ≤ moment disk → is_image disk image → left_since disk t image };

    /// Since this moment there is no other.
    ghost only_now: { (disk : Self) (image : List ℕ) → left_since disk (moment disk) image → is_image disk image };

    /// The moments since a later one are among those since an earlier one.
    ghost counts_later: { (disk : Self) (t u : ℕ) (image : List ℕ) → t ≤ u → left_since disk u image → left_since disk t image };
}
