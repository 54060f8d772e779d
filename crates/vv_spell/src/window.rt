//! A window over the bytes of a text.
ghost use Rattle.std.specs.Prelude.{◌≡◌, ◌≤◌, ◌-◌, ◌*◌, ◌++◌, ℕ, List, true, false, length, take, drop, min};
ghost use Rattle.vv_fields.specs.Fields.{be_bytes};
ghost use Rattle.vv_spell.specs.Window.{seen, behind};

/// A window over the bytes of a text, which is put part after part: what is ahead of the window is passed over, what is in
/// it is written into memory, and what is behind it is left out. Each call is passed that memory, which is as long as the
/// window.
#[derive(Drop)]
pub(crate) struct Window {
    /// How many bytes of the text are still to be passed over.
    ahead: u64,
    /// How many bytes are written.
    written: usize,
}

impl Window {
    /// A window that begins behind so many bytes of a text.
    pub(crate) fn at(ahead: u64) -> Window
        ensures { result ≡ record { ahead = ahead; written = 0 } }
    {
        Window { ahead, written: 0 }
    }

    /// Whether a part of this length is ahead of the window as a whole, or behind it. Then it is put by that.
    pub(crate) fn pass(&mut self, into: &[u8], bytes: u64) -> bool
        ensures passed { result ≡ true → (text : List ℕ) → length text ≡ bytes → seen self.new into.now ≡ behind (seen self.old into.now) text }
        ensures stayed { result ≡ false → self.new ≡ self.old }
    {
        if bytes <= self.ahead {
            self.ahead -= bytes;
            return true;
        }
        self.is_full(into)
    }

    /// Whether all that follows is behind the window.
    pub(crate) fn is_full(&self, into: &[u8]) -> bool
        ensures { result ≡ true → (text : List ℕ) → behind (seen self.now into.now) text ≡ seen self.now into.now }
    {
        self.ahead == 0 && self.written >= into.len()
    }

    /// Passes over as many of these items, each of so many bytes, as are ahead of the window as a whole, and says how many.
    pub(crate) fn pass_items(&mut self, count: u32, bytes: u32) -> u32
        requires { 1 ≤ bytes }
        ensures few { result ≤ count }
        ensures ahead { bytes * result ≤ self.old.ahead }
        ensures passed { self.new ≡ record self.old { ahead = self.old.ahead - bytes * result } }
    {
        let bytes = bytes as u64;
        let passed = (self.ahead / bytes).min(count as u64);
        self.ahead -= bytes * passed;
        passed as u32
    }

    /// Puts bytes.
    pub(crate) fn put_bytes(&mut self, into: &mut [u8], text: &[u8])
        ensures { seen self.new into.new ≡ behind (seen self.old into.old) text.now }
    {
        let rest = pass_front(&mut self.ahead, text);
        let written = self.written.min(into.len());
        let (_, free) = into.split_at_mut(written);
        self.written = written + copy_front(free, rest);
    }

    /// Puts the lowest `length` bytes of a number, the highest of them first.
    pub(crate) fn put_number(&mut self, into: &mut [u8], length: usize, number: u64)
        requires { length ≤ 8 }
        ensures { seen self.new into.new ≡ behind (seen self.old into.old) (be_bytes length number) }
    {
        let bytes = u64::to_be_bytes(number);
        let (_, lowest) = bytes.split_at(8 - length);
        self.put_bytes(into, lowest);
    }
}

/// Passes over the bytes of a text that are ahead of a window, and gives the rest.
fn pass_front<'a>(ahead: &mut u64, text: &'a [u8]) -> &'a [u8]
    ensures rest { result.now ≡ drop ahead.old text.now }
    ensures ahead { ahead.new ≡ ahead.old - length text.now }
{
    let length = text.len() as u64;
    if length <= *ahead {
        *ahead -= length;
        return &[];
    }
    let (_, rest) = text.split_at(*ahead as usize);
    *ahead = 0;
    rest
}

/// Copies as many bytes as there is memory for, and says how many.
fn copy_front(free: &mut [u8], text: &[u8]) -> usize
    ensures count { result ≡ min (length free.old) (length text.now) }
    ensures bytes { free.new ≡ take (length free.old) text.now ++ drop (length text.now) free.old }
{
    let count = free.len().min(text.len());
    let (fitting, _) = text.split_at(count);
    let (front, _) = free.split_at_mut(count);
    front.copy_from_slice(fitting);
    count
}
