//! Members that are lists are written.
ghost use Rattle.std.specs.Prelude.{◌≡◌, ◌<◌, ◌≤◌, ◌+◌, ◌*◌, ◌==◌, ◌++◌, ◌∷◌, [], codes, decimal, length, map};
ghost use Rattle.std.specs.List.{prefix_len};
ghost use Rattle.vv_reply.specs.Objects.{buffer_limit, separated, comma_behind};
ghost use Rattle.vv_reply.specs.Runs.{run_text, runs_text, runs_of};
ghost use Rattle.vv_reply.specs.Values as value;

use crate::ReplyBuffer;
use itoa::Buffer;
use vv_units::{Key, Need, Note, PairList};

fn run_length(byte: u8, bytes: &[u8]) -> usize
    ensures { result ≡ prefix_len (λ b. b == byte) bytes.now }
{
    bytes.iter().take_while(|b| **b == byte).count()
}

impl ReplyBuffer {
    /// Bits as a text of the digits 0 and 1.
    pub(crate) fn bits(&mut self, bits: &[bool])
        requires { length self.old + length bits.now + 64 ≤ buffer_limit }
        ensures text { self.new ≡ self.old ++ value.bits bits.now }
        ensures size { length self.new ≤ length self.old + length bits.now + 64 }
    {
        self.put(b"\"");
        self.digits(bits);
        self.put(b"\"");
    }

    fn digits(&mut self, bits: &[bool])
        requires { length self.old + length bits.now ≤ buffer_limit }
        ensures text { self.new ≡ self.old ++ map value.bit_digit bits.now }
        ensures size { length self.new ≡ length self.old + length bits.now }
    {
        for bit in bits {
            self.digit(*bit);
        }
    }

    fn digit(&mut self, bit: bool)
        requires { length self.old + 1 ≤ buffer_limit }
        ensures text { self.new ≡ self.old ++ value.bit_digit bit ∷ [] }
        ensures size { length self.new ≡ length self.old + 1 }
    {
        self.put(&[if bit { b'1' } else { b'0' }]);
    }

    /// The runs of equal bytes, each as `["hh",n]`.
    pub(crate) fn runs(&mut self, bytes: &[u8])
        requires { length self.old + 9 * length bytes.now + 64 ≤ buffer_limit }
        ensures text { self.new ≡ self.old ++ value.runs bytes.now }
        ensures size { length self.new ≤ length self.old + 9 * length bytes.now + 64 }
    {
        self.put(b"[");
        self.run_items(bytes);
        self.put(b"]");
    }

    fn run_items(&mut self, bytes: &[u8])
        requires { length self.old + 9 * length bytes.now ≤ buffer_limit }
        ensures text { self.new ≡ self.old ++ runs_text (runs_of bytes.now) }
        ensures size { length self.new ≤ length self.old + 9 * length bytes.now }
    {
        let mut rest = bytes;
        while let [byte, ..] = rest {
            let length = run_length(*byte, rest);
            let (_, after) = rest.split_at(length);
            self.run(*byte, length);
            if !after.is_empty() {
                self.put(b",");
            }
            rest = after;
        }
    }

    fn run(&mut self, byte: u8, count: usize)
        requires some { 1 ≤ count }
        requires room { length self.old + 9 * count ≤ buffer_limit + 1 }
        ensures text { self.new ≡ self.old ++ run_text (byte, count) }
        ensures size { length self.new + 1 ≤ length self.old + 9 * count }
    {
        self.put(b"[\"");
        self.hex(byte);
        self.put(b"\",");
        self.count(count);
        self.put(b"]");
    }

    /// A number in decimal, which has no more digits than 9 times itself without 8.
    fn count(&mut self, count: usize)
        requires some { 1 ≤ count }
        requires room { length self.old + 9 * count ≤ buffer_limit + 8 }
        ensures text { self.new ≡ self.old ++ decimal count }
        ensures size { length self.new + 8 ≤ length self.old + 9 * count }
    {
        let mut buffer = Buffer::new();
        self.put(buffer.format(count as u64).as_bytes());
    }

    /// A comma behind so many items, if there is one.
    fn comma_behind(&mut self, count: usize)
        requires { length self.old + 1 ≤ buffer_limit }
        ensures text { self.new ≡ self.old ++ comma_behind count }
        ensures size { length self.new ≤ length self.old + 1 }
    {
        if count != 0 {
            self.put(b",");
        }
    }

    /// Metadata, each pair as `["key","value"]`.
    pub(crate) fn pairs(&mut self, pairs: &PairList)
        requires few { length pairs.now ≤ 256 }
        requires room { length self.old + 70000 ≤ buffer_limit }
        ensures text { self.new ≡ self.old ++ value.pairs pairs.now }
        ensures size { length self.new ≤ length self.old + 70000 }
    {
        self.put(b"[");
        self.pair_items(pairs);
        self.put(b"]");
    }

    fn pair_items(&mut self, pairs: &PairList)
        requires few { length pairs.now ≤ 256 }
        requires room { length self.old + 256 * length pairs.now ≤ buffer_limit }
        ensures text { self.new ≡ self.old ++ separated (map value.pair pairs.now) }
        ensures size { length self.new ≤ length self.old + 256 * length pairs.now }
    {
        let mut i = 0;
        while let Some((key, note)) = pairs.at(i) {
            self.comma_behind(i as usize);
            self.pair(key, note);
            i += 1;
        }
    }

    fn pair(&mut self, key: &Key, note: &Note)
        requires { length self.old + 200 ≤ buffer_limit }
        ensures text { self.new ≡ self.old ++ value.pair (key.now, note.now) }
        ensures size { length self.new ≤ length self.old + 200 }
    {
        self.put(b"[\"");
        self.put(key.items());
        self.put(b"\",\"");
        self.put(note.items());
        self.put(b"\"]");
    }

    /// A profile, each need as `["name",n]`.
    pub(crate) fn needs(&mut self, needs: &[Need])
        requires few { length needs.now ≤ 256 }
        requires room { length self.old + 70000 ≤ buffer_limit }
        ensures text { self.new ≡ self.old ++ value.needs needs.now }
        ensures size { length self.new ≤ length self.old + 70000 }
    {
        self.put(b"[");
        self.need_items(needs);
        self.put(b"]");
    }

    fn need_items(&mut self, needs: &[Need])
        requires few { length needs.now ≤ 256 }
        requires room { length self.old + 128 * length needs.now ≤ buffer_limit }
        ensures text { self.new ≡ self.old ++ separated (map value.need needs.now) }
        ensures size { length self.new ≤ length self.old + 128 * length needs.now }
    {
        for (i, need) in needs.iter().enumerate() {
            self.comma_behind(i);
            self.need(need);
        }
    }

    fn need(&mut self, need: &Need)
        requires { length self.old + 120 ≤ buffer_limit }
        ensures text { self.new ≡ self.old ++ value.need need.now }
        ensures size { length self.new ≤ length self.old + 120 }
    {
        self.put(b"[\"");
        self.put(need.name.items());
        self.put(b"\",");
        self.number(need.value);
        self.put(b"]");
    }
}
