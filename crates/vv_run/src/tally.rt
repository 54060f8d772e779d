//! What the lines of a generated script were answered, added up.
ghost use Rattle.std.specs.Prelude.{◌≡◌, ◌<◌, ◌+◌, ◌^◌, [], ◌∷◌};
ghost use Rattle.vv_reply.specs.Replies.{FitsReply};
ghost use Rattle.vv_reply.specs.declared.reply.Reply.TheVariants as ended_so;
ghost use Rattle.vv_run.specs.Loading.{says_ok};
ghost use Rattle.vv_run.specs.Tallies.{none_counted, report_of, Counts, LastFits};

use vv_array::Served;
use vv_reply::{Reply, ScsiReply};

/// What a line was answered: the log number that was recovered, where the image was opened again for it, and the reply.
#[derive(Drop)]
pub(crate) struct LineReport {
    pub(crate) recovered: Option<u64>,
    pub(crate) reply: Reply,
}

/// How many lines were answered with `"ok":true`, how many were not, and what the last was answered.
#[derive(Drop)]
pub(crate) struct Tally {
    pub(crate) accepted: u64,
    pub(crate) refused: u64,
    pub(crate) last: Option<LineReport>,
}

impl Tally {
    /// The tally of no line.
    pub(crate) fn new() -> Tally
        ensures none { result ≡ none_counted }
        ensures fits { LastFits result }
    {
        Tally {
            accepted: 0,
            refused: 0,
            last: None,
        }
    }

    /// Counts one line more.
    pub(crate) fn count(&mut self, served: Served)
        requires accepted { self.old.accepted + 1 < 2 ^ 64 }
        requires refused { self.old.refused + 1 < 2 ^ 64 }
        requires fits { FitsReply served.reply }
        ensures counts { Counts self.old self.new (report_of served.recovered served.reply ∷ []) }
        ensures one { self.new.accepted + self.new.refused ≡ self.old.accepted + self.old.refused + 1 }
        ensures fits { LastFits self.new }
    {
        let Served { recovered, reply } = served;
        if says_ok(&reply) {
            self.accepted += 1;
        } else {
            self.refused += 1;
        }
        self.last = Some(LineReport { recovered, reply });
    }
}

/// Whether a reply has the member `"ok":true`.
#[tactic(auto, using(crate::proofs::TallyLemmas::says_done, crate::proofs::TallyLemmas::says_refused, crate::proofs::TallyLemmas::says_line))]
fn says_ok(reply: &Reply) -> bool
    ensures { result ≡ says_ok reply.now }
{
    match reply {
        Reply::Done(_) => true,
        Reply::Refused(_) => false,
        Reply::Scsi(ended) => is_good(ended),
        Reply::Line(_) => false,
    }
}

/// Whether a command ended with the status GOOD and no sense.
#[tactic(auto, using(crate::proofs::TallyLemmas::says_failed, crate::proofs::TallyLemmas::says_ended))]
fn is_good(ended: &ScsiReply) -> bool
    ensures { result ≡ says_ok (ended_so.Scsi ended.now) }
{
    match ended.sense {
        Some(_) => false,
        None => ended.status == 0,
    }
}
