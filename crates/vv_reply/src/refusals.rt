//! Refusals, the ends of commands, and the faults of lines are written.
ghost use Rattle.std.specs.Prelude.{◌≡◌, ◌≤◌, ◌+◌, ◌∷◌, [], codes, length, false};
ghost use Rattle.vv_units.specs.Names.{field_text};
ghost use Rattle.vv_reply.specs.Objects.{object, opened, behind, quoted, flag, number};
ghost use Rattle.vv_reply.specs.Replies.{cause_members, last_members, refusal_members, senses_of, sense_members, status_member, command_members, failed_members, ended_members, line_members};

use crate::ReplyBuffer;
use crate::names::{field_name, part_name, why_name};
use crate::reply::{Refusal, ScsiReply};
use vv_calls::LineFault;
use vv_cdb::Sense;
use vv_units::{Damage, Field, TooMany};

/// GOOD.
const GOOD: u8 = 0;

impl ReplyBuffer {
    /// The line of a refusal, beside a sense if there is one.
    pub(crate) fn refusal(&mut self, refusal: &Refusal, sense: Option<(u8, Sense)>)
        ensures { self.new ≡ object (refusal_members (senses_of sense) refusal.now) }
    {
        self.cause(refusal);
        self.senses(sense);
        self.last(refusal);
        self.close();
    }

    /// The members of a cause up to the last.
    fn cause(&mut self, refusal: &Refusal)
        ensures text { self.new ≡ opened (cause_members refusal.now) }
        ensures size { length self.new ≤ 1024 }
    {
        match *refusal {
            Refusal::NotFound { name } => self.named_fault("NotFound", name),
            Refusal::InvalidArgument { name } => self.named_fault("InvalidArgument", name),
            Refusal::IncompatibleVolume { name } => self.named_fault("IncompatibleVolume", name),
            Refusal::NoEndpoint { name } => self.named_fault("NoEndpoint", name),
            Refusal::ResourceInUse { name } => self.named_fault("ResourceInUse", name),
            Refusal::NotCancellable { name } => self.named_fault("NotCancellable", name),
            Refusal::Exhausted => self.plain_fault("Exhausted"),
            Refusal::TooMany(many) => self.too_many(many),
            Refusal::InvalidProfile { at, .. } => self.invalid_profile(at),
            Refusal::OverQuota {
                charged,
                asked,
                quota,
            } => self.over_quota(charged, asked, quota),
            Refusal::PoolFull { free, asked } => self.pool_full(free, asked),
            Refusal::MapFull {
                entries,
                asked,
                limit,
            } => self.map_full(entries, asked, limit),
            Refusal::ReadFault => self.plain_fault("ReadFault"),
            Refusal::WriteFault => self.plain_fault("WriteFault"),
            Refusal::Damaged(damage) => self.damaged(damage),
            Refusal::NoMemory => self.plain_fault("NoMemory"),
        }
    }

    fn plain_fault(&mut self, fault: &str)
        requires { length fault.now ≤ 32 }
        ensures text { self.new ≡ opened ((codes "fault", quoted fault.now) ∷ (codes "ok", flag false) ∷ []) }
        ensures size { length self.new ≤ 1024 }
    {
        self.open("fault");
        self.text(fault);
        self.next("ok");
        self.flag(false);
    }

    fn named_fault(&mut self, fault: &str, name: Field)
        requires { length fault.now ≤ 32 }
        ensures text { self.new ≡ opened ((codes "fault", quoted fault.now) ∷ (codes "name", quoted (field_text name)) ∷ (codes "ok", flag false) ∷ []) }
        ensures size { length self.new ≤ 1024 }
    {
        self.open("fault");
        self.text(fault);
        self.next("name");
        self.text(field_name(name));
        self.next("ok");
        self.flag(false);
    }

    fn too_many(&mut self, many: TooMany)
        ensures text { self.new ≡ opened (cause_members (Refusal.TooMany many)) }
        ensures size { length self.new ≤ 1024 }
    {
        self.open("fault");
        self.text("TooMany");
        self.next("limit");
        self.number(u64::from(many.limit));
        self.next("name");
        self.text(field_name(many.name));
        self.next("ok");
        self.flag(false);
    }

    fn invalid_profile(&mut self, at: u32)
        ensures text { self.new ≡ opened ((codes "at", number at) ∷ (codes "fault", quoted (codes "InvalidProfile")) ∷ (codes "ok", flag false) ∷ []) }
        ensures size { length self.new ≤ 1024 }
    {
        self.open("at");
        self.number(u64::from(at));
        self.next("fault");
        self.text("InvalidProfile");
        self.next("ok");
        self.flag(false);
    }

    fn over_quota(&mut self, charged: u64, asked: u64, quota: u64)
        ensures text { self.new ≡ opened (cause_members (Refusal.OverQuota charged asked quota)) }
        ensures size { length self.new ≤ 1024 }
    {
        self.open("asked");
        self.number(asked);
        self.next("charged");
        self.number(charged);
        self.next("fault");
        self.text("OverQuota");
        self.next("ok");
        self.flag(false);
        self.next("quota");
        self.number(quota);
    }

    fn pool_full(&mut self, free: u32, asked: u32)
        ensures text { self.new ≡ opened (cause_members (Refusal.PoolFull free asked)) }
        ensures size { length self.new ≤ 1024 }
    {
        self.open("asked");
        self.number(u64::from(asked));
        self.next("fault");
        self.text("PoolFull");
        self.next("free");
        self.number(u64::from(free));
        self.next("ok");
        self.flag(false);
    }

    fn map_full(&mut self, entries: u32, asked: u32, limit: u32)
        ensures text { self.new ≡ opened (cause_members (Refusal.MapFull entries asked limit)) }
        ensures size { length self.new ≤ 1024 }
    {
        self.open("asked");
        self.number(u64::from(asked));
        self.next("entries");
        self.number(u64::from(entries));
        self.next("fault");
        self.text("MapFull");
        self.next("limit");
        self.number(u64::from(limit));
        self.next("ok");
        self.flag(false);
    }

    fn damaged(&mut self, damage: Damage)
        ensures text { self.new ≡ opened (cause_members (Refusal.Damaged damage)) }
        ensures size { length self.new ≤ 1024 }
    {
        self.open("fault");
        self.text("Damaged");
        self.next("found");
        self.number(damage.found);
        self.next("ok");
        self.flag(false);
        self.next("part");
        self.text(part_name(damage.part));
        self.next("place");
        self.number(damage.place);
    }

    /// A sense and its status, if there is one.
    fn senses(&mut self, sense: Option<(u8, Sense)>)
        requires { length self.old ≤ 2048 }
        ensures text { self.new ≡ behind self.old (senses_of sense) }
        ensures size { length self.new ≤ length self.old + 1024 }
    {
        if let Some((status, sense)) = sense {
            self.sense_and_status(status, sense);
        }
    }

    fn sense_and_status(&mut self, status: u8, sense: Sense)
        requires { length self.old ≤ 2048 }
        ensures text { self.new ≡ behind self.old (sense_members status sense) }
        ensures size { length self.new ≤ length self.old + 1024 }
    {
        self.next("sense");
        self.sense(sense);
        self.next("status");
        self.hex_byte(status);
    }

    /// Why a profile is invalid.
    fn last(&mut self, refusal: &Refusal)
        requires { length self.old ≤ 4096 }
        ensures text { self.new ≡ behind self.old (last_members refusal.now) }
        ensures size { length self.new ≤ length self.old + 1024 }
    {
        if let Refusal::InvalidProfile { why, .. } = refusal {
            self.next("why");
            self.text(why_name(*why));
        }
    }

    /// The line of a command's end.
    pub(crate) fn scsi(&mut self, reply: &ScsiReply)
        requires { length reply.now.payload ≤ 1048576 }
        ensures { self.new ≡ object (command_members reply.now.status reply.now.sense reply.now.cause reply.now.payload) }
    {
        match reply.sense {
            None => self.ended(reply.status, reply.payload.items()),
            Some(sense) => self.failed(reply.status, sense, &reply.cause),
        }
    }

    fn failed(&mut self, status: u8, sense: Sense, cause: &Option<Refusal>)
        ensures { self.new ≡ object (failed_members status sense cause.now) }
    {
        match cause {
            Some(cause) => self.refusal(cause, Some((status, sense))),
            None => self.sense_line(status, sense),
        }
    }

    fn sense_line(&mut self, status: u8, sense: Sense)
        ensures { self.new ≡ object ((codes "ok", flag false) ∷ sense_members status sense) }
    {
        self.open("ok");
        self.flag(false);
        self.sense_and_status(status, sense);
        self.close();
    }

    fn ended(&mut self, status: u8, payload: &[u8])
        requires { length payload.now ≤ 1048576 }
        ensures { self.new ≡ object (ended_members status payload.now) }
    {
        if status == GOOD {
            self.open("data");
            self.runs(payload);
            self.next("ok");
            self.flag(true);
        } else {
            self.open("ok");
            self.flag(false);
        }
        self.next("status");
        self.hex_byte(status);
        self.close();
    }

    /// The line of a line that is no call.
    pub(crate) fn line_fault(&mut self, fault: LineFault)
        ensures { self.new ≡ object (line_members fault) }
    {
        match fault {
            LineFault::NotJson => self.plain_fault("NotJson"),
            LineFault::UnknownCall => self.plain_fault("UnknownCall"),
            LineFault::MissingField { name } => self.named_fault("MissingField", name),
            LineFault::BadField { name } => self.named_fault("BadField", name),
            LineFault::LineTooLong => self.plain_fault("LineTooLong"),
            LineFault::NoMemory => self.plain_fault("NoMemory"),
        }
        self.close();
    }
}
