//! What calls give is written.
ghost use Rattle.std.specs.Prelude.{◌≡◌, ◌<◌, ◌≤◌, length};
ghost use Rattle.vv_units.specs.Identifiers.{identifier_limit};
ghost use Rattle.vv_reply.specs.Objects.{object};
ghost use Rattle.vv_reply.specs.Replies.{answer_members, FitsAnswer, FitsKind};

use crate::ReplyBuffer;
use crate::names::{kind_name, state_name, type_name};
use crate::reply::{Answer, BitList};
use vv_units::{
    ContainerId, EndpointId, NeedList, PairList, Secondary, TaskId, TaskState, VolumeId,
    VolumeKind, VvolType,
};

impl ReplyBuffer {
    /// The line of what a call gives.
    pub(crate) fn answer(&mut self, answer: &Answer)
        requires { FitsAnswer answer.now }
        ensures { self.new ≡ object (answer_members answer.now) }
    {
        match answer {
            Answer::Empty => self.empty_line(),
            Answer::Container { container } => self.container_line(*container),
            Answer::Vvol { vvol } => self.vvol_line(*vvol),
            Answer::CloneStart {
                target,
                task,
                total,
            } => self.clone_start_line(*target, *task, *total),
            Answer::CopyStart { task, total } => self.copy_start_line(*task, *total),
            Answer::TaskNow {
                done,
                state,
                task,
                total,
            } => self.task_now_line(*done, *state, *task, *total),
            Answer::Bound {
                endpoint,
                secondary,
            } => self.bound_line(*endpoint, *secondary),
            Answer::Left { left } => self.left_line(*left),
            Answer::Removed { removed } => self.removed_line(*removed),
            Answer::Bits { bits } => self.bits_line(bits),
            Answer::Count { count } => self.count_line(*count),
            Answer::Pool {
                chunks,
                entries,
                free,
                reserved,
                used,
            } => self.pool_line(*chunks, *entries, *free, *reserved, *used),
            Answer::Charge { charged, quota } => self.charge_line(*charged, *quota),
            Answer::Queued { queued } => self.queued_line(*queued),
            Answer::NothingServed => self.nothing_served_line(),
            Answer::Volume {
                allocated,
                chunks,
                container,
                kind,
                metadata,
                profile,
                reverted,
                vtype,
            } => self.volume_line(
                *allocated, *chunks, *container, *kind, metadata, profile, *reverted, *vtype,
            ),
        }
    }

    fn empty_line(&mut self)
        ensures { self.new ≡ object (answer_members (Answer.Empty)) }
    {
        self.open("ok");
        self.flag(true);
        self.close();
    }

    fn container_line(&mut self, container: ContainerId)
        requires { container.0 < identifier_limit }
        ensures { self.new ≡ object (answer_members (Answer.Container container)) }
    {
        self.open("container");
        self.identifier(container.0);
        self.next("ok");
        self.flag(true);
        self.close();
    }

    fn vvol_line(&mut self, vvol: VolumeId)
        requires { vvol.0 < identifier_limit }
        ensures { self.new ≡ object (answer_members (Answer.Vvol vvol)) }
    {
        self.open("ok");
        self.flag(true);
        self.next("vvol");
        self.identifier(vvol.0);
        self.close();
    }

    fn clone_start_line(&mut self, target: VolumeId, task: TaskId, total: u32)
        requires { target.0 < identifier_limit }
        ensures { self.new ≡ object (answer_members (Answer.CloneStart target task total)) }
    {
        self.open("ok");
        self.flag(true);
        self.next("target");
        self.identifier(target.0);
        self.next("task");
        self.number(task.0);
        self.next("total");
        self.number(u64::from(total));
        self.close();
    }

    fn copy_start_line(&mut self, task: TaskId, total: u32)
        ensures { self.new ≡ object (answer_members (Answer.CopyStart task total)) }
    {
        self.open("ok");
        self.flag(true);
        self.next("task");
        self.number(task.0);
        self.next("total");
        self.number(u64::from(total));
        self.close();
    }

    fn task_now_line(&mut self, done: u32, state: TaskState, task: TaskId, total: u32)
        ensures { self.new ≡ object (answer_members (Answer.TaskNow done state task total)) }
    {
        self.open("done");
        self.number(u64::from(done));
        self.next("ok");
        self.flag(true);
        self.next("state");
        self.text(state_name(state));
        self.next("task");
        self.number(task.0);
        self.next("total");
        self.number(u64::from(total));
        self.close();
    }

    fn bound_line(&mut self, endpoint: EndpointId, secondary: Secondary)
        ensures { self.new ≡ object (answer_members (Answer.Bound endpoint secondary)) }
    {
        self.open("endpoint");
        self.number(u64::from(endpoint.0));
        self.next("ok");
        self.flag(true);
        self.next("secondary");
        self.number(u64::from(secondary.0));
        self.close();
    }

    fn left_line(&mut self, left: u16)
        ensures { self.new ≡ object (answer_members (Answer.Left left)) }
    {
        self.open("left");
        self.number(u64::from(left));
        self.next("ok");
        self.flag(true);
        self.close();
    }

    fn removed_line(&mut self, removed: u32)
        ensures { self.new ≡ object (answer_members (Answer.Removed removed)) }
    {
        self.open("ok");
        self.flag(true);
        self.next("removed");
        self.number(u64::from(removed));
        self.close();
    }

    fn bits_line(&mut self, bits: &BitList)
        requires { length bits.now ≤ 1048576 }
        ensures { self.new ≡ object (answer_members (Answer.Bits bits.now)) }
    {
        self.open("bits");
        self.bits(bits.items());
        self.next("ok");
        self.flag(true);
        self.close();
    }

    fn count_line(&mut self, count: u32)
        ensures { self.new ≡ object (answer_members (Answer.Count count)) }
    {
        self.open("count");
        self.number(u64::from(count));
        self.next("ok");
        self.flag(true);
        self.close();
    }

    fn pool_line(&mut self, chunks: u32, entries: u32, free: u32, reserved: u32, used: u32)
        ensures { self.new ≡ object (answer_members (Answer.Pool chunks entries free reserved used)) }
    {
        self.open("chunks");
        self.number(u64::from(chunks));
        self.next("entries");
        self.number(u64::from(entries));
        self.next("free");
        self.number(u64::from(free));
        self.next("ok");
        self.flag(true);
        self.next("reserved");
        self.number(u64::from(reserved));
        self.next("used");
        self.number(u64::from(used));
        self.close();
    }

    fn charge_line(&mut self, charged: u64, quota: u64)
        ensures { self.new ≡ object (answer_members (Answer.Charge charged quota)) }
    {
        self.open("charged");
        self.number(charged);
        self.next("ok");
        self.flag(true);
        self.next("quota");
        self.number(quota);
        self.close();
    }

    fn queued_line(&mut self, queued: u32)
        ensures { self.new ≡ object (answer_members (Answer.Queued queued)) }
    {
        self.open("ok");
        self.flag(true);
        self.next("queued");
        self.number(u64::from(queued));
        self.close();
    }

    fn nothing_served_line(&mut self)
        ensures { self.new ≡ object (answer_members (Answer.NothingServed)) }
    {
        self.open("ok");
        self.flag(true);
        self.next("served");
        self.flag(false);
        self.close();
    }

    /// The line of a volume as it stands.
    fn volume_line(
        &mut self,
        allocated: u32,
        chunks: u32,
        container: ContainerId,
        kind: VolumeKind,
        metadata: &PairList,
        profile: &NeedList,
        reverted: u64,
        vtype: VvolType,
    )
        requires container { container.0 < identifier_limit }
        requires kind { FitsKind kind }
        requires metadata { length metadata.now ≤ 256 }
        requires profile { length profile.now ≤ 256 }
        ensures { self.new ≡ object (answer_members (Answer.Volume allocated chunks container kind metadata.now profile.now reverted vtype)) }
    {
        self.open("allocated");
        self.number(u64::from(allocated));
        self.next("chunks");
        self.number(u64::from(chunks));
        self.next("container");
        self.identifier(container.0);
        self.next("kind");
        self.text(kind_name(kind));
        self.next("metadata");
        self.pairs(metadata);
        self.next("of");
        self.origin(kind);
        self.next("ok");
        self.flag(true);
        self.next("profile");
        self.needs(profile.items());
        self.next("reverted");
        self.number(reverted);
        self.next("type");
        self.text(type_name(vtype));
        self.close();
    }
}
