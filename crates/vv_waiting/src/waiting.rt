//! The queues and the attentions.
ghost use Rattle.std.specs.Prelude.{ℕ, ◌≡◌, if◌then◌else◌, ◌==◌, ◌-◌, [], ◌∷◌, ◌++◌, length, map, filter, replicate, option_map, IsTrue, IsFalse, IfOk};
ghost use Rattle.std.specs.Option.{option_copied};
ghost use Rattle.vv_flat.specs.State.{Binding as BindingState};
ghost use Rattle.vv_flat.specs.Volatile.{queue_of, queue_head, is_queue_full, submitted, head_taken, with_attention, with_attentions, without_attention, without_attentions_of};
ghost use Rattle.vv_laws.specs.VolatileForm.{are_attentions};
ghost use Rattle.vv_bind.specs.Table.{IsHost, address};
ghost use Rattle.vv_lun.specs.Attentions.{may_wait};
ghost use Rattle.vv_meaning.specs.Commands.{command_of};
ghost use Rattle.vv_waiting.specs.Seen.{seen_queue};

use std::alloc::Global;
use std::marker::Model;
use vv_bind::{BindTable, Binding};
use vv_calls::ScsiCall;
use vv_lun::Attentions;
use vv_queue::HostQueue;
use vv_units::{EndpointId, HostId, NoMemory, Secondary, VolumeId};

/// The hosts have the numbers from 1 to this.
const HOSTS: usize = 64;

/// The queue of each host, and the unit attentions. All memory but that of the commands themselves is taken when it is made.
#[derive(Drop)]
pub struct Waiting {
    queues: Vec<HostQueue>,
    attentions: Attentions,
}

impl Model for Waiting {
    ghost use Rattle.std.specs.Prelude.{◌≡◌, length};
    ghost use Rattle.vv_flat.specs.State.{Volatile};
    ghost use Rattle.vv_waiting.specs.Seen.{seen_waiting};

    ghost Value = { Volatile };

    ghost view = { λ a. seen_waiting a.queues.items a.attentions };

    ghost invariant = { λ a. length a.queues.items ≡ 64 };
}

impl Waiting {
    /// No command and no attention waits.
    pub fn new(alloc: Global) -> Result<Waiting, NoMemory>
        ensures { IfOk result (λ waiting. waiting ≡ record { queues = replicate 64 []; attentions = [] }) }
    {
        Ok(Waiting {
            queues: empty_queues(alloc)?,
            attentions: Attentions::new(alloc)?,
        })
    }

    /// The commands that wait, the queue of host 1 first.
    pub fn queues(&self) -> &[HostQueue]
        ensures { map seen_queue result.now ≡ self.now.queues }
    {
        &self.queues
    }

    /// The commands that wait for a host.
    pub fn queue(&self, host: HostId) -> &HostQueue
        requires { IsHost host.0 }
        ensures { seen_queue result.now ≡ queue_of self.now host.0 }
    {
        &self.queues[place_of(host)]
    }

    /// The command of a host that is served next, if one waits.
    pub fn head(&self, host: HostId) -> Option<&ScsiCall>
        requires { IsHost host.0 }
        ensures { option_map command_of (option_copied result) ≡ queue_head self.now host.0 }
    {
        self.queue(host).head()
    }

    /// Puts a command behind those that wait for its host.
    pub fn submit(&mut self, command: ScsiCall)
        requires host { IsHost command.host.0 }
        requires room { IsFalse (is_queue_full (queue_of self.old command.host.0)) }
        ensures { self.new ≡ submitted self.old (command_of command) }
    {
        let queue = &mut self.queues[place_of(command.host)];
        submit_to(queue, command);
    }

    /// Takes the first command of a host away, if one waits.
    pub fn take_head(&mut self, host: HostId)
        requires { IsHost host.0 }
        ensures { self.new ≡ head_taken self.old host.0 }
    {
        let queue = &mut self.queues[place_of(host)];
        drop(queue.pop());
    }

    /// The addresses at which a unit attention waits.
    pub fn attentions(&self) -> &Attentions
        ensures { result.now ≡ self.now.attentions }
    {
        &self.attentions
    }

    /// Clears the attention at an address, if one waits there.
    pub fn clear_attention(&mut self, host: HostId, endpoint: EndpointId, secondary: Secondary)
        ensures { self.new ≡ record self.old { attentions = without_attention self.old.attentions (address host.0 endpoint.0 secondary.0) } }
    {
        self.attentions.clear(host, endpoint, secondary);
    }

    /// Clears the attentions at all addresses of a host.
    pub fn clear_host(&mut self, host: HostId)
        ensures { self.new ≡ record self.old { attentions = without_attentions_of self.old.attentions host.0 } }
    {
        self.attentions.clear_host(host);
    }

    /// Sets an attention at each address at which a volume is bound. Attentions wait at bound addresses alone.
    pub fn attend(&mut self, bindings: &BindTable, volume: VolumeId)
        requires { IsTrue (are_attentions bindings.now.bindings self.old.attentions) }
        ensures { self.new ≡ record self.old {
          attentions = with_attentions self.old.attentions
              (map (λ (b : BindingState). b.address) (filter (λ (b : BindingState). b.volume == volume.0) bindings.now.bindings));
        } }
    {
        set_all(&mut self.attentions, bindings, volume);
    }

    /// Forgets all.
    pub fn forget(&mut self)
        ensures { self.new ≡ record { queues = replicate 64 []; attentions = [] } }
    {
        clear_all(&mut self.queues);
        self.attentions.clear_all();
    }
}

/// The place of a host's queue.
fn place_of(host: HostId) -> usize
    requires { IsHost host.0 }
    ensures { result ≡ host.0 - 1 }
{
    host.0 as usize - 1
}

/// An empty queue for each host.
fn empty_queues(alloc: Global) -> Result<Vec<HostQueue>, NoMemory>
    ensures { IfOk result (λ queues. queues.items ≡ replicate 64 []) }
{
    let mut queues = Vec::new(alloc);
    for _ in 0..HOSTS {
        queues.push(HostQueue::new(alloc)?).map_err(|_| NoMemory)?;
    }
    Ok(queues)
}

/// Takes all commands out of queues.
fn clear_all(queues: &mut Vec<HostQueue>)
    ensures { queues.new.items ≡ map (λ _. []) queues.old.items }
{
    for queue in queues.iter_mut() {
        queue.clear();
    }
}

/// Puts a command behind others, where there is room.
fn submit_to(queue: &mut HostQueue, command: ScsiCall)
    requires { IsFalse (is_queue_full (seen_queue queue.old)) }
    ensures { queue.new ≡ queue.old ++ command ∷ [] }
{
    match queue.submit(command) {
        Ok(()) => {}
        Err(_) => unreachable!(),
    }
}

/// Sets an attention at the address of a binding, if it is one of a volume.
fn set_one(attentions: &mut Attentions, binding: &Binding, volume: VolumeId)
    requires { IsTrue (may_wait attentions.old binding.now.address) }
    ensures { attentions.new ≡ if binding.now.volume == volume.0 then with_attention attentions.old binding.now.address else attentions.old }
{
    if binding.volume().0 == volume.0 {
        attentions.set(binding.host(), binding.endpoint(), binding.secondary());
    }
}

/// Sets an attention at each address at which a volume is bound.
fn set_all(attentions: &mut Attentions, bindings: &BindTable, volume: VolumeId)
    requires { IsTrue (are_attentions bindings.now.bindings attentions.old) }
    ensures { attentions.new ≡ with_attentions attentions.old
        (map (λ (b : BindingState). b.address) (filter (λ (b : BindingState). b.volume == volume.0) bindings.now.bindings)) }
{
    let mut i = 0;
    while let Some(binding) = bindings.at(i) {
        set_one(attentions, binding, volume);
        i += 1;
    }
}
