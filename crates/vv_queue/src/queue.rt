//! A queue of at most 32 commands.
ghost use Rattle.std.specs.Prelude.{◌≡◌, ◌≤◌, [], length, drop, slice_get, IfOk};
ghost use Rattle.std.specs.Option.{option_copied};
ghost use Rattle.vv_queue.specs.Queues.{answer_at, after_submit, places};

use std::alloc::Global;
use std::collections::VecDeque;
use std::marker::Model;
use vv_calls::ScsiCall;
use vv_units::NoMemory;

/// The most commands of a host.
const PLACES: usize = 32;

/// The commands of a host in the order in which they came. Only making it takes memory.
#[derive(Drop)]
pub struct HostQueue {
    commands: VecDeque<ScsiCall>,
}

impl Model for HostQueue {
    ghost use Rattle.std.specs.Prelude.{◌≤◌, List, length};
    ghost use Rattle.std.specs.VecDeque.{deque_capacity};
    ghost use Rattle.vv_calls.specs.declared.call.ScsiCall.{ScsiCall};

    ghost Value = { List ScsiCall };

    ghost view = { λ a. a.commands.items };

    ghost invariant = { λ a. (length a.commands.items ≤ 32) × (32 ≤ deque_capacity a.commands) };
}

/// There was no place for this command.
#[derive(Debug, Drop)]
pub struct QueueFull {
    pub command: ScsiCall,
}

impl HostQueue {
    /// No command, with room for 32.
    pub fn new(alloc: Global) -> Result<HostQueue, NoMemory>
        ensures { IfOk result (λ queue. queue ≡ []) }
    {
        let commands = VecDeque::with_capacity(alloc, PLACES).map_err(|_| NoMemory)?;
        Ok(HostQueue { commands })
    }

    /// Puts a command behind the others, or hands it back where 32 stand.
    pub fn submit(&mut self, command: ScsiCall) -> Result<(), QueueFull>
        ensures answer { result ≡ answer_at self.old command }
        ensures after { self.new ≡ after_submit self.old command }
    {
        if self.commands.len() >= PLACES {
            return Err(QueueFull { command });
        }
        self.commands.push_back_reserved(command);
        Ok(())
    }

    /// The first command.
    pub fn head(&self) -> Option<&ScsiCall>
        ensures { option_copied result ≡ slice_get self.now 0 }
    {
        self.commands.front()
    }

    /// Takes the first command out.
    pub fn pop(&mut self) -> Option<ScsiCall>
        ensures value { result ≡ slice_get self.old 0 }
        ensures rest { self.new ≡ drop 1 self.old }
    {
        self.commands.pop_front()
    }

    /// Drops all commands.
    pub fn clear(&mut self)
        ensures { self.new ≡ [] }
    {
        self.commands.clear();
    }

    /// How many commands there are.
    pub fn len(&self) -> u32
        ensures count { result ≡ length self.now }
        ensures few { result ≤ places }
    {
        self.commands.len() as u32
    }
}
