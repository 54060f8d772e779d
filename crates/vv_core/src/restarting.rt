//! What a restart and an interruption make of a core.
ghost use Rattle.std.specs.Prelude.{◌≡◌};
ghost use Rattle.vv_flat.specs.Restart.{restarted, interrupted};

use crate::array_core::Core;

impl Core {
    /// Ends all running tasks.
    pub fn interrupt(&mut self)
        ensures { self.new.array ≡ interrupted self.old.array }
    {
        self.tables.interrupt();
    }

    /// Empties the queues and the attentions.
    pub fn restart(&mut self)
        ensures { self.new.array ≡ restarted self.old.array }
    {
        self.waiting.forget();
    }
}
