//! Taking back the last call of a replica.
ghost use Rattle.std.specs.Prelude.{◌≡◌, IfErr, IsOk, IsTrue, OnErr, OnOk};
ghost use Rattle.replica_core.specs.Changes.{ChangeGivesBack, ChangeLeadsSomewhere, needs_no_memory, plain_change};

use crate::change::Change;
use crate::replica::Replica;
use dots_core::Oom;
use std::alloc::Allocator;

impl<A: Allocator> Replica<A> {
    /// Takes the last call back by its change. The replica must be as that call left it. If memory is refused, the
    /// change comes back, and nothing changes. To take back a join, an up or a down needs no memory.
    pub fn undo(&mut self, change: Change<A>) -> Result<(), (Change<A>, Oom)>
    where
        A: Copy,
        requires { ChangeLeadsSomewhere (plain_change change) self.old }
        ensures ok { OnOk result (ChangeGivesBack (plain_change change) self.old self.new) }
        ensures err { OnErr result (self.new ≡ self.old) }
        ensures given_back { IfErr result (λ failed. failed.0 ≡ change) }
        ensures needs_no_memory { IsTrue (needs_no_memory (plain_change change)) → IsOk result }
    {
        // form: each arm is a case of the proof
        match change {
            Change::Join => {
                self.stores.unjoin();
                Ok(())
            }
            Change::Leave(left) => {
                if let Err((left, failed)) = self.stores.restore(left) {
                    return Err((Change::Leave(left), failed));
                }
                Ok(())
            }
            Change::LeaveAll(lefts) => {
                if let Err((lefts, failed)) = self.stores.restore_each(lefts) {
                    return Err((Change::LeaveAll(lefts), failed));
                }
                Ok(())
            }
            Change::Update(left) => {
                if let Err((left, failed)) = self.stores.restore(left) {
                    return Err((Change::Update(left), failed));
                }
                Ok(())
            }
            Change::Up { name, before } => {
                self.put_status(name, before);
                Ok(())
            }
            Change::Down { name, before } => {
                self.put_status(name, before);
                Ok(())
            }
            Change::Permdown { name, forgotten } => {
                if let Err((forgotten, failed)) = self.remember(name, forgotten) {
                    return Err((Change::Permdown { name, forgotten }, failed));
                }
                Ok(())
            }
            Change::Deliver(delivered) => {
                if let Err((delivered, failed)) = self.stores.undeliver(delivered) {
                    return Err((Change::Deliver(delivered), failed));
                }
                Ok(())
            }
        }
    }
}
