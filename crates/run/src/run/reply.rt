// A call as a value, carried out.
ghost use Rattle.std.specs.Prelude.{◌≡◌};
ghost use Rattle.order.specs.Orders.{goes_by};
ghost use Rattle.dispatch.specs.Runs.{reply, after};
ghost use Rattle.run.specs.View.{state_of};

use super::Run;
use dispatch::{Call, Reply};
use order::Order;
use supply::Supply;

impl<S: Supply, O: Order> Run<S, O> {
    // Carries out the call and replies; a list of pending jobs is only counted. Inlined, so that a reply is not put
    // together only to be taken apart.
    #[inline(always)]
    pub fn reply(&mut self, call: Call) -> Reply
        ensures reply { result ≡ reply S.step (goes_by O.keyed O.before self.old.order) call (state_of self.old) }
        ensures state { state_of self.new ≡ after S.step (goes_by O.keyed O.before self.old.order) call (state_of self.old) }
        ensures order { self.new.order ≡ self.old.order }
    {
        match call {
            Call::Release(row) => self
                .release(row)
                .map_or_else(Reply::Refused, |_| Reply::Released),
            Call::End(row) => self.end(row).map_or_else(Reply::Refused, Reply::Ended),
            Call::Tick(offer) => self.tick(offer).map_or_else(Reply::Refused, Reply::Ticked),
            Call::Look => Reply::Looked(self.look()),
            Call::Pending(room) => self
                .dispatcher
                .room_for(room)
                .map_or_else(Reply::Refused, Reply::Pending),
        }
    }
}
