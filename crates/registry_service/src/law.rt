//! The laws that link orders to the account of sessions.
ghost use Rattle.registry_service.specs.Laws.{BeginsEmpty, CutsHaveCause, OpenGoesOn, OrdersAnswer, OrdersStop};

/// An order that was answered goes on its session. It touches no sector, and costs no step of a
/// lane.
pub fn orders_answer()
    ensures { OrdersAnswer }
{}

/// One that was cut stops it, whether its entry stands or not.
pub fn orders_stop()
    ensures { OrdersStop }
{}

/// If its entry stands, power was cut in a command, and the registry had a fuse.
pub fn cuts_have_cause()
    ensures { CutsHaveCause }
{}

/// Which namespace is open goes on by each call and its reply.
pub fn open_goes_on()
    ensures { OpenGoesOn }
{}

/// When the lock is made, a session has no entry, room for its calls, and nothing open.
pub fn begins_empty()
    ensures { BeginsEmpty }
{}
