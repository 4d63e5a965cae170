//! What a session may make when its arenas are made.
ghost use Rattle.std.specs.Prelude.{◌≡◌, ◌^◌, ◌<◌, ℕ, List, [], ◌∷◌, None, length};
ghost use Rattle.arena_open.specs.declared.state.ArenaState.{ArenaState};
ghost use Rattle.lane_core.specs.Arenas.{shape_in};
ghost use Rattle.lane_calls.specs.declared.session.Sectors.{Sectors};
ghost use Rattle.lane_calls.specs.declared.session.Session.{Session};
ghost use Rattle.lane_sessions.specs.declared.making.SessionLimits.{SessionLimits};
ghost use Rattle.lane_sessions.specs.Making.{IsNewSession};
ghost use Rattle.bio_queue.specs.Serving.{MayMake, NeverSwitched};

/// A session that did nothing and never cuts power may make all calls of its limit on the first
/// arena, whose sectors and words are those of its state. So a worker can begin with it. It has
/// not switched power off.
pub fn new_session_may_make()
    ensures may { (s : Sectors) (state : ArenaState) (states : List ArenaState) (limits : SessionLimits) (q : ℕ) (session : Session) → 0 < length s.arenas.items → limits.cut ≡ None → limits.calls < 2 ^ 32
        → IsNewSession s (state ∷ states) limits q session → MayMake s (shape_in state).sectors (shape_in state).width limits.calls [] session }
    ensures on { (s : Sectors) (states : List ArenaState) (limits : SessionLimits) (q : ℕ) (session : Session) → IsNewSession s states limits q session → NeverSwitched session }
{}
