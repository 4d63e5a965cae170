//! A schedule is played on an arena, and power is cut.
ghost use Rattle.std.specs.Prelude.{◌≡◌, ◌<◌, ◌^◌, [], ◌∷◌, Some, IfOk, length};
ghost use Rattle.arena_open.specs.Moves.{IsOpenState};
ghost use Rattle.lane_core.specs.Arenas.{shape_in};
ghost use Rattle.lane_core.specs.Reopening.{MaySurvive, Reopens, first_cells};
ghost use Rattle.lane_core.specs.Rows.{words_in};
ghost use Rattle.lane_core.specs.Schedules.{opened_held};
ghost use Rattle.lane_replay.specs.Playing.{replay_text};
ghost use Rattle.shell_changes.specs.Remains.{LeavesBy};
ghost use Rattle.shell_replay.specs.Replay.{held_at_end};

use crate::schedule::Schedule;
use arena_open::ArenaState;
use lane_core::Core;
use lane_replay::play;
use nvd_media::Chooser;
use std::alloc::{AllocError, Global};

/// What a schedule comes to on an arena.
#[derive(Drop)]
pub(crate) struct ReplayEnd {
    /// What its lines print.
    pub text: Vec<u8>,
    /// The arena's words after the power cut.
    pub left: Vec<u64>,
}

/// Plays a schedule on an arena that was opened, and cuts power. The chooser is begun once, after
/// the last line. The call fails only if memory runs out.
pub(crate) fn play_and_cut<C: Chooser>(
    alloc: Global,
    state: ArenaState,
    schedule: &Schedule,
    choose: &mut C,
) -> Result<ReplayEnd, AllocError>
    requires state { IsOpenState state }
    requires few { length schedule.now.lines < 2 ^ 32 }
    ensures text { IfOk result (λ ended. ended.text.items ≡ replay_text (opened_held state) schedule.now.lines) }
    ensures cut { IfOk result (λ ended. LeavesBy C.begins C.picks choose.old schedule.now.seed (Some (words_in (held_at_end state schedule.now.lines).row) ∷ []) (Some ended.left.items ∷ [])) }
    ensures reopens { IfOk result (λ ended. Reopens state (MaySurvive (first_cells state) (held_at_end state schedule.now.lines)) ended.left.items) }
    ensures shape { IfOk result (λ _. (held_at_end state schedule.now.lines).shape ≡ shape_in state) }
    ensures size { IfOk result (λ ended. length ended.left.items ≡ length state.words) }
{
    let mut core = Core::of(alloc, state)?;
    let text = play(alloc, &mut core, &schedule.lines)?;
    choose.begin(schedule.seed);
    let left = core.cut(choose);
    Ok(ReplayEnd { text, left })
}
