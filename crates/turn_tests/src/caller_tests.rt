//! Facts that no clause states: threads run at the same time, each wait ends. Each public function
//! is called once.
use std::test::Fail;
use turn_callers::{
    Desk, RegisterCall, ShelfOrder, ask_in_turn, count_turns, finish, run_scripts, run_shelf,
    stop_in_turn, wait_for_off,
};
use turn_lock::Turn;

// If each thread ran through at once, the turn would change hands 3 times.
#[test]
fn turns_of_four_threads_interleave(rt: HostRuntime) -> Result<(), Fail> {
    let tally = count_turns(&rt, rt.alloc(), 4, 100_000, 4)?;
    assert!(rt; tally.turns() == 400_000, "{} turns", tally.turns());
    assert!(rt; tally.changes() > 3, "{} changes", tally.changes());
    Ok(())
}

#[test]
fn three_callers_at_one_register(rt: HostRuntime) -> Result<(), Fail> {
    let alloc = rt.alloc();
    let mut scripts = Vec::new(alloc);
    scripts.push(vec![in alloc; RegisterCall::Write(3), RegisterCall::Read]?)?;
    scripts.push(vec![in alloc;
        RegisterCall::Read,
        RegisterCall::Write(5),
        RegisterCall::Read,
    ]?)?;
    scripts.push(Vec::new(alloc))?;
    let ran = run_scripts(&rt, alloc, &scripts, 2)?;
    assert!(rt; ran.journal.len() == 5 && ran.replies.len() == 3);
    Ok(())
}

#[test]
fn two_callers_at_two_registers(rt: HostRuntime) -> Result<(), Fail> {
    let alloc = rt.alloc();
    let write = ShelfOrder {
        place: 1,
        call: RegisterCall::Write(3),
    };
    let read = ShelfOrder {
        place: 0,
        call: RegisterCall::Read,
    };
    let mut scripts = Vec::new(alloc);
    scripts.push(vec![in alloc; write, read]?)?;
    scripts.push(vec![in alloc; read]?)?;
    let ran = run_shelf(&rt, alloc, &scripts, 2, 2)?;
    assert!(rt; ran.journals.len() == 2 && ran.replies.len() == 2);
    Ok(())
}

// Caller 0 is told that power is on, caller 1 stops it, and caller 0 waits until it is told so.
#[test]
fn one_stops_and_another_hears(rt: HostRuntime) -> Result<(), Fail> {
    let desk = Desk::new(rt.alloc(), 2)?;
    let (turn, mut passes) = Turn::of(rt.alloc(), desk, 2)?;
    assert!(rt; ask_in_turn(&rt, &turn, &mut passes[0]) == Some(false));
    assert!(rt; stop_in_turn(&rt, &turn, &mut passes[1]));
    assert!(rt; wait_for_off(&rt, &turn, &mut passes[0]));
    finish(turn, passes);
    Ok(())
}
