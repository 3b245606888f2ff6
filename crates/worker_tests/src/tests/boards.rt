//! Boards, whose numbers are claimed, trays, into which values are put, and plans: what is refused, and what is left then.
ghost use Rattle.std.specs.Prelude.{◌≡◌, ◌≤◌, OnOk};

use super::checks::check;
use job_matrix::{Board, Chief, Pass, Plan, PutFault, SplitFault, Tray};
use std::alloc::AllocGlobal;
use std::process::Abort;

// Whether a tray refuses a value which it has no slot for, and hands it back.
fn refuses_stranger(tray: &mut Tray<char>, job: u64, value: char) -> bool {
    match tray.put(job, value) {
        Err(PutFault::Stranger(back)) => back == value,
        _ => false,
    }
}

// Whether a tray refuses a value whose slot has one, and hands it back.
fn refuses_twice(tray: &mut Tray<char>, job: u64, value: char) -> bool {
    match tray.put(job, value) {
        Err(PutFault::Twice(back)) => back == value,
        _ => false,
    }
}

// Makes `count` passes, each of which comes back before the next is made.
fn make_passes(board: &Board, chief: &mut Chief, count: u64) -> Result<(), SplitFault>
    requires { chief.old.board ≡ board.now }
    ensures { OnOk result (chief.new.board ≡ board.now) }
{
    'passes: for _ in 0..count {
        let pass = chief.split(board)?;
        chief.take_back(board, pass);
    }
    Ok(())
}

// That a claim is told this.
fn check_claim(rt: &impl Abort, board: &Board, pass: &mut Pass, told: Option<u64>)
    requires { pass.old.board ≡ board.now }
    ensures { pass.new.board ≡ board.now }
{
    let claimed = board.claim(pass);
    check(rt, "a claim", claimed == told);
}

// That a board is closed, and `given` numbers were given.
fn check_closed(rt: &impl Abort, board: Board, chief: Chief, given: u64)
    requires { chief.board ≡ board }
{
    let count = board.close(chief).ok();
    check(rt, "numbers given", count == Some(given));
}

#[test]
fn board_of_two(rt: HostRuntime) {
    let (board, mut chief) = Board::open(rt.alloc(), 2).expect(&rt, "memory");
    let mut first = chief.split(&board).expect(&rt, "a pass");
    let mut second = chief.split(&board).expect(&rt, "a pass");
    let mut third = chief.split(&board).expect(&rt, "a pass");
    check_claim(&rt, &board, &mut first, Some(0));
    check_claim(&rt, &board, &mut second, Some(1));
    check_claim(&rt, &board, &mut third, None);
    check_claim(&rt, &board, &mut third, None);
    chief.take_back(&board, first);
    chief.take_back(&board, second);
    let (board, mut chief) = board.close(chief).expect_err(&rt, "a pass is out");
    chief.take_back(&board, third);
    check_closed(&rt, board, chief, 2);
}

// That one claim of a board of `many` numbers is told this, and `given` numbers were given then.
fn check_one_claim(rt: &(impl Abort + AllocGlobal), many: u64, told: Option<u64>, given: u64)
    requires { many ≤ 5 }
{
    let (board, mut chief) = Board::open(rt.alloc(), many).expect(rt, "memory");
    let mut pass = chief.split(&board).expect(rt, "a pass");
    check_claim(rt, &board, &mut pass, told);
    chief.take_back(&board, pass);
    check_closed(rt, board, chief, given);
}

#[test]
fn boards_of_five_and_none(rt: HostRuntime) {
    check_one_claim(&rt, 5, Some(0), 1);
    check_one_claim(&rt, 0, None, 0);
}

#[test]
fn board_without_a_pass(rt: HostRuntime) {
    let (board, chief) = Board::open(rt.alloc(), 7).expect(&rt, "memory");
    check_closed(&rt, board, chief, 0);
}

#[test]
fn dropped_pass_is_out_for_good(rt: HostRuntime) {
    let (board, mut chief) = Board::open(rt.alloc(), 3).expect(&rt, "memory");
    let mut dropped = chief.split(&board).expect(&rt, "a pass");
    let mut pass = chief.split(&board).expect(&rt, "a pass");
    check_claim(&rt, &board, &mut dropped, Some(0));
    check_claim(&rt, &board, &mut pass, Some(1));
    drop(dropped);
    chief.take_back(&board, pass);
    let (board, chief) = board.close(chief).expect_err(&rt, "a pass is out");
    check(&rt, "and again", board.close(chief).is_err());
}

#[test]
fn passes_up_to_the_limit_and_one_more(rt: HostRuntime) {
    let (board, mut chief) = Board::open(rt.alloc(), 1).expect(&rt, "memory");
    make_passes(&board, &mut chief, 65_536).expect(&rt, "passes");
    let refused = matches!(chief.split(&board), Err(SplitFault::TooManyPasses));
    check(&rt, "one more", refused);
    check_closed(&rt, board, chief, 0);
}

#[test]
fn tray_refuses_strangers_and_doubles(rt: HostRuntime) {
    let mut tray = Tray::open(rt.alloc(), 2).expect(&rt, "memory");
    check(&rt, "stranger", refuses_stranger(&mut tray, 2, 'c'));
    check(&rt, "first", tray.put(0, 'a').is_ok());
    check(&rt, "twice", refuses_twice(&mut tray, 0, 'b'));
    let Err((mut tray, missing)) = tray.finish() else {
        rt.panic("finished while a value was missing")
    };
    check(&rt, "missing", missing == 1);
    check(&rt, "second", tray.put(1, 'd').is_ok());
    let values = tray.finish().ok().expect(&rt, "no value is missing");
    check(&rt, "values", values.as_slice() == ['a', 'd'].as_slice());
}

// That there is a plan of `workers` workers and ranges of `cut` records, which tells them, or that there is none.
fn check_plan(rt: &impl Abort, workers: u32, cut: u32, expected: bool) {
    let good = match Plan::new(workers, cut) {
        Some(plan) => expected && plan.workers() == workers && plan.cut() == cut,
        None => !expected,
    };
    check(rt, "a plan", good);
}

#[test]
fn limits_of_plans(rt: HostRuntime) {
    check_plan(&rt, 0, 1, false);
    check_plan(&rt, 17, 1, false);
    check_plan(&rt, 1, 0, false);
    check_plan(&rt, 1, 1_048_577, false);
    check_plan(&rt, 1, 1, true);
    check_plan(&rt, 16, 1_048_576, true);
}
