// What is driven.
ghost use Rattle.std.specs.Prelude.{◌≡◌, ℕ, ◌+◌, ◌^◌, ◌<◌, [], ◌∷◌, vec_len, Contains};
ghost use Rattle.rdb_drive.specs.Boards.{IsSession};
ghost use Rattle.rdb_drive.specs.Steps.{StepOf, DeathOf};
ghost use Rattle.drive_cases.specs.Talk.{talk_board};

use rdb_drive::{Act, Driven, Gate, Point, Step};
use rdb_types::Session;
use std::alloc::Global;
use std::sync::atomic::{AtomicU64, Ordering};

/// Session 1 makes its steps, a piece of work and an answer in turn. Session 2 sleeps until they are made, and is then answered.
#[derive(Drop)]
pub struct Talk {
    pub said: Vec<u32>,
    pub first: u32,
    pub second: u32,
    pub stopped: bool,
    ghost countable: { vec_len said + first + second < 2 ^ 32 },
}

impl Talk {
    fn first_goes_on(&mut self) -> Step<u32>
        ensures { StepOf 2 1 (talk_board self.old.said.items self.old.first self.old.second self.old.stopped) (talk_board self.new.said.items self.new.first self.new.second self.new.stopped) result }
    {
        if self.first == 0 {
            return Step::Ended;
        }
        if self.first % 2 == 0 {
            self.first -= 1;
            return Step::Compute(self.first);
        }
        match self.said.push(1) {
            Ok(()) => {
                self.first -= 1;
                Step::Moved
            }
            Err(_) => {
                self.stopped = true;
                Step::Stopped
            }
        }
    }

    fn second_goes_on(&mut self) -> Step<u32>
        ensures { StepOf 2 2 (talk_board self.old.said.items self.old.first self.old.second self.old.stopped) (talk_board self.new.said.items self.new.first self.new.second self.new.stopped) result }
    {
        if self.second == 0 {
            return Step::Ended;
        }
        if self.first > 0 {
            return Step::Asleep;
        }
        match self.said.push(2) {
            Ok(()) => {
                self.second -= 1;
                Step::Moved
            }
            Err(_) => {
                self.stopped = true;
                Step::Stopped
            }
        }
    }
}

impl Driven for Talk {
    type Piece = u32;

    type Done = u32;

    type Bench = ();

    ghost board = { λ t. talk_board t.said.items t.first t.second t.stopped };

    ghost sessions = { 2 };

    ghost mortals = { 2 ∷ [] };

    fn is_asleep(&self, s: Session) -> bool {
        s.number != 1 && self.first > 0
    }

    fn point(&self, _s: Session) -> Point {
        Point::Other
    }

    fn next(&mut self, s: Session) -> Step<u32> {
        match s.number {
            1 => self.first_goes_on(),
            _ => self.second_goes_on(),
        }
    }

    fn bench() {}

    fn work(piece: u32, _bench: &mut ()) -> u32 {
        piece
    }

    fn give(&mut self, s: Session, _done: u32) -> Step<u32> {
        self.next(s)
    }

    fn die(&mut self, _s: Session) {
        self.second = 0;
    }

    fn recover_step(&mut self) -> Step<u32> {
        Step::Ended
    }

    fn answered(&self, s: Session) -> u64 {
        let mut count = 0;
        for number in &self.said {
            if *number == s.number {
                count += 1;
            }
        }
        count
    }
}

/// Has session 2 die at one of its steps, and counts its steps.
#[derive(Drop)]
pub struct DiesAt {
    pub step: u64,
    pub asked: AtomicU64,
}

impl Gate for DiesAt {
    ghost mortals = { λ g. 2 ∷ [] };

    fn pass(&self, s: Session, step: u64, _point: Point) -> Act {
        if s.number != 2 {
            return Act::Go;
        }
        self.asked.fetch_add(1, Ordering::SeqCst);
        if step == self.step { Act::Die } else { Act::Go }
    }
}

/// Four steps of session 1, and two answers of session 2.
pub fn make_talk(alloc: Global) -> Talk {
    Talk {
        said: Vec::new(alloc),
        first: 4,
        second: 2,
        stopped: false,
    }
}

pub fn dies_at(step: u64) -> DiesAt {
    DiesAt {
        step,
        asked: AtomicU64::new(0),
    }
}
