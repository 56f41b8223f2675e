// What a run answers.
ghost use Rattle.std.specs.Prelude.{◌≡◌};
ghost use Rattle.dispatch.specs.Progresses.{progress_number, progress_row, progress_age};

use fault::Fault;

// What a tick was: withheld by the supply; granted, with nothing to run; a row's job ran; or it ran to its end, at this
// age.
#[derive(Clone, Copy, PartialEq, Eq, Debug)]
pub enum Progress {
    Withheld,
    Idle,
    Ran(u32),
    Ended(u32, u32),
}

impl Progress {
    // 1 to 4, in the order above; by cases, since variants that hold values have no numbers of their own.
    pub fn number(self) -> u32
        ensures { result ≡ progress_number self }
    {
        match self {
            Progress::Withheld => 1,
            Progress::Idle => 2,
            Progress::Ran(_) => 3,
            Progress::Ended(_, _) => 4,
        }
    }

    // The row that ran, or 0: the form of an answer has 0 where there is none, here and below.
    pub fn row(self) -> u32
        ensures { result ≡ progress_row self }
    {
        match self {
            Progress::Withheld | Progress::Idle => 0,
            Progress::Ran(row) | Progress::Ended(row, _) => row,
        }
    }

    // The age of the job that ended, or 0.
    pub fn age(self) -> u32
        ensures { result ≡ progress_age self }
    {
        match self {
            Progress::Withheld | Progress::Idle | Progress::Ran(_) => 0,
            Progress::Ended(_, age) => age,
        }
    }
}

// What a tick answers: what it was, how many jobs were struck off as missed, and the lowest of their rows, or 0 where
// there is none, as the form of the answer has it.
#[derive(Clone, Copy, PartialEq, Eq, Debug)]
pub struct Ticked {
    pub progress: Progress,
    pub missed: u32,
    pub lowest: u32,
}

// What a look answers: the clock, the granted ticks, and of these those in which a job ran and those that were idle.
#[derive(Clone, Copy, PartialEq, Eq, Debug)]
pub struct Looked {
    pub clock: u32,
    pub granted: u32,
    pub ran: u32,
    pub idle: u32,
}

// What a call answers: the age of the job that an end removes, what a tick or a look answers, the number of pending
// jobs, or a refusal.
#[derive(Clone, Copy, PartialEq, Eq, Debug)]
pub enum Reply {
    Released,
    Ended(u32),
    Ticked(Ticked),
    Looked(Looked),
    Pending(usize),
    Refused(Fault),
}

// A replay keeps a reply for each call.
const _: () = prove!(size_of::<Reply>() == 24);
