// How many ticks were granted, and of these how many ran a job and how many were idle.
ghost use Rattle.std.specs.Prelude.{◌≡◌, ◌+◌};

pub(crate) mod count;

#[derive(Clone, Copy)]
pub(crate) struct Counters {
    pub granted: u32,
    pub ran: u32,
    pub idle: u32,
    ghost sum: { granted ≡ ran + idle },
}
