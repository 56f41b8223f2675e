// How often a row asks for its cost.
ghost use Rattle.std.specs.Prelude.{◌≡◌, ℕ, ◌+◌, ◌*◌, ◌≤◌};
ghost use Rattle.table.specs.declared.row.Row.{Row};
ghost use Rattle.table.specs.Rows.{releases_in, deadlines_by};
ghost use Rattle.table.proofs.Counts.{released_mono, released_size, due_mono, due_size};

use table::Row;

pub(crate) trait Count {
    // How many of a row's jobs count within t ticks.
    ghost jobs: { ℕ → Row → ℕ };

    fn jobs(&self, row: &Row, t: u32) -> u32
        requires { t ≤ 1000000 }
        ensures { result ≡ jobs t row.now };

    // In a longer time no fewer.
    ghost rises: { (a b : ℕ) → a ≤ b → (r : Row) → jobs a r * r.cost ≤ jobs b r * r.cost };

    // A row asks for little more than the time itself.
    ghost size: { (t : ℕ) (r : Row) → jobs t r * r.cost ≤ t + r.period };
}

// The jobs that can be released within t ticks: ⌈t / T⌉.
#[derive(Drop)]
pub(crate) struct Releases;

impl Count for Releases {
    ghost jobs = { releases_in };

    ghost rises = { released_mono };

    ghost size = { released_size };

    #[tactic(auto, unfolding(table::specs::Rows::releases_in, arith::specs::Quotients::ceiling))]
    fn jobs(&self, row: &Row, t: u32) -> u32 {
        (t + (row.period - 1)) / row.period
    }
}

// The jobs that can be released and due within t ticks: ⌊(t + T − D) / T⌋.
#[derive(Drop)]
pub(crate) struct Deadlines;

impl Count for Deadlines {
    ghost jobs = { deadlines_by };

    ghost rises = { due_mono };

    ghost size = { due_size };

    #[tactic(auto, unfolding(table::specs::Rows::deadlines_by))]
    fn jobs(&self, row: &Row, t: u32) -> u32 {
        (t + row.period - row.deadline) / row.period
    }
}
