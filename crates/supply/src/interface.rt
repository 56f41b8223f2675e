// What every supply promises, and all that is known of one above this crate.
ghost use Rattle.std.specs.Prelude.{◌≡◌, ℕ, ◌+◌, ◌≤◌, Bool};
ghost use Rattle.supply.specs.declared.grant.Grant.{Grant};
ghost use Rattle.supply.specs.Grants.{spent};
ghost use Rattle.supply.specs.Questions.{Answers};

use crate::grant::Grant;

pub trait Supply {
    // B: the grants promised in any t ticks in a row.
    ghost bound: { Self → ℕ → ℕ };

    // F: the grants promised for the next t ticks from the present state.
    ghost floor: { Self → ℕ → ℕ };

    // The answer and the new state that a tick gives, for a state and an offer.
    ghost step: { Self → Bool → (Grant × Self) };

    // The bound of t ticks, for t up to a million; absent for a larger t.
    fn bound(&self, t: u32) -> Option<u32>
        ensures { Answers result t (bound self.now t) };

    // Passes one tick, with the host's offer.
    fn tick(&mut self, offer: bool) -> Grant
        ensures answer { result ≡ (step self.old offer).0 }
        ensures state { self.new ≡ (step self.old offer).1 };

    // In no ticks nothing is promised.
    ghost empty: { (s : Self) → floor s 0 ≡ 0 };

    // What is promised for any t ticks is promised for the next t.
    ghost covered: { (s : Self) (t : ℕ) → bound s t ≤ floor s t };

    // Two stretches of time, one after the other, are promised at least what each is promised.
    ghost superadditive: { (s : Self) (a b : ℕ) → bound s a + bound s b ≤ bound s (a + b) };

    // A tick leaves the bound as it is.
    ghost lasting: { (s : Self) (o : Bool) (t : ℕ) → bound (step s o).1 t ≡ bound s t };

    // A tick takes from the floor no more than it grants.
    ghost spending: { (s : Self) (o : Bool) (t : ℕ) → floor s (t + 1) ≤ floor (step s o).1 t + spent (step s o).0 };
}
