// What a key is.
ghost use Rattle.std.specs.Prelude.{◌≡◌, ℕ, List, length};
ghost use Rattle.spread.specs.Keys.{Bounded, at_place};

// A list of at most 745 weights, each at most 10,000,000,000. A question alters nothing, and asked twice it has the same answer.
pub trait Key {
    // What the key means.
    ghost weights: { Self → List ℕ };

    // What each key shows of itself.
    ghost bounded: { (k : Self) → Bounded (weights k) };

    fn len(&self) -> usize
        ensures { result ≡ length (weights self.now) };

    // The weight at a place. Places run from 1, and elsewhere it is 0.
    fn weight(&self, place: usize) -> u64
        ensures { result ≡ at_place (weights self.now) place };
}
