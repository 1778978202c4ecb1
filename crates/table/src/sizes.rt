// The size of a set (document 01, "Sizes").
ghost use Rattle.std.specs.Prelude.{◌≡◌, ℕ, ◌^◌, ◌<◌, ◌≤◌, min, true, length};
ghost use Rattle.relations.specs.Sets.{mem, larger};
ghost use Rattle.relations.specs.Pairs.{place};
ghost use Rattle.table.specs.Figures.{figures, count, divisor, across, joined};
ghost use Rattle.table.specs.Inner.{Complete, HELD};

use relations::{Set, pairs};

// The row counts, and a divisor for each pair of relations, of which none is 0. A view of lent memory, which nothing compares.
#[derive(Clone, Copy)]
pub struct Figures<'a> {
    pub counts: &'a [u32],
    pub divisors: &'a [u32],
    ghost complete: { Complete (figures counts.now divisors.now) },
}

impl Figures<'_> {
    // A relation's row count, and 0 for relation 0, which there is not.
    #[tactic(auto, using(crate::proofs::Products::count_at), unfolding(crate::specs::Figures::count))]
    pub fn count(self, k: u32) -> u32
        requires { k ≤ length self.counts.now }
        ensures { result ≡ count self.entry.counts.now k }
    {
        if k == 0 {
            return 0;
        }
        self.counts[(k - 1) as usize]
    }

    // The size of a set of two or more, v being the size of its rest. It is held before it is made 32 bits wide.
    pub fn joined(self, v: u32, set: Set) -> u32
        requires larger_set { larger set.number ≡ true }
        requires within { set.number < 2 ^ length self.counts.now }
        ensures { result ≡ joined (figures self.entry.counts.now self.entry.divisors.now) set.number v }
    {
        let r = set.lowest();
        let product = numbers::product(v, self.count(r));
        let divisor = self.across(r, set.rest());
        charges::up(product, divisor).min(u64::from(u32::MAX)) as u32
    }

    // The product of the divisors between r and the relations of `others`, which have higher numbers, held at 2^64-1.
    fn across(self, r: u32, others: Set) -> u64
        requires { (k : ℕ) → mem k others.number ≡ true → (r < k) × (place r k < length self.divisors.now) }
        ensures { (k : ℕ) → others.number < 2 ^ k → result ≡ min HELD (across self.entry.divisors.now r others.number k) }
    {
        let mut product: u64 = 1;
        for k in others.members() {
            product = product.saturating_mul(u64::from(self.divisor(r, k)));
        }
        product
    }

    // The divisor of the pair of relations i and j, i the lower.
    #[tactic(auto, using(relations::proofs::Places::place_of, crate::proofs::Products::divisor_at_lem))]
    fn divisor(self, i: u32, j: u32) -> u32
        requires { (i < j) × (place i j < length self.divisors.now) }
        ensures { result ≡ divisor self.entry.divisors.now i j }
    {
        self.divisors[pairs::place_below(i, j)]
    }
}
