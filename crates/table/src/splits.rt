// The cheapest split of a set (document 01, "Rows of the table").
ghost use Rattle.std.specs.Prelude.{◌≡◌, ℕ, ◌+◌, ◌^◌, ◌<◌, ◌≤◌, true, List, length, slice_index};
ghost use Rattle.charges.specs.Charges.{charge};
ghost use Rattle.relations.specs.Sets.{larger};
ghost use Rattle.table.specs.Figures.{Figures};
ghost use Rattle.table.specs.Tables.{columns, row_at};
ghost use Rattle.table.specs.Rule.{job_for, better, best_to, join_cost, price};
ghost use Rattle.table.specs.Inner.{under, split_charge, split_job};

use relations::Set;

// What a split costs, and its left part.
#[derive(Clone, Copy, Debug, PartialEq, Eq)]
pub struct Split {
    pub cost: u64,
    pub left: u32,
}

impl Split {
    // No usable split, as its row holds it (document 01, "Rows of the table"). An `Option` would only be taken apart into these two numbers.
    const NONE: Split = Split {
        cost: u64::MAX,
        left: 0,
    };
}

// The cheapest usable split of `set`, whose size is `size`, by what the columns hold; figures and left parts do not matter. What every
// split pays at least is set aside (document 002, section 3.2), and where that alone is over the limit nothing is searched: a `Search` is made
// only where there is room.
pub fn best_split(
    sizes: &[u32],
    costs: &[u64],
    model: u32,
    limit: u64,
    size: u32,
    set: Set,
) -> Split
    requires larger_set { larger set.number ≡ true }
    requires columns_long { (set.number < length sizes.now) × (set.number < length costs.now) }
    requires limit_low { limit ≤ 2 ^ 60 }
    ensures { (fig : Figures) (lefts : List ℕ)
        → result ≡ best_to (price (job_for model limit) fig (columns sizes.now costs.now lefts) set.number size) set.number }
{
    let paid = charged(model, 0, 0, size);
    if limit < paid {
        return Split::NONE;
    }
    let room = limit - paid;
    let search = Search {
        sizes,
        costs,
        room,
        size,
        set,
    };
    let found = search.run(model);
    if room < found.cost {
        return Split::NONE;
    }
    Split {
        cost: found.cost + paid,
        left: found.left,
    }
}

// The search for the cheapest split of `set`, whose size is `size`, within the room that the limit leaves. Both columns have a row for each
// part of the set. A view, as `Figures` is.
#[derive(Clone, Copy)]
struct Search<'a> {
    sizes: &'a [u32],
    costs: &'a [u64],
    room: u64,
    size: u32,
    set: Set,
    ghost larger_set: { larger set.number ≡ true },
    ghost sizes_long: { set.number < length sizes.now },
    ghost costs_long: { set.number < length costs.now },
    ghost room_low: { room ≤ 2 ^ 60 },
}

impl Search<'_> {
    // The cheapest split by the parts' costs and the charge that a split pays of its own, of those that cost less than one above the room:
    // so the room is no test of its own. Each left part is the step from the one before it, two a turn, which is faster. From where the
    // right part has the lesser number there are only mirrors of splits that were tried: they cost the same, and the first of equals wins.
    fn run(self, model: u32) -> Split
        ensures { (fig : Figures) (lefts : List ℕ)
            → result ≡ under (self.entry.room + 1)
            (best_to (price (split_job model self.entry.room) fig
            (columns self.entry.sizes.now self.entry.costs.now lefts) self.entry.set.number self.entry.size) self.entry.set.number) }
    {
        let mut best = Split {
            cost: self.room + 1,
            left: 0,
        };
        let mut left = Set::EMPTY;
        loop {
            left = self.set.next_left(left);
            let right = self.set.number - left.number;
            best = self.try_split(model, best, left.number, right);
            left = self.set.next_left(left);
            let other = self.set.number - left.number;
            if other < left.number {
                break;
            }
            best = self.try_split(model, best, left.number, other);
        }
        best
    }

    // The best split so far, or the split into the sets `left` and `right` where that is cheaper. As in document 002, section 4.2, the
    // charge is worked out only where the parts alone cost less. A sum of two damaged costs that wraps is no split.
    fn try_split(self, model: u32, best: Split, left: u32, right: u32) -> Split
        requires left_within { left ≤ self.set.number }
        requires right_within { right ≤ self.set.number }
        requires best_low { best.cost ≤ self.room + 1 }
        ensures { (fig : Figures) (lefts : List ℕ) (room : ℕ)
            → result ≡ better (λ _. join_cost (split_job model room) fig
            (row_at (columns self.entry.sizes.now self.entry.costs.now lefts) left)
            (row_at (columns self.entry.sizes.now self.entry.costs.now lefts) right) self.entry.size) best left }
    {
        let a = self.cost_of(left);
        let parts = a.wrapping_add(self.cost_of(right));
        if parts < a {
            return best;
        }
        if parts < best.cost {
            let cost = parts
                + split_charge(model, self.size_of(left), self.size_of(right), self.size);
            if cost < best.cost {
                return Split { cost, left };
            }
        }
        best
    }

    // What the columns hold of a part of the set, which each call has its own. They are of two types, and a clause on any type could not say what number is read.
    fn cost_of(self, part: u32) -> u64
        requires { part ≤ self.set.number }
        ensures { result ≡ slice_index self.entry.costs.now part }
    {
        self.costs[part as usize]
    }

    fn size_of(self, part: u32) -> u32
        requires { part ≤ self.set.number }
        ensures { result ≡ slice_index self.entry.sizes.now part }
    {
        self.sizes[part as usize]
    }
}

// What a split pays beyond what every split into size o pays at least, which is the charge of empty parts.
fn split_charge(model: u32, a: u32, b: u32, o: u32) -> u64
    ensures value { result ≡ split_charge model a b o }
    ensures low { result < 2 ^ 51 }
{
    charged(model, a, b, o) - charged(model, 0, 0, o)
}

// The charge, and none by an unknown model, which is refused before anything is searched.
fn charged(model: u32, a: u32, b: u32, o: u32) -> u64
    ensures { result ≡ charge model a b o }
{
    charges::charge(model, a, b, o).unwrap_or(0)
}
