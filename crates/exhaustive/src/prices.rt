// What a join is charged (document 01, "Costs").

// The models, by document 01's numbers.
#[derive(Clone, Copy, Debug, PartialEq, Eq)]
pub enum Model {
    Naive = 0,
    SortMerge = 1,
    DiskLoops = 2,
}

pub const MODELS: [Model; 3] = [Model::Naive, Model::SortMerge, Model::DiskLoops];

impl From<Model> for u32 {
    fn from(model: Model) -> u32 {
        model as u32
    }
}

impl Model {
    // The charge of joining sizes a and b into size o.
    pub fn charge(self, a: u32, b: u32, o: u32) -> u64 {
        match self {
            Model::Naive => u64::from(o),
            Model::SortMerge => sorting(a).saturating_add(sorting(b)),
            Model::DiskLoops => disk_loops(a, b, o),
        }
    }
}

// w(x) of model 1: x, and x again each time that x can be halved before it is 1. Halved one by one, not by `ilog2`: the planner takes
// the logarithm, and this is to be another way.
fn sorting(x: u32) -> u64 {
    let mut work = u64::from(x);
    let mut rest = x;
    while 1 < rest {
        work = work.saturating_add(u64::from(x));
        rest /= 2;
    }
    work
}

// Model 2: blocks written and read again, pairs of blocks, and blocks of the smaller.
fn disk_loops(a: u32, b: u32, o: u32) -> u64 {
    let written = o.div_ceil(10);
    let paired = (u64::from(a) * u64::from(b)).div_ceil(9900);
    let read = a.min(b).div_ceil(10);
    u64::from(written) * 2 + paired.saturating_add(u64::from(read))
}
