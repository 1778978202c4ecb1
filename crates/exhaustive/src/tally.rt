// What was covered, and what disagreed.
use std::fmt;

#[derive(Clone, Copy, Debug, Default, PartialEq, Eq)]
pub struct Tally {
    pub figures: u64,
    pub trees: u64,
    pub fills: u64,
    pub fresh: u64,
    pub damaged: u64,
    pub prints: u64,
    pub disagreements: u64,
}

// What is held against the search or the rule by hand: a fill, an edit of a fresh table, an edit of a damaged one, a print.
#[derive(Clone, Copy, Debug, PartialEq, Eq)]
pub enum Call {
    Fill,
    FreshEdit,
    DamagedEdit,
    Print,
}

impl Tally {
    // Figures, whose checks follow.
    pub fn add_figures(&mut self) {
        self.figures = self.figures.saturating_add(1);
    }

    // So many trees searched.
    pub fn add_trees(&mut self, trees: u64) {
        self.trees = self.trees.saturating_add(trees);
    }

    // A call, and whether it agrees.
    pub fn add_call(&mut self, call: Call, agrees: bool) {
        let count = match call {
            Call::Fill => &mut self.fills,
            Call::FreshEdit => &mut self.fresh,
            Call::DamagedEdit => &mut self.damaged,
            Call::Print => &mut self.prints,
        };
        *count = count.saturating_add(1);
        if !agrees {
            self.disagreements = self.disagreements.saturating_add(1);
        }
    }
}

// All but what disagreed, which is told of all lines together.
impl fmt::Display for Tally {
    fn fmt<W: fmt::Write>(&self, f: &mut fmt::Formatter<W>) -> fmt::Result {
        let Tally {
            figures,
            trees,
            fills,
            fresh,
            damaged,
            prints,
            ..
        } = *self;
        write!(
            f,
            "figures {figures}, trees {trees}, fills {fills}, edits of fresh tables {fresh}, edits of damaged tables {damaged}, prints {prints}"
        )
    }
}
