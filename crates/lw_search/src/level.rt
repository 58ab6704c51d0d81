use lw_counter::Fragment;
use lw_proof::Proof;
use lw_sat::{Board, Frame};

/// The saturation of one label of the path: of the goal, or of the seed of a step.
#[derive(Drop)]
pub struct Level {
    pub(crate) frames: Vec<Frame>,
    pub(crate) board: Board,
    // the world whose step leads to the level's world
    pub(crate) parent: Option<usize>,
    // the label's number in the fragment, and the item that is served, once the label is unclosed
    pub(crate) world: usize,
    pub(crate) item: usize,
}

/// How far a search has come: the levels that wait for what comes of a step, the last level, and the worlds so far.
#[derive(Drop)]
pub struct Search {
    pub(crate) below: Vec<Level>,
    pub(crate) level: Level,
    pub(crate) fragment: Fragment,
}

/// What a turn comes to.
#[derive(Drop)]
pub enum Turn {
    /// There is a label under work.
    Moved,
    /// The fragment is open.
    Done,
    /// The first seed is closed.
    Closed(Proof),
}

/// What comes of serving items.
#[derive(Drop)]
pub enum Served {
    /// A step was taken, and its seed is under work.
    ByStep,
    /// They are all served.
    Done,
}
