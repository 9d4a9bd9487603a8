// Surroundings.
use vocabulary::level::Level;
use vocabulary::mode::Mode;

// What the control keeps besides the rows.
#[derive(Clone, Copy, PartialEq, Eq, Debug)]
pub struct Surroundings {
    pub level: Level,
    pub mode: Mode,
    // Whose level it is, at level NTC; else 0. A status gives it as a number of its own and STM-5 bears
    // the level alone, so a level that held it would be taken apart wherever it is used.
    pub national: u8,
    // Whose level is announced, if one is.
    pub announced: Option<u8>,
    // Whether the train data is valid.
    pub train_data: bool,
}
