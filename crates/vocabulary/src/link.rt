// The link to an STM.

// Closed until connected; open until the greeting; checked once the versions agree; final after a
// final disconnection, and then never opened again before power-off.
#[derive(Clone, Copy, PartialEq, Eq, Debug)]
pub enum Link {
    Closed,
    Open,
    Checked,
    Final,
}
