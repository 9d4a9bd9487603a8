// The conditions that call for an order.
ghost use Rattle.std.specs.Prelude.{◌≡◌, Some};
ghost use Rattle.std.specs.Fmt.{padded};
ghost use Rattle.book.specs.Standard.{called_order, condition_name};

use std::fmt;
use vocabulary::order::Order;

// Why the standard book orders. STM X is the STM of the view, level NTC X the one that it serves.
#[derive(Clone, Copy, PartialEq, Eq, Debug)]
pub enum Condition {
    // A2: "Request CO state" was received from STM X, in PO.
    ConfigurationRequested,
    // A3: "Request DE state" was received from STM X, in CO, and the train data is validated.
    DataEntryRequested,
    // A4a: "Request CS state" was received from STM X, in CO or DE.
    ColdStandbyRequested,
    // A6: a transition to level NTC X is stored, STM X is in CS, and no other STM is at HS. A9 goes
    // before it.
    LevelAnnounced,
    // A9: the level is NTC X, STM X is in CS or HS, no other STM is at DA, and the mode is SN, SL or
    // NL.
    LevelInForce,
    // STM X is in HS, no transition to level NTC X is stored, and the level is not NTC X. This is G4a
    // without its part on override, which no view shows.
    StandbyNotNeeded,
    // L4a: STM X is in DA, and the mode has changed to TR.
    Tripped,
    // STM X is in DA, and level NTC X was left for a level that is not NTC. SUBSET-035 has B4a where
    // the trackside ordered it and K4a where the driver did. L4a goes before it.
    LevelLeftForEtcs,
    // STM X is in DA, and level NTC X was left for another STM's level NTC Y. SUBSET-035 has A4b
    // where the trackside ordered it and B4b where the driver did. L4a goes before it.
    LevelLeftForAnother,
}

impl Condition {
    // The order that this condition calls for.
    pub fn order(self) -> Order
        ensures { result ≡ called_order self }
    {
        match self {
            Condition::ConfigurationRequested => Order::ToConfiguration,
            Condition::DataEntryRequested => Order::ToDataEntry,
            Condition::ColdStandbyRequested => Order::ToColdStandby,
            Condition::LevelAnnounced => Order::ToHotStandby,
            Condition::LevelInForce => Order::ToDataAvailable,
            Condition::StandbyNotNeeded => Order::ToColdStandby,
            Condition::Tripped => Order::ToColdStandby,
            Condition::LevelLeftForEtcs => Order::ToColdStandby,
            Condition::LevelLeftForAnother => Order::ToColdStandbyConditionally,
        }
    }

    // The condition's name, for people: the text itself, which printing does not hand out.
    pub fn name(self) -> &'static str
        ensures { result.now ≡ condition_name self }
    {
        match self {
            Condition::ConfigurationRequested => "A2 CO requested",
            Condition::DataEntryRequested => "A3 DE requested",
            Condition::ColdStandbyRequested => "A4a CS requested",
            Condition::LevelAnnounced => "A6 announced",
            Condition::LevelInForce => "A9 in force",
            Condition::StandbyNotNeeded => "standby not needed",
            Condition::Tripped => "L4a tripped",
            Condition::LevelLeftForEtcs => "level left for ETCS",
            Condition::LevelLeftForAnother => "level left for another",
        }
    }
}

// A condition prints its name.
impl fmt::Display for Condition {
    ghost output = { λ condition. Some (condition_name condition) };

    ghost styled_output = { λ condition spec. Some (padded spec (condition_name condition)) };

    fn fmt<W: fmt::Write>(&self, f: &mut fmt::Formatter<W>) -> fmt::Result {
        f.pad(self.name())
    }
}
