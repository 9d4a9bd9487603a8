// The standard book: the conditions of SUBSET-035 that a view shows.
ghost use Rattle.std.specs.Prelude.{◌≡◌};
ghost use Rattle.book.specs.Orders.{free, kept, usual_limit};
ghost use Rattle.std.specs.Bool.{then_some};
ghost use Rattle.book.specs.declared.condition.Condition.TheVariants.{LevelAnnounced, LevelInForce, StandbyNotNeeded, Tripped};
ghost use Rattle.book.specs.Conditions.{ExactlyWhen};
ghost use Rattle.book.specs.Standard.{national, trip, in_force, announced_alone, not_needed, called_order, rule_in_po, rule_in_co, rule_in_de, rule_in_cs, rule_in_hs, rule_in_da, rule_at_level, first_rule, reason_for, standard_answer};
ghost use Rattle.book.specs.Lawful.{standard_lawful};

use crate::Book;
use crate::condition::Condition;
use crate::usual::{is_free, usual_limit};
use crate::view::{LevelSeen, View, Want};
use vocabulary::mode::Mode;
use vocabulary::order::Order;
use vocabulary::state::State;

// The book that the standard campaigns use.
#[derive(Clone, Copy, Debug)]
pub struct Standard;

// Whether a national system may be in charge in this mode.
fn is_national(mode: Mode) -> bool
    ensures { result ≡ national mode }
{
    matches!(
        mode,
        Mode::NationalSystem | Mode::Sleeping | Mode::NonLeading
    )
}

// Whether CS or HS is to be left for DA: at this STM's level, in a national mode, with no other at DA.
pub(crate) fn is_in_force(view: View) -> bool
    ensures { result ≡ in_force view }
{
    view.level == LevelSeen::Own && is_national(view.mode) && !view.other_at_da
}

// The rule from CS or HS to DA.
fn level_in_force(view: View) -> Option<Condition>
    ensures { result ≡ then_some (in_force view) LevelInForce }
{
    is_in_force(view).then_some(Condition::LevelInForce)
}

// The rule from CS to HS: announced, with no other at HS.
fn level_announced(view: View) -> Option<Condition>
    ensures { result ≡ then_some (announced_alone view) LevelAnnounced }
{
    (view.announced && !view.other_at_hs).then_some(Condition::LevelAnnounced)
}

// The rule from HS to CS: neither announced nor at this STM's level.
fn standby_not_needed(view: View) -> Option<Condition>
    ensures { result ≡ then_some (not_needed view) StandbyNotNeeded }
{
    (!view.announced && view.level != LevelSeen::Own).then_some(Condition::StandbyNotNeeded)
}

// The rule from DA to CS in mode TR.
fn tripped(view: View) -> Option<Condition>
    ensures { result ≡ then_some (trip view.mode) Tripped }
{
    (view.mode == Mode::Trip).then_some(Condition::Tripped)
}

// The rules from DA to CS by the level.
fn level_left(view: View) -> Option<Condition>
    ensures { result ≡ rule_at_level view.level }
{
    match view.level {
        LevelSeen::NotNtc => Some(Condition::LevelLeftForEtcs),
        LevelSeen::Own => None,
        LevelSeen::Anothers => Some(Condition::LevelLeftForAnother),
    }
}

// The rule in PO: what the STM asked for.
fn rule_in_po(view: View) -> Option<Condition>
    ensures { result ≡ rule_in_po view.want }
{
    (view.want == Some(Want::Configuration)).then_some(Condition::ConfigurationRequested)
}

// The rules in CO: what the STM asked for, to DE only with valid train data.
fn rule_in_co(view: View) -> Option<Condition>
    ensures { result ≡ rule_in_co view.want view.train_data }
{
    match view.want {
        Some(Want::ColdStandby) => Some(Condition::ColdStandbyRequested),
        Some(Want::DataEntry) if view.train_data => Some(Condition::DataEntryRequested),
        _ => None,
    }
}

// The rule in DE: what the STM asked for.
fn rule_in_de(view: View) -> Option<Condition>
    ensures { result ≡ rule_in_de view.want }
{
    (view.want == Some(Want::ColdStandby)).then_some(Condition::ColdStandbyRequested)
}

// The rules in CS.
fn rule_in_cs(view: View) -> Option<Condition>
    ensures { result ≡ rule_in_cs view }
{
    level_in_force(view).or(level_announced(view))
}

// The rules in HS.
fn rule_in_hs(view: View) -> Option<Condition>
    ensures { result ≡ rule_in_hs view }
{
    level_in_force(view).or(standby_not_needed(view))
}

// The rules in DA.
fn rule_in_da(view: View) -> Option<Condition>
    ensures { result ≡ rule_in_da view }
{
    tripped(view).or(level_left(view))
}

// The first rule that fits.
fn first_rule(view: View) -> Option<Condition>
    ensures { result ≡ first_rule view }
{
    match view.held {
        State::PowerOn => rule_in_po(view),
        State::Configuration => rule_in_co(view),
        State::DataEntry => rule_in_de(view),
        State::ColdStandby => rule_in_cs(view),
        State::HotStandby => rule_in_hs(view),
        State::DataAvailable => rule_in_da(view),
        State::NoPower | State::Failure => None,
    }
}

// The first rule that fits, unless the order that is open forbids its order.
#[tactic(auto, unfolding(crate::specs::Standard::reason_for))]
fn permitted(view: View) -> Option<Condition>
    ensures { result ≡ reason_for view }
{
    first_rule(view).filter(|condition| is_free(view.open, condition.order()))
}

impl Standard {
    // The condition that calls for an order in this view, unless an open order forbids it.
    pub fn reason(&self, view: View) -> Option<Condition>
        ensures value { result ≡ reason_for view }
        ensures exactly { ExactlyWhen view (standard_answer view) result }
    {
        permitted(view)
    }
}

impl Book for Standard {
    ghost answer = { λ _ v. standard_answer v };

    ghost limit = { λ _ o. usual_limit o };

    ghost lawful = { standard_lawful };

    fn consult(&self, view: View) -> Option<Order>
        ensures value { result ≡ standard_answer view }
        ensures exactly { ExactlyWhen view result (reason_for view) }
    {
        self.reason(view).map(Condition::order)
    }

    fn limit(&self, order: Order) -> u8 {
        usual_limit(order)
    }
}
