// Prints what the books answer, for people: a line for each group of views that makes a difference,
// and a count over every view there is.
#![tactic(auto)]

use book::Book;
use book::bare::Bare;
use book::standard::Standard;
use book::view::{LevelSeen, View, Want};
use book::withholding::Withholding;
use std::{fmt, io, iter};
use vocabulary::mode::Mode;
use vocabulary::order::Order;
use vocabulary::state::State;

const STATES: [State; 8] = [
    State::NoPower,
    State::PowerOn,
    State::Configuration,
    State::DataEntry,
    State::ColdStandby,
    State::HotStandby,
    State::DataAvailable,
    State::Failure,
];

const WANTS: [Option<Want>; 4] = [
    None,
    Some(Want::Configuration),
    Some(Want::DataEntry),
    Some(Want::ColdStandby),
];

const ORDERS: [Order; 6] = [
    Order::ToConfiguration,
    Order::ToDataEntry,
    Order::ToColdStandby,
    Order::ToColdStandbyConditionally,
    Order::ToHotStandby,
    Order::ToDataAvailable,
];

const LEVELS: [LevelSeen; 3] = [LevelSeen::Own, LevelSeen::Anothers, LevelSeen::NotNtc];

const MODES: [Mode; 16] = [
    Mode::NationalSystem,
    Mode::Sleeping,
    Mode::NonLeading,
    Mode::Trip,
    Mode::FullSupervision,
    Mode::OnSight,
    Mode::StaffResponsible,
    Mode::Shunting,
    Mode::Unfitted,
    Mode::StandBy,
    Mode::PostTrip,
    Mode::SystemFailure,
    Mode::Isolation,
    Mode::LimitedSupervision,
    Mode::Reversing,
    Mode::PassiveShunting,
];

const FACTS: [bool; 2] = [false, true];

// One mode for all that make no difference.
fn mode_for(mode: Mode) -> Mode {
    match mode {
        Mode::NationalSystem | Mode::Sleeping | Mode::NonLeading => Mode::NationalSystem,
        Mode::Trip => Mode::Trip,
        _ => Mode::FullSupervision,
    }
}

// A held state and an open order, and all else at rest.
fn resting(held: State, open: Option<Order>) -> View {
    View {
        held,
        want: None,
        open,
        train_data: false,
        level: LevelSeen::Own,
        mode: Mode::FullSupervision,
        announced: false,
        other_at_hs: false,
        other_at_da: false,
    }
}

// The view that stands for this one: what makes no difference in the held state is as at rest.
fn stand_in(view: View) -> View {
    let at_rest = resting(view.held, view.open);
    match view.held {
        State::NoPower | State::Failure => at_rest,
        State::PowerOn | State::DataEntry => View {
            want: view.want,
            ..at_rest
        },
        State::Configuration => View {
            want: view.want,
            train_data: view.train_data,
            ..at_rest
        },
        State::ColdStandby => View {
            level: view.level,
            mode: mode_for(view.mode),
            announced: view.announced,
            other_at_hs: view.other_at_hs,
            other_at_da: view.other_at_da,
            ..at_rest
        },
        State::HotStandby => View {
            level: view.level,
            mode: mode_for(view.mode),
            announced: view.announced,
            other_at_da: view.other_at_da,
            ..at_rest
        },
        State::DataAvailable => View {
            level: view.level,
            mode: mode_for(view.mode),
            ..at_rest
        },
    }
}

// Whether every book answers two views alike, and whether some book answers the first with an order.
// Each book takes a view of its own. Not inlined, that is a plain copy; else it is put together anew.
#[inline(never)]
fn compare(books: &[&dyn Book], one: &View, other: &View) -> (bool, bool) {
    let mut alike = true;
    let mut answered = false;
    for book in books {
        let answer = book.consult(*one);
        alike &= answer == book.consult(*other);
        answered |= answer.is_some();
    }
    (alike, answered)
}

// The words of the columns: the table's own, not names of the types.
fn level_name(level: LevelSeen) -> &'static str {
    match level {
        LevelSeen::NotNtc => "ETCS",
        LevelSeen::Own => "own",
        LevelSeen::Anothers => "another",
    }
}

fn mode_name(mode: Mode) -> &'static str {
    match mode {
        Mode::NationalSystem => "SN SL NL",
        Mode::Trip => "TR",
        _ => "other",
    }
}

fn mark(fact: bool) -> &'static str {
    if fact { "x" } else { "." }
}

// A value, or a text in its place where there is none.
#[derive(Drop)]
struct Or<T>(Option<T>, &'static str);

impl<T: fmt::Display> fmt::Display for Or<T> {
    fn fmt<W: fmt::Write>(&self, f: &mut fmt::Formatter<W>) -> fmt::Result {
        match &self.0 {
            Some(value) => value.fmt(f),
            None => f.pad(self.1),
        }
    }
}

// A fact, or a blank where it makes no difference.
fn shown<T: Drop>(matters: bool, fact: T) -> Or<T> {
    Or(matters.then_some(fact), "")
}

// The facts of a view that make a difference in its held state.
fn print_facts(rt: &HostRuntime, view: View) -> io::Result<()> {
    let held = view.held;
    let in_co = held == State::Configuration;
    let before_standby = matches!(
        held,
        State::PowerOn | State::Configuration | State::DataEntry
    );
    let in_cs = held == State::ColdStandby;
    let in_standby = matches!(held, State::ColdStandby | State::HotStandby);
    let want = shown(before_standby, Or(view.want, "-"));
    let data = shown(in_co, mark(view.train_data));
    let level = shown(!before_standby, level_name(view.level));
    let mode = shown(!before_standby, mode_name(view.mode));
    let announced = shown(in_standby, mark(view.announced));
    let hs = shown(in_cs, mark(view.other_at_hs));
    let da = shown(in_standby, mark(view.other_at_da));
    print!(rt; "{held:<4} {want:<4} {data:<4} {level:<7} {mode:<8} {announced:<4} {hs:<2} {da:<2} ")
}

// A book's answer where no order is open, then the open orders over which it is answered too.
fn print_answer(rt: &HostRuntime, book: &dyn Book, view: View) -> io::Result<()> {
    let Some(order) = book.consult(view) else {
        return print!(rt; "| -        ");
    };
    print!(rt; "| {} ", u8::from(order))?;
    for before in ORDERS {
        let over = View {
            open: Some(before),
            ..view
        };
        match book.consult(over) {
            Some(_) => print!(rt; "{}", u8::from(before))?,
            None => print!(rt; ".")?,
        }
    }
    print!(rt; " ")
}

// The line of a view.
fn print_line(rt: &HostRuntime, books: &[&dyn Book], view: View) -> io::Result<()> {
    print_facts(rt, view)?;
    for book in books {
        print_answer(rt, *book, view)?;
    }
    match Standard.reason(view) {
        Some(condition) => println!(rt; "| {condition}"),
        None => println!(rt; "|"),
    }
}

// How many views there are, how many of them are answered, how many otherwise than their stand-ins,
// and how many lines were printed. The books are passed to each method: no field may hold a `dyn`
// behind a reference yet.
#[derive(Default, Drop)]
struct Counts {
    views: u32,
    answered: u32,
    unlike: u32,
    lines: u32,
}

impl Counts {
    // Counts a view. Whether it has a line: it stands for itself, has no open order and is answered.
    fn count(&mut self, books: &[&dyn Book], view: View) -> bool {
        let other = stand_in(view);
        let (alike, answered) = compare(books, &view, &other);
        let has_line = answered && view == other && view.open.is_none();
        self.views = self.views.saturating_add(1);
        self.unlike = self.unlike.saturating_add((!alike).into());
        self.answered = self.answered.saturating_add(answered.into());
        self.lines = self.lines.saturating_add(has_line.into());
        has_line
    }

    // Goes through the levels, the modes and what is known of the other STMs, with this view's other parts.
    fn see_levels(&mut self, rt: &HostRuntime, books: &[&dyn Book], view: View) -> io::Result<()> {
        for level in LEVELS {
            for mode in MODES {
                for announced in FACTS {
                    for other_at_hs in FACTS {
                        for other_at_da in FACTS {
                            let view = View {
                                level,
                                mode,
                                announced,
                                other_at_hs,
                                other_at_da,
                                ..view
                            };
                            if self.count(books, view) {
                                print_line(rt, books, view)?;
                            }
                        }
                    }
                }
            }
        }
        Ok(())
    }

    // Goes through every view in this held state.
    fn see_state(&mut self, rt: &HostRuntime, books: &[&dyn Book], held: State) -> io::Result<()> {
        for want in WANTS {
            for open in iter::once(None).chain(ORDERS.into_iter().map(Some)) {
                for train_data in FACTS {
                    let view = View {
                        want,
                        train_data,
                        ..resting(held, open)
                    };
                    self.see_levels(rt, books, view)?;
                }
            }
        }
        Ok(())
    }
}

// Goes through every view, and says what was counted.
fn print_table(rt: &HostRuntime, books: &[&dyn Book]) -> io::Result<()> {
    let mut counts = Counts::default();
    for held in STATES {
        counts.see_state(rt, books, held)?;
    }
    let Counts {
        views,
        answered,
        unlike,
        lines,
    } = counts;
    println!(rt)?;
    println!(rt; "{views} views, {answered} of them answered by some book, {lines} lines.")?;
    println!(rt; "{unlike} views are answered otherwise than the view that stands for them.")
}

// The limits of a book, in ticks.
fn print_limits(rt: &HostRuntime, name: &str, book: &dyn Book) -> io::Result<()> {
    print!(rt; "{name:<13}")?;
    for order in ORDERS {
        print!(rt; "{:>5}", book.limit(order))?;
    }
    println!(rt)
}

// What the columns are.
fn print_header(rt: &HostRuntime) -> io::Result<()> {
    println!(rt;
        "What the books answer. x: the train data is valid, the STM is announced, another is at HS or at DA."
    )?;
    println!(rt;
        "An answer is an order's number, then the open orders over which it is answered too."
    )?;
    println!(rt;
        "A blank makes no difference in the held state. In all other views there is no answer."
    )?;
    println!(rt)?;
    println!(rt;
        "held want data level   mode     ann. HS DA | standard | bare     | less 6   | less 6 5 | why the standard book orders"
    )
}

// What stands above the limits.
fn print_limits_header(rt: &HostRuntime) -> io::Result<()> {
    println!(rt)?;
    println!(rt; "limits of        2    3    4    5    6    7")
}

// Which numbers are no order that can be withheld, in the words of this table.
fn print_refusals(rt: &HostRuntime) -> io::Result<()> {
    println!(rt)?;
    for number in 0..10u8 {
        match Withholding::new(Standard, number) {
            Ok(_) => println!(rt; "withholding {number}: granted")?,
            Err(refused) => {
                let fault = refused.fault;
                println!(rt;
                    "withholding {number}: refused by {}, place {}, layer {}",
                    fault.number(),
                    fault.place,
                    fault.layer
                )?
            }
        }
    }
    Ok(())
}

fn main(rt: HostRuntime) -> io::Result<()> {
    let Ok(without_hs) = Withholding::new(Standard, 6) else {
        return println!(rt; "6 is no order");
    };
    let Ok(inner) = Withholding::new(Standard, 6) else {
        return println!(rt; "6 is no order");
    };
    let Ok(without_two) = Withholding::new(inner, 5) else {
        return println!(rt; "5 is no order");
    };
    let books: [&dyn Book; 4] = [&Standard, &Bare, &without_hs, &without_two];
    print_header(&rt)?;
    print_table(&rt, &books)?;
    print_limits_header(&rt)?;
    print_limits(&rt, "standard", &Standard)?;
    print_limits(&rt, "bare", &Bare)?;
    print_limits(&rt, "less 6 5", &without_two)?;
    print_refusals(&rt)
}
