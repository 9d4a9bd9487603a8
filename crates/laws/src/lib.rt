// The laws of whole runs of a control.
#![tactic(auto)]

ghost use Rattle.std.specs.Prelude.{◌≡◌, length};
ghost use Rattle.vocabulary.specs.Settings.{agreed};
ghost use Rattle.steps.specs.Setups.{setup};
ghost use Rattle.laws.specs.Lawful.{EveryRunLawful};

use book::Book;
use vocabulary::settings::Settings;

// Every run of a new control over these settings and this book is lawful. The answer is how many units
// the laws speak of.
pub fn laws_stand<B: Book>(settings: &Settings, book: &B) -> usize
    ensures lawful { EveryRunLawful (setup B.answer B.limit (agreed settings.now) book.now) }
    ensures count { result ≡ length (agreed settings.now).numbers }
{
    settings.numbers().len()
}
