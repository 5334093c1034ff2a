//! Journals whose stamps count the notes too.

ghost use Rattle.std.specs.Prelude.{◌≡◌, ◌<◌, All, length, map};
ghost use Rattle.batch_alone.specs.Tables.{restamped};

use batch_plans::PlainList;
use call_places::Mark;

// Each place of a journal gets the stamp that stands at its own among these.
fn restamp_journal(stamps: &[u64], journal: &mut [Mark])
    requires { All (λ m. m.stamp < length stamps.now) journal.old }
    ensures { journal.new ≡ map (restamped stamps.now) journal.old }
{
    'marks: for i in 0..journal.len() {
        let at = journal[i].stamp as usize;
        journal[i].stamp = stamps[at];
    }
}

/// Each place of some journals gets the stamp that stands at its own among these.
pub(crate) fn restamp(stamps: &[u64], journals: &mut [PlainList<Mark>])
    requires { All (All (λ m. m.stamp < length stamps.now)) journals.old }
    ensures { journals.new ≡ map (map (restamped stamps.now)) journals.old }
{
    'journals: for i in 0..journals.len() {
        restamp_journal(stamps, journals[i].as_mut_slice());
    }
}
