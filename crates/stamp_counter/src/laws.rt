//! What the rule of the counter gives, and that each atomic step keeps it.

ghost use Rattle.std.specs.Prelude.{ℕ};
ghost use Rattle.stamp_counter.specs.Laws.{NoneTwice, OneDrew, StepsKeep};

/// Under the rule no seat has drawn a stamp twice, and no two have drawn the same.
///
/// A law of the definitions: the call does nothing.
pub fn the_rule_tells_stamps_apart()
    ensures seat { (all : ℕ) → NoneTwice all }
    ensures seats { (all : ℕ) → OneDrew all }
{}

/// The rule holds of a new counter, and each of the four kinds of step keeps it, whatever state of
/// the table it finds: so it holds between any two steps of whatever threads.
///
/// A law of the definitions: the call does nothing.
pub fn each_step_keeps_the_rule()
    ensures { (all : ℕ) → StepsKeep all }
{}
