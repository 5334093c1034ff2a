//! Laws of the definitions, each the contract of a function that does no work.

ghost use Rattle.std.specs.Prelude.{◌≡◌, ◌++◌, ℕ, List};
ghost use Rattle.hkdf_labelled.specs.declared.suites.Suite.{Suite};
ghost use Rattle.key_schedule.specs.declared.modes.Mode.{Mode};
ghost use Rattle.key_schedule.specs.declared.schedules.Secrets.{Secrets};
ghost use Rattle.key_schedule.specs.Schedule.{key_schedule};
ghost use Rattle.key_schedule.specs.Secrets.{aead_of};
ghost use Rattle.hpke_context.specs.Answers.{Item, Cipher, run, due};

/// The answers to two lists of items, one after the other: those to the first, and then those to
/// the second from the number on that is due between them.
pub fn answers_go_on()
    ensures answers { (c : Cipher) (n : ℕ) (xs ys : List Item)
        → run c n (xs ++ ys) ≡ run c n xs ++ run c (due c n xs) ys }
    ensures number { (c : Cipher) (n : ℕ) (xs ys : List Item)
        → due c n (xs ++ ys) ≡ due c (due c n xs) ys }
{}

/// What KeySchedule gives is for the AEAD of its suite.
pub fn secrets_are_for_their_suite()
    ensures { (suite : Suite) (mode : Mode) (shared_secret info psk psk_id : List ℕ)
        (secrets : Secrets) → key_schedule suite mode shared_secret info psk psk_id ≡ Ok secrets
        → aead_of secrets.cipher ≡ suite.aead }
{}
