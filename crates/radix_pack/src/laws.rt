//! The laws of the codings, each the contract of a function that does nothing.

ghost use Rattle.std.specs.Prelude.{◌≡◌};
ghost use Rattle.ring_core.specs.Sets.{sntrup761, sntrup857};
ghost use Rattle.radix_pack.specs.Codings.{small_length, rq_length, rounded_length};
ghost use Rattle.radix_pack.specs.Laws.{DecodesWhatWasEncoded, PairsEndInTwoTurns, LastEndsInTwoTurns, SmallDecodesWhatWasEncoded, SmallCodingIsWellFormed, RqDecodesWhatWasEncoded, RoundedDecodesWhatWasEncoded};

/// Decode(Encode(R, M), M) = R.
pub fn decodes_what_was_encoded()
    ensures { DecodesWhatWasEncoded }
{}

/// While a radix is at least its limit, it takes two bytes at most to get it below.
pub fn two_turns_are_enough()
    ensures pairs { PairsEndInTwoTurns }
    ensures last { LastEndsInTwoTurns }
{}

/// The small coding of an element decodes to it.
pub fn small_decodes_what_was_encoded()
    ensures well_formed { SmallCodingIsWellFormed }
    ensures source { SmallDecodesWhatWasEncoded }
{}

/// The coding of an element of R/q decodes to it, for each odd q.
pub fn rq_decodes_what_was_encoded()
    ensures { RqDecodesWhatWasEncoded }
{}

/// The coding of a rounded element decodes to it, for each odd q of which (q - 1) / 2 is a multiple
/// of 3.
pub fn rounded_decodes_what_was_encoded()
    ensures { RoundedDecodesWhatWasEncoded }
{}

/// The lengths for sntrup761, in bytes.
pub fn lengths_of_sntrup761()
    ensures small { small_length 761 ≡ 191 }
    ensures rq { rq_length sntrup761 ≡ 1158 }
    ensures rounded { rounded_length sntrup761 ≡ 1007 }
{}

/// The lengths for sntrup857, in bytes.
pub fn lengths_of_sntrup857()
    ensures small { small_length 857 ≡ 215 }
    ensures rq { rq_length sntrup857 ≡ 1322 }
    ensures rounded { rounded_length sntrup857 ≡ 1152 }
{}
