//! Laws of the words, each a function that computes nothing and whose contract is the law: a word
//! and its fields determine each other, and what follows for the values made of them.
ghost use Rattle.ipc_words.specs.Laws.{TagIsSumOfFields, FieldsOfTagReadBack, ReceivedTagReadsBack};
ghost use Rattle.ipc_words.specs.Laws.{IdIsSumOfFields, FieldsOfIdReadBack, GlobalIdIsGlobal};
ghost use Rattle.ipc_words.specs.Laws.{GlobalKindIsOfGlobalId, PeriodIsSumOfFields};
ghost use Rattle.ipc_words.specs.Laws.{FieldsOfPeriodReadBack, SpanOfPeriod, OnlyNeverHasNoSpan};
ghost use Rattle.ipc_words.specs.Laws.{SpanIsBounded, TimeoutsAreSumOfTimes};
ghost use Rattle.ipc_words.specs.Laws.{TimesOfTimeoutsReadBack, PeriodsOfTimeoutsReadBack};
ghost use Rattle.ipc_words.specs.Laws.{ErrorIsSumOfFields, FieldsOfErrorReadBack};
ghost use Rattle.ipc_words.specs.Laws.{PhaseAndKindReadBack, MaskedControlKeepsBits};
ghost use Rattle.ipc_words.specs.Laws.{MaskedControlHasNoOtherBit, MaskedControlIsItsBits};
ghost use Rattle.ipc_words.specs.Laws.{BitsOfControlReadBack, NextVersionIsLeast};
ghost use Rattle.ipc_words.specs.Laws.{OnlyLastVersionHasNoNext};
ghost use Rattle.std.specs.Prelude.{◌≡◌, Some};
ghost use Rattle.ipc_words.specs.Time.{span, no_time};

use crate::period::Period;

/// A tag's word is the sum of its fields, each at its place.
pub fn tag_is_sum_of_fields()
    ensures { TagIsSumOfFields }
{}

/// A tag made of fields within their widths has those fields.
pub fn fields_of_tag_read_back()
    ensures { FieldsOfTagReadBack }
{}

/// A received tag has u and the label of the sent one, t and p as given, and no other flag.
pub fn received_tag_reads_back()
    ensures { ReceivedTagReadsBack }
{}

/// A thread id is the sum of its version and its number, each at its place.
pub fn id_is_sum_of_fields()
    ensures { IdIsSumOfFields }
{}

/// An id made of a number and a version has them.
pub fn fields_of_id_read_back()
    ensures { FieldsOfIdReadBack }
{}

/// An id that `ThreadId::global` makes is of kind global, with its number and version.
pub fn global_id_is_global()
    ensures { GlobalIdIsGlobal }
{}

/// An id of kind global is the one that `ThreadId::global` makes of its number and version.
pub fn global_kind_is_of_global_id()
    ensures { GlobalKindIsOfGlobalId }
{}

/// A period is the sum of its mantissa and its exponent, each at its place.
pub fn period_is_sum_of_fields()
    ensures { PeriodIsSumOfFields }
{}

/// A period made of an exponent and a mantissa has them.
pub fn fields_of_period_read_back()
    ensures { FieldsOfPeriodReadBack }
{}

/// A period that is not never lasts 2^e * m microseconds.
pub fn span_of_period()
    ensures { SpanOfPeriod }
{}

/// A period has no span exactly where it is never.
pub fn only_never_has_no_span()
    ensures { OnlyNeverHasNoSpan }
{}

/// No span is longer than 2,196,875,771,904 microseconds.
pub fn span_is_bounded()
    ensures { SpanIsBounded }
{}

/// A word of timeouts is the sum of its two times, each at its place.
pub fn timeouts_are_sum_of_times()
    ensures { TimeoutsAreSumOfTimes }
{}

/// A word of timeouts made of two times has them.
pub fn times_of_timeouts_read_back()
    ensures { TimesOfTimeoutsReadBack }
{}

/// A word of timeouts made of two periods gives both back.
pub fn periods_of_timeouts_read_back()
    ensures { PeriodsOfTimeoutsReadBack }
{}

/// An error code is the sum of p, e and the offset, each at its place.
pub fn error_is_sum_of_fields()
    ensures { ErrorIsSumOfFields }
{}

/// An error code made of p, e and an offset has them.
pub fn fields_of_error_read_back()
    ensures { FieldsOfErrorReadBack }
{}

/// An error code made of a phase and a kind gives both back.
pub fn phase_and_kind_read_back()
    ensures { PhaseAndKindReadBack }
{}

/// A masked control stops what the control stops.
pub fn masked_control_keeps_bits()
    ensures { MaskedControlKeepsBits }
{}

/// A masked control has no bit but R and S.
pub fn masked_control_has_no_other_bit()
    ensures { MaskedControlHasNoOtherBit }
{}

/// Masking changes nothing in a control that has no bit but R and S.
pub fn masked_control_is_its_bits()
    ensures { MaskedControlIsItsBits }
{}

/// A control made of R and S has them.
pub fn bits_of_control_read_back()
    ensures { BitsOfControlReadBack }
{}

/// The next version is the least one above whose low six bits are not all zero, and fits 32 bits.
pub fn next_version_is_least()
    ensures { NextVersionIsLeast }
{}

/// A version has no next one exactly where it is 2^32 - 1.
pub fn only_last_version_has_no_next()
    ensures { OnlyLastVersionHasNoNext }
{}

/// The periods with names, zero time and never: their words are 0x400 and 0, and zero time lasts 0
/// microseconds.
pub fn named_periods() -> (Period, Period)
    ensures zero { result.0 ≡ no_time }
    ensures length { span no_time ≡ Some 0 }
    ensures never { result.1 ≡ 0 }
{
    (Period::ZERO, Period::NEVER)
}
