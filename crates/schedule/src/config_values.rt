//! The values of `config` calls, by their texts.
ghost use Rattle.std.specs.Prelude.{◌≡◌};
ghost use Rattle.schedule.specs.Calls.{first_given as given_first, given as given_to};
ghost use Rattle.schedule.specs.Schedule.{dense_vertex_set_of, direction_of, parallelization_of};

use crate::error::ScheduleRule;
use apply_options::{ApplySchedule, DenseVertexSet, Direction, Parallelization, Setting};

/// The direction that a text in a schedule names, without its quotes.
fn direction_named(text: &[u8]) -> Option<Direction>
    ensures { result ≡ direction_of text.now }
{
    if text == b"SparsePush".as_slice() {
        Some(Direction::SparsePush)
    } else if text == b"DensePush".as_slice() {
        Some(Direction::DensePush)
    } else if text == b"DensePull".as_slice() {
        Some(Direction::DensePull)
    } else if text == b"DensePull-SparsePush".as_slice() {
        Some(Direction::Hybrid)
    } else {
        None
    }
}

/// The parallelization that a text in a schedule names, without its quotes.
fn parallelization_named(text: &[u8]) -> Option<Parallelization>
    ensures { result ≡ parallelization_of text.now }
{
    if text == b"serial".as_slice() {
        Some(Parallelization::Serial)
    } else if text == b"static-vertex-parallel".as_slice() {
        Some(Parallelization::StaticVertex)
    } else if text == b"dynamic-vertex-parallel".as_slice() {
        Some(Parallelization::DynamicVertex)
    } else if text == b"edge-aware-dynamic-vertex-parallel".as_slice() {
        Some(Parallelization::EdgeAwareDynamicVertex)
    } else {
        None
    }
}

/// The form of a dense set that a text in a schedule names, without its quotes.
fn dense_vertex_set_named(text: &[u8]) -> Option<DenseVertexSet>
    ensures { result ≡ dense_vertex_set_of text.now }
{
    if text == b"bool-array".as_slice() {
        Some(DenseVertexSet::BoolArray)
    } else if text == b"bitvector".as_slice() {
        Some(DenseVertexSet::Bitvector)
    } else {
        None
    }
}

/// What is said of a label, with a value of a `config` call, or the rule that the call breaks.
pub(crate) fn with_value(
    apply_schedule: ApplySchedule,
    setting: Setting,
    text: &[u8],
) -> Result<ApplySchedule, ScheduleRule>
    ensures { result ≡ given_to setting text.now apply_schedule }
{
    match setting {
        Setting::Direction => {
            let direction = first_given(apply_schedule.direction, direction_named(text))?;
            Ok(ApplySchedule {
                direction,
                ..apply_schedule
            })
        }
        Setting::Parallelization => {
            let parallelization = first_given(
                apply_schedule.parallelization,
                parallelization_named(text),
            )?;
            Ok(ApplySchedule {
                parallelization,
                ..apply_schedule
            })
        }
        Setting::DenseVertexSet => {
            let dense_vertex_set = first_given(
                apply_schedule.dense_vertex_set,
                dense_vertex_set_named(text),
            )?;
            Ok(ApplySchedule {
                dense_vertex_set,
                ..apply_schedule
            })
        }
        Setting::FuseFunctions | Setting::FuseFields => Err(ScheduleRule::BadArgument),
    }
}

/// The value, if it is in its table and none was given before, or the rule that is broken.
fn first_given<T: Copy>(before: Option<T>, value: Option<T>) -> Result<Option<T>, ScheduleRule>
    ensures { result ≡ given_first before value }
{
    match (value, before) {
        (None, _) => Err(ScheduleRule::BadArgument),
        (Some(_), Some(_)) => Err(ScheduleRule::GivenTwice),
        (Some(value), None) => Ok(Some(value)),
    }
}
