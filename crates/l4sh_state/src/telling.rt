ghost use Rattle.std.specs.Prelude.{◌≡◌, ◌++◌, ℕ, List, codes, IfOk, IsNone};
ghost use Rattle.std.specs.String.{string_bytes};
ghost use Rattle.l4sh_state.specs.States.{TellsDeadlock, TellsMoment};
ghost use Rattle.l4sh_state.specs.Waits.{HasCircle, HasCourses};
ghost use Rattle.l4sh_state.specs.WaitsFor.{HasDeadlock};

use crate::courses::{Course, PLACES};
use crate::doing::{Doing, doing_of};
use crate::drops::{Dropped, Drops};
use crate::state::State;
use crate::waits::{course_of, waits_of};
use ipc_lines::IdText;
use ipc_threads::Live;
use ipc_words::{ThreadId, ThreadIdKind};
use std::alloc::{AllocError, Global};

/// A state in words: a line for each live thread, one for each circle of waits, and one for each
/// thread whose wait leads into a circle. A thread that waits is told where a call in its name
/// dropped p since. The moment stands in front.
pub fn tell_state(alloc: Global, state: &State, drops: &Drops) -> Result<String, AllocError>
    ensures moment { IfOk result (λ text. TellsMoment (string_bytes text)) }
    ensures deadlock { IfOk result (λ text. HasDeadlock state.now.threads
        → TellsDeadlock (string_bytes text)) }
{
    let waits = waits_of(&state.threads);
    let courses = courses_of(&waits);
    let threads = tell_threads(alloc, state, drops)?;
    let circles = tell_circles(alloc, state, &waits, &courses)?;
    let stuck = tell_all_stuck(alloc, state, &waits, &courses)?;
    let mut text = String::new(alloc);
    text.push_str("moment ")?;
    text.push_str(threads.as_str())?;
    text.push_str(circles.as_str())?;
    text.push_str(stuck.as_str())?;
    Ok(text)
}

// The moment behind its word, and the lines of the threads.
fn tell_threads(alloc: Global, state: &State, drops: &Drops) -> Result<String, AllocError> {
    let mut text = String::new(alloc);
    let moment = state.moment;
    write!(text, "{moment} µs\n")?;
    for live in &state.threads {
        if let Some(live) = live {
            tell_thread(&mut text, live, state, drops)?;
        }
    }
    Ok(text)
}

// The lines of the threads whose wait leads into a circle.
fn tell_all_stuck(
    alloc: Global,
    state: &State,
    waits: &[Option<usize>; PLACES],
    courses: &[Course; PLACES],
) -> Result<String, AllocError> {
    let mut text = String::new(alloc);
    for place in 0..PLACES {
        if courses[place] == Course::Enters {
            tell_stuck(&mut text, state, waits, courses, place)?;
        }
    }
    Ok(text)
}

// Where following the waits leads from each number.
fn courses_of(waits: &[Option<usize>; PLACES]) -> [Course; PLACES]
    ensures { HasCourses waits.now result }
{
    let mut courses = [Course::Ends; PLACES];
    for place in 0..PLACES {
        courses[place] = course_of(waits, place);
    }
    courses
}

// Tells what a live thread does.
fn tell_thread(
    text: &mut String,
    live: &Live,
    state: &State,
    drops: &Drops,
) -> Result<(), AllocError> {
    let space = live.space;
    write!(text, "{}  space {space}  ", IdText(live.thread))?;
    tell_doing(text, doing_of(live), state)?;
    if let Some(call) = &live.call {
        let number = call.number;
        write!(text, "  (call {number})")?;
        tell_dropped(text, drops.since(live.thread, number))?;
    }
    text.push_str("\n")
}

// Tells a call in the name of a thread that waits, whose receiver was shown its caller.
fn tell_dropped(text: &mut String, dropped: Option<Dropped>) -> Result<(), AllocError> {
    match dropped {
        Some(dropped) => {
            let (caller, call) = (dropped.caller, dropped.call);
            write!(
                text,
                "; {} sent in its name, but p was dropped: the receiver sees {}  (call {call})",
                IdText(caller),
                IdText(caller)
            )
        }
        None => Ok(()),
    }
}

fn tell_doing(text: &mut String, doing: Doing, state: &State) -> Result<(), AllocError> {
    match doing {
        Doing::Free => text.push_str("free"),
        Doing::Sends { to, since, until } => {
            write!(text, "sends to {} since {since}", IdText(to))?;
            tell_end(text, until)
        }
        Doing::Receives { from, since, until } => {
            text.push_str("waits for ")?;
            tell_specifier(text, from)?;
            write!(text, " since {since}")?;
            tell_end(text, until)
        }
        Doing::Passes { to, moved, size } => {
            write!(text, "puts to {}, {moved} of {size} bytes", IdText(to))
        }
        Doing::Gets { from, moved } => {
            let size = size_from(state, from);
            write!(text, "gets from {}, {moved} of {size} bytes", IdText(from))
        }
    }
}

// A FromSpecifier in words.
fn tell_specifier(text: &mut String, from: ThreadId) -> Result<(), AllocError> {
    match from.kind() {
        ThreadIdKind::Anythread => text.push_str("any thread"),
        ThreadIdKind::Anylocalthread => text.push_str("any thread of its space"),
        _ => write!(text, "{}", IdText(from)),
    }
}

fn tell_end(text: &mut String, until: Option<u64>) -> Result<(), AllocError> {
    match until {
        Some(moment) => write!(text, " until {moment}"),
        None => Ok(()),
    }
}

// The bytes of the strings of the open call of a thread.
fn size_from(state: &State, thread: ThreadId) -> u64 {
    match state.threads.get(thread.number() as usize) {
        Some(Some(live)) => match &live.call {
            Some(call) => call.size,
            None => 0,
        },
        _ => 0,
    }
}

// The least number in a circle.
fn first_circle(courses: &[Course; PLACES]) -> Option<usize>
    ensures { IsNone result → HasCircle courses.now → ⊥ }
{
    for place in 0..PLACES {
        if let Course::Returns(_) = courses[place] {
            return Some(place);
        }
    }
    None
}

// Tells each circle once, from its least number on.
fn tell_circles(
    alloc: Global,
    state: &State,
    waits: &[Option<usize>; PLACES],
    courses: &[Course; PLACES],
) -> Result<String, AllocError>
    ensures { IfOk result (λ text. HasCircle courses.now → (rest : List ℕ)
        × (string_bytes text ≡ codes "deadlock: " ++ rest)) }
{
    let Some(first) = first_circle(courses) else {
        return Ok(String::new(alloc));
    };
    let circles = circles_from(alloc, state, waits, courses, first)?;
    let mut text = String::new(alloc);
    text.push_str("deadlock: ")?;
    text.push_str(circles.as_str())?;
    Ok(text)
}

// The circles from a number on, the first one behind its word.
fn circles_from(
    alloc: Global,
    state: &State,
    waits: &[Option<usize>; PLACES],
    courses: &[Course; PLACES],
    first: usize,
) -> Result<String, AllocError> {
    let mut text = String::new(alloc);
    let mut told = [false; PLACES];
    for place in first..PLACES {
        if let Course::Returns(steps) = courses[place] {
            if !told[place] {
                if place > first {
                    text.push_str("deadlock: ")?;
                }
                tell_circle(&mut text, state, waits, place, steps, &mut told)?;
            }
        }
    }
    Ok(text)
}

// Tells a circle behind its word, and marks its places.
fn tell_circle(
    text: &mut String,
    state: &State,
    waits: &[Option<usize>; PLACES],
    place: usize,
    steps: usize,
    told: &mut [bool; PLACES],
) -> Result<(), AllocError> {
    tell_name(text, state, place)?;
    let mut current = place;
    let mut until = None;
    for _ in 0..steps {
        until = sooner(until, end_at(state, current));
        if current < PLACES {
            told[current] = true;
        }
        current = match waits.get(current) {
            Some(Some(next)) => *next,
            _ => current,
        };
        text.push_str(" waits for ")?;
        tell_name(text, state, current)?;
    }
    tell_end(text, until)?;
    text.push_str("\n")
}

// The moment at which the wait of the thread of a number ends.
fn end_at(state: &State, place: usize) -> Option<u64> {
    match state.threads.get(place) {
        Some(Some(live)) => match doing_of(live) {
            Doing::Sends { until, .. } | Doing::Receives { until, .. } => until,
            _ => None,
        },
        _ => None,
    }
}

fn sooner(first: Option<u64>, other: Option<u64>) -> Option<u64> {
    match (first, other) {
        (Some(first), Some(other)) => Some(first.min(other)),
        (Some(moment), None) | (None, Some(moment)) => Some(moment),
        (None, None) => None,
    }
}

// Tells of a wait that leads into a circle: no thread on its way can end it. Nothing is told where
// one of the waits on the way ends by itself.
fn tell_stuck(
    text: &mut String,
    state: &State,
    waits: &[Option<usize>; PLACES],
    courses: &[Course; PLACES],
    place: usize,
) -> Result<(), AllocError> {
    let mut current = place;
    let mut until = None;
    for _ in 0..PLACES {
        until = sooner(until, end_at(state, current));
        current = match waits.get(current) {
            Some(Some(next)) => *next,
            _ => current,
        };
        if matches!(courses.get(current), Some(Course::Returns(_))) {
            break;
        }
    }
    text.push_str("stuck: ")?;
    tell_name(text, state, place)?;
    text.push_str(" waits behind the deadlock of ")?;
    tell_name(text, state, current)?;
    tell_end(text, until)?;
    text.push_str("\n")
}

// The id of the live thread of a number.
fn tell_name(text: &mut String, state: &State, place: usize) -> Result<(), AllocError> {
    match state.threads.get(place) {
        Some(Some(live)) => write!(text, "{}", IdText(live.thread)),
        _ => write!(text, "{place}"),
    }
}
