//! Publishes what readers take.

ghost use Rattle.std.specs.Prelude.{◌≡◌, ◌<◌, ◌≤◌, ◌^◌, ◌++◌, ◌∷◌, [], List, Some, drop, fold, IfOk, MatchBool, MatchResult};
ghost use Rattle.left_right.specs.Sides.{view as view_of};
ghost use Rattle.shared_graph.specs.inside.Publishing.{Published, GoesOn, latest};

use crate::never::never;
use crate::shown::Shown;
use atomic_table::{Join, Split};
use core::mem::replace_with;
use crossbeam_utils::rule::{Outcome, Protocol};
use left_right::reader;
use left_right::writer::Writer;
use std::alloc::{AllocError, Global};
use std::marker::Model;
use std::sync::Wait;

/// What each seat has seen is a beginning of what is published.
pub(crate) struct Grows;

impl Protocol<Shown, Option<Shown>> for Grows {
    ghost use Rattle.std.specs.Prelude.{None};
    ghost use Rattle.shared_graph.specs.inside.Publishing.{AreSeen};

    ghost holds = { AreSeen };

    ghost first = { None };
}

/// What a step of the publisher and one of a reader tell.
pub(crate) struct Seeing;

impl Outcome<Shown, Option<Shown>> for Seeing {
    ghost use Rattle.shared_graph.specs.inside.Publishing.{Sees};

    ghost then = { Sees };
}

/// What the publisher tells a new reader.
pub(crate) struct Telling;

impl Split<Option<Shown>> for Telling {
    ghost left = { λ v. v };

    ghost right = { λ v. v };
}

impl Join<Option<Shown>> for Telling {
    ghost use Rattle.std.specs.Prelude.{None};

    ghost both = { λ v w. w };

    ghost spent = { None };
}

pub(crate) type ShownWriter = Writer<Shown, Shown, Option<Shown>, Grows>;

pub(crate) type ShownReader = reader::Reader<Shown, Option<Shown>, Grows>;

/// The one writer of what readers take. Contracts see it as what is published.
pub(crate) struct Publisher<R: Wait + Drop> {
    writer: ShownWriter,
    rt: R,
}

impl<R: Wait + Drop> Model for Publisher<R> {
    ghost use Rattle.std.specs.Prelude.{◌≡◌, Some};
    ghost use Rattle.left_right.specs.Sides.{view as view_of};
    ghost use Rattle.shared_graph.specs.inside.Publishing.{Published};

    ghost Value = { Published };

    ghost view = { λ p. p.writer.desk.shown.value };

    ghost invariant = { λ p. view_of p.writer.desk.place ≡ Some p.writer.desk.shown.value };
}

impl<R: Wait + Drop> Drop for Publisher<R> {
    fn drop(self) {
        let Publisher { writer, rt } = self;
        writer.take(&rt);
    }
}

impl<R: Wait + Drop> Publisher<R> {
    /// Publishes a value to at most n readers, and takes the memory of each later publishing.
    pub(crate) fn new(
        alloc: Global,
        rt: R,
        value: Shown,
        readers: usize,
    ) -> Result<Publisher<R>, AllocError>
        requires { (0 < readers) × (readers ≤ 64) }
        ensures { IfOk result (λ p. p ≡ value) }
    {
        let (first, second) = (value.again()?, value.again()?);
        let mut writer = ShownWriter::new(alloc, first, second, readers)?;
        match writer.append(value) {
            Ok(()) if publish_once(&mut writer, &rt) => Ok(Publisher { writer, rt }),
            _ => {
                writer.take(&rt);
                Err(AllocError)
            }
        }
    }

    /// What is published.
    pub(crate) fn published(&self) -> &Shown
        ensures { result.now ≡ self.now }
    {
        self.writer.published()
    }

    /// A new reader, which has seen what is published.
    ///
    /// Errors: `AllocError` where each place for a reader is in use.
    pub(crate) fn reader(&mut self) -> Result<ShownReader, AllocError>
        ensures same { self.new ≡ self.old }
        ensures seen { IfOk result (λ r. view_of r.place ≡ Some self.old) }
    {
        let mut reader = self.writer.factory().reader()?;
        reader.learn::<Telling>(self.writer.tell::<Telling>());
        Ok(reader)
    }

    /// Publishes a value that continues where what is published ends. Waits for readers that still
    /// read the value before.
    pub(crate) fn publish(&mut self, next: Shown)
        requires { GoesOn self.old next }
        ensures { self.new ≡ next }
    {
        append(&mut self.writer, &self.rt, next);
        publish(&mut self.writer, &self.rt);
    }
}

// Appends a value as the last one that is pending, which is retried where there is no memory.
fn append<R: Wait>(writer: &mut ShownWriter, rt: &R, next: Shown)
    ensures desk { writer.new.desk ≡ writer.old.desk }
    ensures last { fold latest writer.new.desk.shown.value (drop writer.new.behind writer.new.log.items) ≡ next }
{
    let mut next = next;
    for _ in rt.forever() {
        match writer.append(next) {
            Ok(()) => return,
            Err(back) => next = back,
        }
    }
    never(rt);
}

// Publishes what is pending, which is retried where it could not be shared once more.
fn publish<R: Wait>(writer: &mut ShownWriter, rt: &R)
    requires { GoesOn writer.old.desk.shown.value
        (fold latest writer.old.desk.shown.value (drop writer.old.behind writer.old.log.items)) }
    ensures value { writer.new.desk.shown.value
        ≡ fold latest writer.old.desk.shown.value (drop writer.old.behind writer.old.log.items) }
    ensures seen { view_of writer.new.desk.place ≡ Some writer.new.desk.shown.value }
{
    for _ in rt.forever() {
        if publish_once(writer, rt) {
            return;
        }
    }
    never(rt);
}

// Publishes what is pending, and says whether it did.
fn publish_once<R: Wait>(writer: &mut ShownWriter, rt: &R) -> bool
    requires { GoesOn writer.old.desk.shown.value
        (fold latest writer.old.desk.shown.value (drop writer.old.behind writer.old.log.items)) }
    ensures { MatchBool result
        ((writer.new.desk.shown.value ≡ fold latest writer.old.desk.shown.value (drop writer.old.behind writer.old.log.items))
        × (view_of writer.new.desk.place ≡ Some writer.new.desk.shown.value))
        ((writer.new.desk.shown.value ≡ writer.old.desk.shown.value)
        × (drop writer.new.behind writer.new.log.items ≡ drop writer.old.behind writer.old.log.items)) }
{
    replace_with(
        writer,
        rt,
        |writer: ShownWriter, rt: &R| -> (ShownWriter, Result<(), AllocError>)
            requires { GoesOn writer.desk.shown.value
                (fold latest writer.desk.shown.value (drop writer.behind writer.log.items)) }
            ensures { MatchResult result.1
                (λ _. (result.0.desk.shown.value ≡ fold latest writer.desk.shown.value (drop writer.behind writer.log.items))
                × (view_of result.0.desk.place ≡ Some result.0.desk.shown.value))
                (λ _. (result.0.desk.shown.value ≡ writer.desk.shown.value)
                × (drop result.0.behind result.0.log.items ≡ drop writer.behind writer.log.items)) }
        { writer.publish_as::<Seeing, R>(rt) },
    )
    .is_ok()
}
