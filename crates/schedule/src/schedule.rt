//! The accepted schedule: the apply schedule of each label, and the groups of vectors.
ghost use Rattle.std.specs.Prelude.{◌≡◌, ◌++◌, ◌∷◌, [], is_some, OnOk};
ghost use Rattle.std.specs.Option.{unwrap_or};
ghost use Rattle.apply_options.specs.declared.apply_schedule.Direction.TheVariants as direction;
ghost use Rattle.apply_options.specs.declared.apply_schedule.Parallelization.TheVariants as parallelization;
ghost use Rattle.apply_options.specs.declared.apply_schedule.DenseVertexSet.TheVariants as dense_vertex_set;
ghost use Rattle.apply_options.specs.ScheduleTree.{apply_schedule_at as label_apply_schedule, apply_schedule_of};
ghost use Rattle.schedule.specs.Schedule.{empty_schedule, is_fused as has_fusing, with_apply_schedule, with_fused, with_one_group};

use apply_options::{ApplySchedule, DenseVertexSet, Direction, Fused, Parallelization};
use indexmap::IndexMap;
use std::alloc::{AllocError, Global};
use std::marker::Model;
use typed_tree::Sequence;

/// An accepted schedule: what its calls say of the applies with labels, and which vectors are kept together.
/// Labels and vectors are named by their indices in the program's lists.
pub struct Schedule {
    apply_schedules: IndexMap<usize, ApplySchedule>,
    groups: Vec<Sequence<usize>>,
}

impl Drop for Schedule {
    fn drop(self) {
        let Schedule {
            apply_schedules: _,
            groups: _,
        } = self;
    }
}

impl Model for Schedule {
    ghost use Rattle.apply_options.specs.ScheduleTree.{ScheduleTree};

    ghost Value = { ScheduleTree };

    ghost view = { λ s. record { apply_schedules = s.apply_schedules.entries; groups = s.groups.items } };
}

impl Schedule {
    /// Where no call was made.
    pub(crate) fn new(alloc: Global) -> Schedule
        ensures { result ≡ empty_schedule }
    {
        Schedule {
            apply_schedules: IndexMap::new(alloc),
            groups: Vec::new(alloc),
        }
    }

    /// What the calls say of a label.
    pub fn apply_schedule(&self, label: usize) -> ApplySchedule
        ensures { result ≡ apply_schedule_of label self.now }
    {
        match self.apply_schedules.get(&label).copied() {
            Some(apply_schedule) => apply_schedule,
            None => ApplySchedule::none(),
        }
    }

    /// In which way the edge apply with this label goes over the edges.
    pub fn direction(&self, label: Option<usize>) -> Direction
        ensures { result ≡ unwrap_or (label_apply_schedule label self.now).direction direction.SparsePush }
    {
        self.apply_schedule_at(label)
            .direction
            .unwrap_or(Direction::SparsePush)
    }

    /// How the work of the edge apply with this label is cut into pieces.
    pub fn parallelization(&self, label: Option<usize>) -> Parallelization
        ensures { result ≡ unwrap_or (label_apply_schedule label self.now).parallelization parallelization.Serial }
    {
        self.apply_schedule_at(label)
            .parallelization
            .unwrap_or(Parallelization::Serial)
    }

    /// How a dense vertex set is kept in the edge apply with this label.
    pub fn dense_vertex_set(&self, label: Option<usize>) -> DenseVertexSet
        ensures { result ≡ unwrap_or (label_apply_schedule label self.now).dense_vertex_set dense_vertex_set.BoolArray }
    {
        self.apply_schedule_at(label)
            .dense_vertex_set
            .unwrap_or(DenseVertexSet::BoolArray)
    }

    /// Where the apply with this label is in a fusing, if it is in one.
    pub fn fused(&self, label: Option<usize>) -> Option<Fused>
        ensures { result ≡ (label_apply_schedule label self.now).fused }
    {
        self.apply_schedule_at(label).fused
    }

    /// The groups of vectors that are kept together, in the order of the calls.
    pub fn groups(&self) -> &[Sequence<usize>]
        ensures { result.now ≡ self.now.groups }
    {
        &self.groups
    }

    /// What the calls say of a statement with this label, and nothing of one without a label.
    pub fn apply_schedule_at(&self, label: Option<usize>) -> ApplySchedule
        ensures { result ≡ label_apply_schedule label self.now }
    {
        match label {
            Some(label) => self.apply_schedule(label),
            None => ApplySchedule::none(),
        }
    }

    /// Whether the apply with this label is in a fusing.
    pub(crate) fn is_fused(&self, label: usize) -> bool
        ensures { result ≡ has_fusing label self.now }
    {
        self.apply_schedule(label).fused.is_some()
    }

    /// Puts what a call says of a label.
    pub(crate) fn put(
        &mut self,
        label: usize,
        apply_schedule: ApplySchedule,
    ) -> Result<(), AllocError>
        ensures { OnOk result (self.new ≡ with_apply_schedule label apply_schedule self.old) }
    {
        self.apply_schedules.insert(label, apply_schedule)?;
        Ok(())
    }

    /// Puts where the apply with this label is in a fusing.
    pub(crate) fn fuse(&mut self, label: usize, fused: Fused) -> Result<(), AllocError>
        ensures { OnOk result (self.new ≡ with_fused label fused self.old) }
    {
        let apply_schedule = ApplySchedule {
            fused: Some(fused),
            ..self.apply_schedule(label)
        };
        self.put(label, apply_schedule)
    }

    /// Puts one more group.
    pub(crate) fn push_group(&mut self, group: Sequence<usize>) -> Result<(), AllocError>
        ensures { OnOk result (self.new ≡ with_one_group group self.old) }
    {
        self.groups.push(group)?;
        Ok(())
    }
}
