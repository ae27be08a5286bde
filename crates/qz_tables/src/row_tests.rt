//! Which rows a bulk change is of.
ghost use Rattle.std.specs.Prelude.{◌≡◌, ◌&&◌, ◌==◌, not, option_copied};
ghost use Rattle.qz_types.specs.States.{is_acquired, is_acquired_for};
ghost use Rattle.qz_types.specs.Words.{is_paused, same_key, same_text};

use crate::indexed::{Indexed, Test};
use qz_types::{FiredRow, FiredState, Key, Text, TriggerRow};
use std::cmp::Ordering;

#[tactic(auto, unfolding(qz_types::specs::Words::same_key))]
fn is_same_key(a: &Key, b: &Key) -> bool
    ensures { result ≡ same_key a.now b.now }
{
    a.cmp(b) == Ordering::Equal
}

#[tactic(auto, unfolding(qz_types::specs::Words::same_text))]
fn is_same_text(a: &Text, b: &Text) -> bool
    ensures { result ≡ same_text a.now b.now }
{
    a.cmp(b) == Ordering::Equal
}

#[tactic(auto, unfolding(qz_types::specs::Words::group_of))]
fn is_paused(groups: &Indexed<Text>, group: &Text) -> bool
    ensures { result ≡ is_paused group.now groups.now.rows }
{
    groups.get(group).is_some()
}

fn is_acquired(state: FiredState) -> bool
    ensures { result ≡ is_acquired state }
{
    matches!(state, FiredState::Acquired)
}

/// The triggers of a group.
#[derive(Clone, Copy)]
pub struct OfGroup<'a> {
    pub group: &'a Text,
}

impl<'a> Test<TriggerRow> for OfGroup<'a> {
    ghost test = { λ t row. same_text t.group.now row.spec.key.group };

    fn passes(&self, row: &TriggerRow) -> bool {
        is_same_text(self.group, &row.spec.key.group)
    }
}

/// The triggers of a group's jobs.
#[derive(Clone, Copy)]
pub struct OfJobGroup<'a> {
    pub group: &'a Text,
}

impl<'a> Test<TriggerRow> for OfJobGroup<'a> {
    ghost test = { λ t row. same_text t.group.now row.spec.job.group };

    fn passes(&self, row: &TriggerRow) -> bool {
        is_same_text(self.group, &row.spec.job.group)
    }
}

/// The triggers of a group, but those whose job's group is a paused one.
#[derive(Clone, Copy)]
pub struct OfGroupOnly<'a> {
    pub group: &'a Text,
    pub paused_job_groups: &'a Indexed<Text>,
}

impl<'a> Test<TriggerRow> for OfGroupOnly<'a> {
    ghost test = { λ t row. same_text t.group.now row.spec.key.group && not (is_paused row.spec.job.group t.paused_job_groups.now.rows) };

    fn passes(&self, row: &TriggerRow) -> bool {
        is_same_text(self.group, &row.spec.key.group)
            && !is_paused(self.paused_job_groups, &row.spec.job.group)
    }
}

/// The triggers of a group's jobs, but those whose own group is a paused one.
#[derive(Clone, Copy)]
pub struct OfJobGroupOnly<'a> {
    pub group: &'a Text,
    pub paused_groups: &'a Indexed<Text>,
}

impl<'a> Test<TriggerRow> for OfJobGroupOnly<'a> {
    ghost test = { λ t row. same_text t.group.now row.spec.job.group && not (is_paused row.spec.key.group t.paused_groups.now.rows) };

    fn passes(&self, row: &TriggerRow) -> bool {
        is_same_text(self.group, &row.spec.job.group)
            && !is_paused(self.paused_groups, &row.spec.key.group)
    }
}

/// The rows of an acquired trigger.
#[derive(Clone, Copy)]
pub struct AcquiredOf<'a> {
    pub trigger: &'a Key,
}

impl<'a> Test<FiredRow> for AcquiredOf<'a> {
    ghost test = { λ t row. is_acquired row.state && same_key t.trigger.now row.trigger };

    fn passes(&self, row: &FiredRow) -> bool {
        is_acquired(row.state) && is_same_key(self.trigger, &row.trigger)
    }
}

/// The rows of a job's acquired triggers.
#[derive(Clone, Copy)]
pub struct AcquiredOfJob<'a> {
    pub job: &'a Key,
}

impl<'a> Test<FiredRow> for AcquiredOfJob<'a> {
    ghost test = { λ t row. is_acquired row.state && same_key t.job.now row.job };

    fn passes(&self, row: &FiredRow) -> bool {
        is_acquired(row.state) && is_same_key(self.job, &row.job)
    }
}

/// The rows of a group's acquired triggers.
#[derive(Clone, Copy)]
pub struct AcquiredOfGroup<'a> {
    pub group: &'a Text,
}

impl<'a> Test<FiredRow> for AcquiredOfGroup<'a> {
    ghost test = { λ t row. is_acquired row.state && same_text t.group.now row.trigger.group };

    fn passes(&self, row: &FiredRow) -> bool {
        is_acquired(row.state) && is_same_text(self.group, &row.trigger.group)
    }
}

/// The rows of the acquired triggers of a group's jobs.
#[derive(Clone, Copy)]
pub struct AcquiredOfJobGroup<'a> {
    pub group: &'a Text,
}

impl<'a> Test<FiredRow> for AcquiredOfJobGroup<'a> {
    ghost test = { λ t row. is_acquired row.state && same_text t.group.now row.job.group };

    fn passes(&self, row: &FiredRow) -> bool {
        is_acquired(row.state) && is_same_text(self.group, &row.job.group)
    }
}

/// The rows of a member.
#[derive(Clone, Copy)]
pub struct OfMember<'a> {
    pub node: &'a Text,
    pub epoch: u64,
}

impl<'a> Test<FiredRow> for OfMember<'a> {
    ghost test = { λ t row. same_text t.node.now row.node && (t.epoch == row.epoch) };

    fn passes(&self, row: &FiredRow) -> bool {
        is_same_text(self.node, &row.node) && self.epoch == row.epoch
    }
}
