// The blocks that may come next at a path.
use crate::groups::{NO_WAY, block_with, weight};
use crate::scenes::{Entry, Row, Scene};
use shunt_blocks::{Block, Park, are_runs_within};
use shunt_choices::options;
use shunt_instance::Instance;
use std::alloc::{AllocError, Global};

/// A block that may come next; its id says nothing.
#[derive(Clone, Copy)]
pub struct Choice {
    pub block: Block,
    pub(crate) entry: Entry,
}

fn track_of(option: Option<Park>) -> Option<usize> {
    match option {
        Some(park) => Some(park.track.0 as usize),
        None => None,
    }
}

// A shape at a unit with an option.
fn choice_of(instance: &Instance, u: usize, row: &Row, option: Option<Park>) -> Choice {
    let block = block_with(row.shape, option);
    Choice {
        block,
        entry: Entry {
            u,
            row: *row,
            track: track_of(option),
            cost: weight(instance, &block),
        },
    }
}

// Whether a group has a way to an option's track.
fn has_way(scene: &Scene, group: usize, option: Option<Park>) -> bool {
    let Some(park) = option else {
        return true;
    };
    let Some(group) = scene.groups.get(group) else {
        return false;
    };
    match scene.ways(group).get(park.track.0 as usize) {
        Some(way) => *way < NO_WAY,
        None => false,
    }
}

// Adds a shape at a unit with each of its options.
fn add_choices(
    instance: &Instance,
    scene: &Scene,
    u: usize,
    row: &Row,
    choices: &mut Vec<Choice>,
) -> Result<(), AllocError> {
    if !are_runs_within(instance, row.shape) {
        return Ok(());
    }
    for option in options(instance, row.shape) {
        if has_way(scene, row.group, option) {
            choices.push(choice_of(instance, u, row, option))?;
        }
    }
    Ok(())
}

/// The blocks that may come next where the first free unit is this one, also those with which the run doesn't go through. Err is want of memory.
pub(crate) fn choices_from(
    alloc: Global,
    instance: &Instance,
    scene: &Scene,
    next: Option<usize>,
) -> Result<Vec<Choice>, AllocError> {
    let mut choices = Vec::new(alloc);
    let Some(u) = next else {
        return Ok(choices);
    };
    let Some(stand) = scene.stands.get(u) else {
        return Ok(choices);
    };
    for row in &stand.rows {
        add_choices(instance, scene, u, row, &mut choices)?;
    }
    Ok(choices)
}
