// What of a scene is free, path after path.
use crate::scenes::{Row, Scene, Stand};
use shunt_blocks::{Block, are_runs_within, position_from, shape_of, unit_from};
use shunt_instance::Instance;
use std::alloc::{AllocError, Global};

/// Which units of a scene are free at a path, which changes; the scene says which positions and shapes are.
#[derive(Drop)]
pub(crate) struct Masks {
    // For each unit the shapes that are free at the first path.
    shapes: Vec<Vec<Row>>,
    // For each unit whether it is free.
    free: Vec<bool>,
    // How many free units follow each other from each one on, and how many free positions.
    unit_runs: Vec<usize>,
    position_runs: Vec<usize>,
}

// All free shapes of a scene, by unit.
fn shapes_of(alloc: Global, scene: &Scene) -> Result<Vec<Vec<Row>>, AllocError> {
    let mut shapes = Vec::with_capacity(alloc, scene.stands.len())?;
    for stand in &scene.stands {
        shapes.push(Vec::from_slice(alloc, &stand.rows)?)?;
    }
    Ok(shapes)
}

// Marks that many from one on.
fn mark(marks: &mut [bool], from: usize, n: usize) {
    for k in 0..n {
        if let Some(free) = marks.get_mut(from.saturating_add(k)) {
            *free = false;
        }
    }
}

fn free_all(marks: &mut [bool]) {
    for free in marks.iter_mut() {
        *free = true;
    }
}

// Finds how many free ones follow each other from each on.
fn find_runs(free: &[bool], runs: &mut [usize]) {
    let mut run = 0usize;
    for (free, old) in free.iter().zip(runs.iter_mut()).rev() {
        run = if *free { run.saturating_add(1) } else { 0 };
        *old = run;
    }
}

// Keeps the shapes of a unit that are free, where that many units and positions follow each other.
fn keep_free(
    stand: &mut Stand,
    shapes: &[Row],
    units: usize,
    positions: &[usize],
) -> Result<(), AllocError> {
    stand.covered = units == 0;
    stand.rows.clear();
    for row in shapes {
        let positions = positions.get(row.v).copied().unwrap_or(0);
        if row.n <= units && row.n <= positions {
            stand.rows.push(*row)?;
        }
    }
    Ok(())
}

impl Masks {
    /// Those of a scene whose shapes are free at a first path, where nothing is covered yet. Err is want of memory.
    pub(crate) fn new(alloc: Global, scene: &Scene) -> Result<Masks, AllocError> {
        let units = scene.stands.len();
        Ok(Masks {
            shapes: shapes_of(alloc, scene)?,
            free: vec![in alloc; true; units]?,
            unit_runs: vec![in alloc; 0; units]?,
            position_runs: vec![in alloc; 0; scene.free.len()]?,
        })
    }

    fn cover(&mut self, instance: &Instance, block: &Block, scene: &mut Scene) {
        let shape = shape_of(block);
        if !are_runs_within(instance, shape) {
            return;
        }
        let n = shape.n as usize;
        mark(&mut self.free, unit_from(instance, shape), n);
        mark(&mut scene.free, position_from(instance, shape), n);
    }

    // Finds the shapes that are free.
    fn find_free(&mut self, scene: &mut Scene) -> Result<(), AllocError> {
        find_runs(&self.free, &mut self.unit_runs);
        find_runs(&scene.free, &mut self.position_runs);
        for (u, stand) in scene.stands.iter_mut().enumerate() {
            let units = self.unit_runs.get(u).copied().unwrap_or(0);
            if let Some(shapes) = self.shapes.get(u) {
                keep_free(stand, shapes, units, &self.position_runs)?;
            }
        }
        Ok(())
    }

    /// Takes a scene to the path of these blocks, of which the first path's are some. Err is want of memory.
    pub(crate) fn go_to(
        &mut self,
        instance: &Instance,
        blocks: &[Block],
        scene: &mut Scene,
    ) -> Result<(), AllocError> {
        free_all(&mut self.free);
        free_all(&mut scene.free);
        for block in blocks {
            self.cover(instance, block, scene);
        }
        scene.count(instance, blocks);
        scene.entries.clear();
        self.find_free(scene)
    }

    /// How many units are free.
    pub(crate) fn units_left(&self) -> usize {
        self.free.iter().filter(|free| **free).count()
    }

    /// The first unit that is free, if any is.
    pub(crate) fn next_unit(&self) -> Option<usize> {
        self.free.iter().position(|free| *free)
    }
}
