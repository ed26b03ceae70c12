// What is told of a night that goes on.

/// How many runs of a timetable stand on a track, and how many were cleared away.
#[derive(Clone, Copy, Debug, PartialEq, Eq, Drop)]
pub struct Tally {
    pub parked: u64,
    pub cleared: u64,
}
