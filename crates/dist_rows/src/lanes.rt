//! Groups of 32 cells at once.
ghost use Rattle.std.specs.Prelude.{◌≡◌, ◌+◌, ◌-◌, ◌≤◌, length, map, min};
ghost use Rattle.std.specs.Simd.Lanes.{chunk, put_chunk, zip2};
ghost use Rattle.dist_rows.specs.Squares.{lowered, sum_of};

use std::simd::prelude::*;

/// How many cells a group has.
pub(crate) const LANES: usize = 32;

/// The group that begins at a place.
#[inline(always)]
pub(crate) fn load(cells: &[u8], at: usize) -> u8x32
    requires { at + LANES ≤ length cells.now }
    ensures { result ≡ chunk at LANES cells.now }
{
    u8x32::from_slice(&cells[at..])
}

/// Lowers the group that begins at a place by the sums with others.
#[inline(always)]
pub(crate) fn lower(cells: &mut [u8], at: usize, add: u8, others: u8x32)
    requires { at + LANES ≤ length cells.old }
    ensures { cells.new ≡ put_chunk at cells.old (lowered add (chunk at LANES cells.old) others) }
{
    let sums = sums(u8x32::splat(add), others);
    store(least(load(cells, at), sums), cells, at);
}

/// How far each cell of the group that begins at a place is above a limit.
#[inline(always)]
pub(crate) fn above_limit(cells: &[u8], at: usize, limit: u8) -> [u8; LANES]
    requires { at + LANES ≤ length cells.now }
    ensures { result ≡ map (λ d. d - limit) (chunk at LANES cells.now) }
{
    above(load(cells, at), u8x32::splat(limit)).to_array()
}

#[inline(always)]
fn store(lanes: u8x32, cells: &mut [u8], at: usize)
    requires { at + LANES ≤ length cells.old }
    ensures { cells.new ≡ put_chunk at cells.old lanes }
{
    lanes.copy_to_slice(&mut cells[at..]);
}

// The sums, lane by lane.
#[inline(always)]
fn sums(lanes: u8x32, others: u8x32) -> u8x32
    ensures { result ≡ zip2 sum_of lanes others }
{
    lanes.saturating_add(others)
}

// The least of both, lane by lane.
#[inline(always)]
fn least(lanes: u8x32, others: u8x32) -> u8x32
    ensures { result ≡ zip2 min lanes others }
{
    lanes.simd_min(others)
}

// How far each lane is above that of the others.
#[inline(always)]
fn above(lanes: u8x32, others: u8x32) -> u8x32
    ensures { result ≡ zip2 (λ d e. d - e) lanes others }
{
    lanes.saturating_sub(others)
}
