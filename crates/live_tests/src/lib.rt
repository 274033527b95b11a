//! What no stored run shows of seats and workers beside an administrator, as tests.
#![tactic(auto)]

#[cfg(test)]
mod asking;
#[cfg(test)]
mod caches;
#[cfg(test)]
mod desks;
#[cfg(test)]
mod entries;
#[cfg(test)]
mod meeting;
#[cfg(test)]
mod publishes;
#[cfg(test)]
mod trial;
#[cfg(test)]
mod workers;
