// Tests of the crates, each through its public calls, and of the crates together: each refusal through the calls that give it, and the
// worked meshes and pages.
#![tactic(auto)]

#[cfg(test)]
mod censuses;
#[cfg(test)]
mod files;
#[cfg(test)]
mod inspections;
#[cfg(test)]
mod maps;
#[cfg(test)]
mod marches;
#[cfg(test)]
mod pages;
#[cfg(test)]
mod tables;
#[cfg(test)]
mod volumes;
