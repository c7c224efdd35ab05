//! Whole runs of both programs, over files and sinks in memory.
#![tactic(auto)]

#[cfg(test)]
mod answers;
#[cfg(test)]
mod certificates;
#[cfg(test)]
mod checks;
#[cfg(test)]
mod inclusions;
#[cfg(test)]
mod kinds;
#[cfg(test)]
mod limits;
#[cfg(test)]
mod loads;
#[cfg(test)]
mod outside;
#[cfg(test)]
mod running;
#[cfg(test)]
mod texts;
#[cfg(test)]
mod words;
