//! Tests of workers that serve rounds of frames, on threads: their passes, rests and stops, and their pace.
#![tactic(auto)]

#[cfg(test)]
mod counting;
#[cfg(test)]
mod rounds;
