//! Tests of a kept book: it is kept in a database, opened again and undone to a mark that was made before; and databases whose
//! rows were changed by hand are told.
#![tactic(auto)]

#[cfg(test)]
mod damaged;
#[cfg(test)]
mod kept;
#[cfg(test)]
mod opened;
